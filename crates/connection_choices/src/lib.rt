//! What dispatchers chose for connections, found by either of their events.
#![tactic(auto)]

pub mod event_set;
pub mod keeps;
mod override_rows;
pub mod override_table;

pub use event_set::EventSet;
pub use keeps::Keeps;
pub use override_table::OverrideTable;
