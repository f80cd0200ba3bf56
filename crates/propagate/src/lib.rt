//! Settles the events that are marked, and those whose times depend on them, in the order of their
//! keys.
#![tactic(auto)]

mod asked;
mod settling;
pub mod successors;
pub mod time_changes;

pub use settling::settle;
pub use successors::mark_successors;
pub use time_changes::TimeChange;
