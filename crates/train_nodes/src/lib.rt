//! Trains with their calls, the values of their events and what was chosen for connections; and the
//! messages that change them.
#![tactic(auto)]

mod edits;
pub mod kinds;
mod removed;
mod shapes;
mod train_records;
pub mod trains;
pub mod well_formed;

pub use call_lines::{TableCall, TrainEvents, calls, events};
pub use connection_choices::Keeps;
pub use event_numbers::{NodeTimes, Steps};
pub use kinds::Kind;
pub use trains::Trains;
pub use well_formed::Msg;
