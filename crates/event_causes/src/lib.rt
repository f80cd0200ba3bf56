//! Why an event is when it is, as the timetable is now.
#![tactic(auto)]

mod cause;
pub mod chain;

pub use chain::why;
