//! The bytes of the replies to questions about departures and about the time of an event.
#![tactic(auto)]

mod chains;
mod departures;

pub use chains::because_text;
pub use departures::departures_text;
