//! The next departures of a station, as they are now.
#![tactic(auto)]

mod boards;

pub use boards::board;
