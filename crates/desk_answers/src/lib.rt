//! The departures of stations, and why events are when they are: what `desk` writes.
#![tactic(auto)]

mod lines;
mod questions;

pub use lines::DeskLines;
