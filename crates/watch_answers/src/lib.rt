//! Watched journeys: what `watch` writes.
#![tactic(auto)]

mod lines;
mod messages;
mod queries;

pub use lines::WatchLines;
