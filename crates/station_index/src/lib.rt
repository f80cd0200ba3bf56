//! The events of each stop by time, so that connections are found by a search.
#![tactic(auto)]

mod entries;
mod ever_added;
pub mod index;
mod live;
mod loaded;
mod loaded_event;
pub mod range;
mod sorting;

pub use index::StationIndex;
pub use range::Range;
