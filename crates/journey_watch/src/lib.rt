//! Journeys that are watched: what has become of them, and what is told when it is something else.
#![tactic(auto)]

pub mod laws;
mod rides;
mod standings;
mod trains;
pub mod watch;
pub mod watched;

pub use standings::standing;
pub use watch::{AddFault, Watch};
pub use watched::Watched;
