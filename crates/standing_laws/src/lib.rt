//! What becomes of a journey: whether its rides can be taken at the event times, and what changes
//! that.
#![tactic(auto)]

pub mod laws;
pub mod standings;

pub use standings::{Alert, Standing};
