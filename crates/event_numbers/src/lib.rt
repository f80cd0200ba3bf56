//! The numbers of calls and events, and the stored times of events by these numbers.
#![tactic(auto)]

pub mod slots;
pub mod steps;
pub mod times;

pub use slots::Slots;
pub use steps::Steps;
pub use times::NodeTimes;
