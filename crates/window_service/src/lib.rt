//! A timetable with its names as a service that answers an input window after window: the replies
//! to a window are written when the whole window is answered, or added up, and queries are answered
//! beside the messages.
#![tactic(auto)]

pub mod laws;
mod output;
mod receiving;
mod summary;
mod summing;
mod sums;
mod windows;
mod writing;

pub use laws::sums_are_the_same;
pub use output::write_windows;
pub use summary::summary_text;
pub use summing::sum_windows;
pub use sums::ReplySums;
