//! Two commands that read lines and say little of their own: all that one more command takes. The
//! second one loads a table of its own behind the feed.
#![tactic(auto)]

mod count_accepted;
mod keep_accepted;

pub use count_accepted::CountAccepted;
pub use keep_accepted::{KeepAccepted, TakeMark};
