//! An input that is followed: the journal that it holds is read piece by piece, by a follower.
#![tactic(auto)]

mod fault;
mod following;
mod journal;

pub use fault::FollowFault;
pub use following::follow_input;
pub use journal::follow_journal;
