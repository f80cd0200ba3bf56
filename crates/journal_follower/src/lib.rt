//! A follower: it reads a journal that is still being written, and has what it reads on a board,
//! where viewers look at it without waiting for one another.
#![tactic(auto)]

mod board;
mod follower;
mod laws;

pub use board::NamedBoard;
pub use follower::{Follower, Leader};
pub use laws::{looks_are_beginnings_of_the_journal, whole_journals_are_followed};
