//! Tests of what only a run can show of a follower: that it reads a journal however its bytes come
//! and whatever an input does, finds memory for that, and ends. They stand in a crate of their own,
//! since a crate with tests is proved twice.
#![tactic(auto)]

#[cfg(test)]
mod example;
#[cfg(test)]
mod inputs;
#[cfg(test)]
mod pieces;
