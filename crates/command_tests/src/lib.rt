//! Runs of the commands over objects in memory, each with all that it must write, and what only a
//! run can show of the libraries below. They stand in a crate of their own, since a crate with tests
//! is proved twice.
#![tactic(auto)]

#[cfg(test)]
mod tests;
