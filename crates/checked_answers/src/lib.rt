//! Answers with what shows that they are right, and whether what comes with claims shows that they
//! are: what `check` writes.
#![tactic(auto)]

mod claims;
mod lines;
mod queries;

pub use lines::CheckLines;
