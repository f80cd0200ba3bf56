//! All best plans of each query: what `plans` writes.
#![tactic(auto)]

mod lines;
mod queries;
mod search;

pub use lines::PlanLines;
pub use search::PlanSearch;
