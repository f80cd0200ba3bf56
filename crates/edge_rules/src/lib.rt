//! The edges of the dependency graph at one event, and the rule for times there, over the trains as
//! they are stored.
//!
//! The edges run along the trains and, as connections that are planned or kept, between them.
#![tactic(auto)]

mod along;
mod asking;
mod between;
mod connections;
mod copies;
pub mod edges;
mod edits;
mod entry_events;
pub mod graph;
mod indexing;
mod kept;
mod planned_from;
mod planned_into;
mod rule;
mod shift;

pub use edges::{ChangingEdges, Edges};
pub use graph::Graph;
pub use rule::{counts, floor};
