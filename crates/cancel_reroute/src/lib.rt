//! What cancellations, reroutings and extra trains do to the graph: which of them are refused, and
//! what the others change.
#![tactic(auto)]

mod cancel;
mod extra;
mod new_calls;
mod rank;
mod reroute;
pub mod shape;

pub use shape::{apply_shape, check_shape, check_shape_of_valid};
