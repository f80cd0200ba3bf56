//! What messages about one event's values and about connections do to the graph: which of them are
//! refused, and what the others change.
#![tactic(auto)]

pub mod checks;
pub mod connections;
pub mod values;

pub use connections::{apply_choice, check_choice};
pub use values::{apply_value, check_value_of_valid};
