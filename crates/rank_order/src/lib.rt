//! Marked events in the order of their keys.
#![tactic(auto)]

mod gathering;
mod late_marks;
pub mod marks;

pub use marks::Marks;
