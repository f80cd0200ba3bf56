//! The departures in the order in which they take place now, each with what its train does next.
#![tactic(auto)]

mod ahead;
pub mod call_numbers;
mod changes;
pub mod departure;
mod gap;
mod guides;
mod links;
mod lists;
mod numbered;
pub mod order;
pub mod scan;
mod slot_table;

pub use call_numbers::CallNumbers;
pub use departure::{Departure, Leaving, Onward};
pub use order::DepartureOrder;
pub use scan::Departures;
