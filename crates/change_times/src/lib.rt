//! Change times between stops, by `stops.txt` and `transfers.txt`.
#![tactic(auto)]

pub mod change;
pub mod changes;
pub mod faults;
mod links;
mod lists;
mod near;
mod places;
mod reach;
mod table;
mod transfers;

pub use change::Change;
pub use changes::Changes;
pub use faults::BuildFault;
