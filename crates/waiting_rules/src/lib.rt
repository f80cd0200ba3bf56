//! How long a train waits for a late feeder, by `waiting_rules.txt`.
#![tactic(auto)]

mod bounds;
mod classes;
mod first_rules;
mod parts;
mod routes;
mod scopes;
mod stations;
mod waiting;
pub mod waits;

pub use classes::WaitClass;
pub use waits::Waits;
