//! The whole state of the trains with the time of every event.
//!
//! After each accepted message the rule is evaluated where the message may change a time, and
//! nowhere else.
#![tactic(auto)]

mod check;
mod departures;
mod events;
mod following;
pub mod laws;
mod leaving;
mod lists;
mod loading;
mod marking;
mod onward;
mod places;
mod prepare;
mod replay;
mod scheduled;
pub mod timetable;

pub use dep_order::{Departure, DepartureOrder};
pub use timetable::Timetable;
