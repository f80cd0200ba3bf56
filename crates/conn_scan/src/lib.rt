//! The earliest arrival, by a scan of the departures in the order of their times.
#![tactic(auto)]

pub mod aboard;
pub mod arrivals;
pub mod earliest_arrival;
pub mod known;
pub mod laws;
pub mod openings;
mod scan;
pub mod stop_rides;
pub mod stop_times;
pub mod trace;

pub use arrivals::has_arrivals;
pub use earliest_arrival::{Found, Scratch, earliest};
