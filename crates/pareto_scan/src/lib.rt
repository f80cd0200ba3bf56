//! All best journeys by arrival and number of rides, by one scan of the departures in the order of
//! their times.
#![tactic(auto)]

mod begin;
mod bound;
mod fronts;
mod level;
mod passed;
mod plans;
mod riders;
mod scan;
mod trace;

pub use fronts::{FrontScratch, front};
