//! The tables of a feed: from the bytes of a table to its rows, or the first fault in it.
#![tactic(auto)]

mod builders;
mod calendar;
mod calendar_dates;
mod calls;
mod cells;
mod columns;
pub mod faults;
pub mod feeds;
pub mod fields;
mod frequencies;
mod guesses;
mod ids;
mod keyed_calls;
pub mod laws;
mod numbering;
pub mod refusals;
mod sheets;
mod stop_times;
mod stops;
mod transfers;
mod trips;
mod waiting_rules;

pub use faults::{Cause, Fault, Table, TableError};
pub use feeds::read_tables;
pub use laws::records_are_all;
pub use refusals::{FeedError, FeedRefusal};
