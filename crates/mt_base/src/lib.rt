//! Plain data of the service: numbers, keys, options, queries, rows of tables, civil dates and
//! times of day.
#![tactic(auto)]

pub mod calendar;
pub mod certificates;
pub mod index_entries;
pub mod journeys;
pub mod keys;
pub mod memory;
pub mod names;
pub mod new_calls;
pub mod numbers;
pub mod options;
pub mod places;
pub mod rows;
pub mod tables;
pub mod texts;

pub use calendar::civil;
pub use certificates::{Cert, CertRide, Reach};
pub use index_entries::Entry;
pub use journeys::{Plan, PlanRide, Query};
pub use keys::{Key, Node};
pub use memory::OutOfMemory;
pub use names::Name;
pub use new_calls::NewCall;
pub use numbers::{Day, Label, RouteNo, StopNo, Time, TrainNo};
pub use options::Opts;
pub use places::PlaceKind;
pub use rows::Rows;
pub use tables::{
    CalendarRow, CallRow, DateRow, RuleRow, StopRow, Tables, TransferRow, TripRow, What,
};
