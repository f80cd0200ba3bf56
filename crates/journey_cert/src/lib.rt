//! Certificates of earliest arrivals. `certify` makes one of what a search found, and `check` says
//! of any whether it is good, whatever made it, so that its reader need not trust the search. Only
//! `certify` takes memory.
#![tactic(auto)]

pub mod certifying;
pub mod checking;
mod journey;
mod places;
mod ride;
mod stops;

pub use certifying::certify;
pub use checking::check;
pub use journey::is_from_origin;
pub use places::is_in_time;
