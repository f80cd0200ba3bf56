//! What is stored of a train beside its calls.

use mt_base::numbers::{Day, RouteNo};

/// A train: its service day and route, and how many calls it makes now.
#[derive(Clone, Copy, Debug)]
pub(crate) struct TrainRecord {
    pub(crate) day: Day,
    pub(crate) route: RouteNo,
    pub(crate) len: u32,
}
