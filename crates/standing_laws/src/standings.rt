//! What has become of a journey.

use mt_base::numbers::{Day, Time};

/// Whether a journey can be taken at the times as they are now.
#[derive(Clone, Copy, Debug, PartialEq, Eq)]
pub enum Standing {
    /// Each of its rides can be taken; the last arrives at this time, in seconds from the base of
    /// day 0. Without a ride it is the time of the query.
    Good { arrives: Time },
    /// The ride of this number, from 0, is the first that can no longer be taken.
    Broken { ride: u32 },
}

/// That a watched journey has another standing.
#[derive(Clone, Copy, Debug, PartialEq, Eq)]
pub struct Alert {
    /// The number under which the journey is watched.
    pub watch: u64,

    /// The service day on which the time of its query lies.
    pub day: Day,

    /// Its standing now.
    pub standing: Standing,
}
