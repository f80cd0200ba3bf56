//! Events that get other times.

use mt_base::keys::Key;
use mt_base::numbers::Time;

/// An event that gets another time.
#[derive(Clone, Copy, Debug, PartialEq, Eq)]
pub struct TimeChange {
    /// Which event it is.
    pub key: Key,

    /// The time that was stored for it, in seconds from the base of day 0.
    pub was: Time,

    /// The time that it gets, in seconds from the base of day 0.
    pub is: Time,
}
