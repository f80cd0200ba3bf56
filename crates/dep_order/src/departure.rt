//! Departures, and the order in which they take place.

ghost use Rattle.std.specs.Prelude.{◌≡◌};
ghost use Rattle.dep_order.specs.Departing.{leaves_before};

use mt_base::keys::Key;
use mt_base::numbers::{StopNo, Time};

/// A departure: when it takes place, which it is, and where passengers may board. Departures are
/// ordered by their times, and those of one second by their keys.
#[derive(Clone, Copy, Debug, PartialEq, Eq, PartialOrd, Ord)]
pub struct Departure {
    /// When it takes place, in seconds from the base of day 0.
    pub time: Time,

    /// Which event it is, with its scheduled time.
    pub key: Key,

    /// The stop where passengers may board: that which the train leaves, or the number past all
    /// stops where nobody may board.
    pub stop: StopNo,
}

/// What the train of a departure does next.
#[derive(Clone, Copy, Debug, PartialEq, Eq)]
pub struct Onward {
    /// When it arrives next, in seconds from the base of day 0.
    pub arrival: Time,

    /// The stop where passengers may alight then: that where it arrives, or the number past all
    /// stops where nobody may alight.
    pub to: StopNo,

    /// The number of its departure from there; a number that no departure has where it ends there.
    pub next: u32,
}

/// A departure as a scan comes to it.
#[derive(Clone, Copy, Debug, PartialEq, Eq)]
pub struct Leaving {
    /// Its number.
    pub number: u32,

    /// When it takes place, in seconds from the base of day 0.
    pub time: Time,

    /// The stop where passengers may board, or the number past all stops.
    pub stop: StopNo,

    /// When its train arrives next, in seconds from the base of day 0.
    pub arrival: Time,

    /// The stop where passengers may alight then, or the number past all stops.
    pub to: StopNo,

    /// The number of the train's departure from there, or one that no departure has.
    pub next: u32,
}

impl Departure {
    /// Whether it takes place before the other, or in the same second with a key before the
    /// other's.
    #[inline]
    pub fn leaves_before(&self, other: &Departure) -> bool
        ensures { result ≡ leaves_before self.now other.now }
    {
        self.cmp(other).is_lt()
    }
}
