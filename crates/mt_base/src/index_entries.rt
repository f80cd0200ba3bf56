//! Entries of the index of events by stop and time, and their order.

ghost use Rattle.std.specs.Prelude.{◌≡◌};
ghost use Rattle.std.specs.Cmp.{IsTotalOrder};
ghost use Rattle.std.specs.declared.cmp.Ordering.TheVariants.{Equal};
ghost use Rattle.mt_base.specs.declared.index_entries.Entry.{Entry as AnEntry};
ghost use Rattle.mt_base.specs.Order.{entry_cmp, is_before_entry};

use crate::keys::Node;
use crate::numbers::{StopNo, Time};

/// An event in the index of events by stop and time. Entries are ordered by stop, arrivals before
/// departures, scheduled time, and event.
#[derive(Clone, Copy, Debug, PartialEq, Eq, PartialOrd, Ord)]
pub struct Entry {
    /// The stop of the event's call.
    pub stop: StopNo,

    /// Whether the event is a departure, and not an arrival.
    pub dep: bool,

    /// The scheduled time of the event.
    pub time: Time,

    /// The event.
    pub node: Node,
}

impl Entry {
    /// Whether it stands before the other in the index of events.
    pub fn is_before(&self, other: &Entry) -> bool
        ensures { result ≡ is_before_entry self.now other.now }
    {
        self.cmp(other).is_lt()
    }
}

/// The order of the index of events is total: of any two entries one is before the other, or they
/// are one entry.
pub fn entry_order_is_total()
    ensures total { IsTotalOrder entry_cmp }
    ensures exact { (a b : AnEntry) → entry_cmp a b ≡ Equal → a ≡ b }
{}
