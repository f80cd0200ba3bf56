//! What is stored of a loaded entry, whose stop and kind follow from its place.

ghost use Rattle.std.specs.Prelude.{◌≡◌};
ghost use Rattle.station_index.specs.Slots as slots;

use mt_base::index_entries::Entry;
use mt_base::keys::Node;
use mt_base::numbers::{Label, StopNo, Time, TrainNo};

/// An event that was given when the index was built, in twelve bytes.
#[derive(Clone, Copy, Debug, PartialEq, Eq)]
pub(crate) struct LoadedEvent {
    /// The scheduled time of the event.
    pub time: Time,

    /// The train.
    pub train: TrainNo,

    /// The label of the call.
    pub label: Label,
}

/// What is stored of an entry.
pub(crate) fn event_in(entry: &Entry) -> LoadedEvent
    ensures { result ≡ slots.event_in entry.now }
{
    LoadedEvent {
        time: entry.time,
        train: entry.node.train,
        label: entry.node.label,
    }
}

/// The entry of a loaded event at a stop, an arrival or a departure.
pub(crate) fn entry_of(stop: StopNo, dep: bool, event: &LoadedEvent) -> Entry
    ensures { result ≡ slots.entry_of stop dep event.now }
{
    Entry {
        stop,
        dep,
        time: event.time,
        node: Node {
            train: event.train,
            label: event.label,
            dep,
        },
    }
}

/// The number of the part in which the arrivals or the departures of a stop lie.
pub(crate) fn slot_number(stop: StopNo, dep: bool) -> usize
    ensures { result ≡ slots.slot_number stop dep }
{
    2 * stop.get() as usize + usize::from(dep)
}
