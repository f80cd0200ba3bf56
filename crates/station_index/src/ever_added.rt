//! Flags that say of each stop and kind of event whether an entry was ever added there.

ghost use Rattle.std.specs.Prelude.{◌≡◌, All, IfOk, filter, slice_index_or};
ghost use Rattle.std.specs.Prelude.{slice_set, false, true};
ghost use Rattle.station_index.specs.Indexed.{AreInOrder, is_in_range};
ghost use Rattle.station_index.specs.Slots as slots;

use crate::entries::part;
use crate::loaded::last_slot;
use crate::loaded_event::slot_number;
use block_lists::{BlockList, Elements};
use mt_base::index_entries::Entry;
use mt_base::memory::OutOfMemory;
use mt_base::numbers::StopNo;
use std::alloc::Global;

/// A flag for each stop and kind of event up to the last that has one of these entries, which are
/// in order. None of them is set.
pub(crate) fn none_added(alloc: Global, entries: &[Entry]) -> Result<Vec<bool>, OutOfMemory>
    requires { AreInOrder entries.now }
    ensures { IfOk result (λ ever_added. All (λ flag. flag ≡ false) ever_added.items) }
{
    vec![in alloc; false; last_slot(entries).saturating_add(1)]
}

/// Sets the flag of the stop and kind of an entry, if there is one.
pub(crate) fn note_added(ever_added: &mut Vec<bool>, entry: &Entry)
    ensures { ever_added.new.items ≡ slice_set ever_added.old.items (slots.slot_of entry.now) true }
{
    let slot = slot_number(entry.stop, entry.dep);
    if slot < ever_added.len() {
        ever_added[slot] = true;
    }
}

/// The added entries at a stop, arrivals or departures as asked for, that are scheduled from `lo`
/// to `hi`, both included. They are not looked at where none was ever added.
pub(crate) fn added_part<'a>(
    added: &'a BlockList<Entry>,
    ever_added: &[bool],
    stop: StopNo,
    dep: bool,
    lo: u64,
    hi: u64,
) -> Elements<'a, Entry>
    requires order { AreInOrder added.now.items }
    requires ever_added { All (λ e. slice_index_or ever_added.now (slots.slot_of e) true ≡ true)
        added.now.items }
    ensures { result ≡ filter (is_in_range stop dep lo hi) added.now.items }
{
    if is_ever_added(ever_added, stop, dep) {
        part(added, stop, dep, lo, hi)
    } else {
        added.range(0, 0)
    }
}

/// Whether an entry may have been added at a stop, an arrival or a departure as asked for.
fn is_ever_added(ever_added: &[bool], stop: StopNo, dep: bool) -> bool
    ensures { result ≡ slice_index_or ever_added.now (slots.slot_number stop dep) true }
{
    let slot = slot_number(stop, dep);
    if slot < ever_added.len() {
        ever_added[slot]
    } else {
        true
    }
}
