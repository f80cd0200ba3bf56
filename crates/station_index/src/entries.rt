//! Entries in their order: where one stands, and which of them are in a range.

ghost use Rattle.std.specs.Prelude.{◌≡◌, ◌-◌, ◌<◌, ◌≤◌, length, true, false, filter};
ghost use Rattle.std.specs.List.Sorted.{IsPartitionPoint};
ghost use Rattle.mt_base.specs.Order.{is_before_entry};
ghost use Rattle.station_index.specs.Indexed.{AreInOrder, is_in_range, with_entry, without_entry};
ghost use Rattle.station_index.specs.Places.{IsRangeAt, is_before_range, is_past_range};

use block_lists::{BlockList, Elements};
use mt_base::index_entries::Entry;
use mt_base::numbers::StopNo;

/// How many of these entries stand before an entry.
fn place(entries: &BlockList<Entry>, entry: &Entry) -> usize
    requires { AreInOrder entries.now.items }
    ensures within { result ≤ length entries.now.items }
    ensures place { IsPartitionPoint (λ e. is_before_entry e entry.now ≡ true)
        (λ e. is_before_entry e entry.now ≡ false) entries.now.items result }
{
    entries.partition_point(|e| e.is_before(entry))
}

/// Puts an entry in its place. It takes no memory.
pub(crate) fn put(entries: &mut BlockList<Entry>, entry: Entry)
    requires order { AreInOrder entries.old.items }
    requires room { 0 < entries.old.room }
    ensures items { entries.new.items ≡ with_entry entry entries.old.items }
    ensures room { entries.new.room ≡ entries.old.room - 1 }
{
    let place = place(entries, &entry);
    entries.insert(place, entry);
}

/// Takes an entry out if it is there.
pub(crate) fn take_out(entries: &mut BlockList<Entry>, entry: &Entry)
    requires { AreInOrder entries.old.items }
    ensures items { entries.new.items ≡ without_entry entry.now entries.old.items }
    ensures room { entries.old.room ≤ entries.new.room }
{
    let place = place(entries, entry);
    if place < entries.len() && !entry.is_before(entries.get(place)) {
        let _ = entries.remove(place);
    }
}

/// The entries at a stop, arrivals or departures as asked for, that are scheduled from `lo` to
/// `hi`, both included.
pub(crate) fn part(
    entries: &BlockList<Entry>,
    stop: StopNo,
    dep: bool,
    lo: u64,
    hi: u64,
) -> Elements<'_, Entry>
    requires { AreInOrder entries.now.items }
    ensures { result ≡ filter (is_in_range stop dep lo hi) entries.now.items }
{
    let (first, last) = bounds(entries, stop, dep, lo, hi);
    entries.range(first, last)
}

/// Where these entries begin, and where they end.
fn bounds(entries: &BlockList<Entry>, stop: StopNo, dep: bool, lo: u64, hi: u64) -> (usize, usize)
    requires { AreInOrder entries.now.items }
    ensures { IsRangeAt (is_in_range stop dep lo hi) entries.now.items result.0 result.1 }
{
    let first = entries.partition_point(|e| is_before_range(e, stop, dep, lo));
    let last = entries.partition_point(|e| !is_past_range(e, stop, dep, hi));
    // Where `hi` is before `lo`, those past the range begin before the first that is not before it.
    (first, last.max(first))
}

/// Whether an entry stands before those at a stop, arrivals or departures as asked for, from a
/// time on.
fn is_before_range(entry: &Entry, stop: StopNo, dep: bool, lo: u64) -> bool
    ensures { result ≡ is_before_range stop dep lo entry.now }
{
    (entry.stop, entry.dep, u64::from(entry.time.seconds())) < (stop, dep, lo)
}

/// Whether an entry stands after those at a stop, arrivals or departures as asked for, up to a
/// time.
fn is_past_range(entry: &Entry, stop: StopNo, dep: bool, hi: u64) -> bool
    ensures { result ≡ is_past_range stop dep hi entry.now }
{
    (stop, dep, hi) < (entry.stop, entry.dep, u64::from(entry.time.seconds()))
}
