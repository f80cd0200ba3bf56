//! Flags that say of each loaded entry whether it is live.

ghost use Rattle.std.specs.Prelude.{◌≡◌, IfOk, length, replicate, true};
ghost use Rattle.station_index.specs.Indexed.{without_entry};
ghost use Rattle.station_index.specs.Merged.{kept};

use crate::loaded::LoadedEntries;
use mt_base::index_entries::Entry;
use mt_base::memory::OutOfMemory;
use std::alloc::Global;

/// So many flags, each of them set.
pub(crate) fn all_live(alloc: Global, count: usize) -> Result<Vec<bool>, OutOfMemory>
    ensures { IfOk result (λ live. live.items ≡ replicate count true) }
{
    vec![in alloc; true; count]
}

/// Clears the flag of an entry if it is there.
pub(crate) fn clear(loaded: &LoadedEntries, live: &mut Vec<bool>, entry: &Entry)
    requires { length live.old.items ≡ length loaded.now }
    ensures flags { length live.new.items ≡ length live.old.items }
    ensures kept { kept loaded.now live.new.items
        ≡ without_entry entry.now (kept loaded.now live.old.items) }
{
    if let Some(place) = loaded.find(entry) {
        live[place] = false;
    }
}
