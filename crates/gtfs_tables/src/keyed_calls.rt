//! The times of calls by trip and stop_sequence.

ghost use Rattle.std.specs.Prelude.{◌≡◌, List, [], ◌++◌, IfOk, IfErr, OnOk, is_none};
ghost use Rattle.std.specs.BTreeMap.{insert_entry, is_at};
ghost use Rattle.std.specs.List.Sorted.{IsStrictlySortedBy};
ghost use Rattle.std.specs.Map.{keys_of, lookup};
ghost use Rattle.gtfs_tables.specs.declared.keyed_calls.CallTimes.{CallTimes};
ghost use Rattle.gtfs_tables.specs.declared.faults.TableError.TheVariants.{OutOfMemory};
ghost use Rattle.gtfs_tables.specs.StopTimes.{AreBelow, Key, key_cmp};

use crate::faults::TableError;
use std::alloc::Global;
use std::collections::BTreeMap;
use std::marker::Model;

/// The times of a call, and the row that it stands in.
#[derive(Clone, Copy, Debug, PartialEq, Eq)]
pub(crate) struct CallTimes {
    /// The number of the row.
    pub row: u64,
    /// The arrival, in seconds from the base of the service day.
    pub arr: Option<u32>,
    /// The departure, in seconds from the base of the service day.
    pub dep: Option<u32>,
}

/// The times of calls in the order of their keys. A key is the number of a trip and a
/// stop_sequence. As long as rows come in this order, each costs a push and no search.
#[derive(Drop)]
pub(crate) struct KeyedCalls {
    // The keys here rise, and all are below those of `sorted`.
    in_order: Vec<((u32, u32), CallTimes)>,
    // Empty as long as rows come in order. It takes the first row that does not, each row behind
    // that, and the rows from before whose place is behind such a row.
    sorted: BTreeMap<(u32, u32), CallTimes>,
}

impl Model for KeyedCalls {
    ghost Value = { List (Key × CallTimes) };

    ghost view = { λ c. c.in_order.items ++ c.sorted.entries };

    ghost invariant = { λ c. IsStrictlySortedBy key_cmp
        (keys_of (c.in_order.items ++ c.sorted.entries)) };
}

/// Moves the calls whose keys are not below a key from the vector to the tree.
fn move_from(
    in_order: &mut Vec<((u32, u32), CallTimes)>,
    sorted: &mut BTreeMap<(u32, u32), CallTimes>,
    key: (u32, u32),
) -> Result<(), TableError>
    requires rises { IsStrictlySortedBy key_cmp
        (keys_of (in_order.old.items ++ sorted.old.entries)) }
    ensures kept { in_order.new.items ++ sorted.new.entries
        ≡ in_order.old.items ++ sorted.old.entries }
    ensures below { OnOk result (AreBelow key in_order.new.items) }
    ensures memory { IfErr result (λ e. e ≡ OutOfMemory) }
{
    while let Some(last) = in_order.last()
        && last.0 >= key
    {
        let (moved, times) = *last;
        sorted.insert(moved, times)?;
        in_order.pop();
    }
    Ok(())
}

impl KeyedCalls {
    /// No call.
    pub fn new(alloc: Global) -> KeyedCalls
        ensures { result ≡ [] }
    {
        KeyedCalls {
            in_order: Vec::new(alloc),
            sorted: BTreeMap::new(alloc),
        }
    }

    /// Puts in the times of a call. False where an earlier call has its key. `OutOfMemory`
    /// where there is no memory for them.
    pub fn insert(&mut self, key: (u32, u32), times: CallTimes) -> Result<bool, TableError>
        ensures fresh { IfOk result (λ b. b ≡ is_none (lookup (is_at (key_cmp key)) self.old)) }
        ensures entries { OnOk result (self.new ≡ insert_entry key_cmp self.old key times) }
        ensures memory { IfErr result (λ e. e ≡ OutOfMemory) }
    {
        move_from(&mut self.in_order, &mut self.sorted, key)?;
        if self.sorted.is_empty() {
            self.in_order.push((key, times))?;
            return Ok(true);
        }
        Ok(self.sorted.insert(key, times)?.is_none())
    }

    /// The keys and times in the order of the keys. `OutOfMemory` where there is no memory
    /// for them.
    pub fn into_entries(self) -> Result<Vec<((u32, u32), CallTimes)>, TableError>
        ensures entries { IfOk result (λ calls. calls.items ≡ self) }
        ensures memory { IfErr result (λ e. e ≡ OutOfMemory) }
    {
        let KeyedCalls { in_order, sorted } = self;
        let mut entries = in_order;
        for (key, times) in sorted.iter() {
            entries.push((*key, *times))?;
        }
        Ok(entries)
    }
}
