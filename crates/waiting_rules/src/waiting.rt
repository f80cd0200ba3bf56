//! Which trains wait at all.

ghost use Rattle.std.specs.Prelude.{◌≡◌, ◌<◌, ◌^◌, ℕ, nat_eq, false, ◌||◌, slice_index_or, List};
ghost use Rattle.std.specs.Prelude.{[], ◌∷◌, ◌++◌, IfOk, OnOk, length};
ghost use Rattle.std.specs.List.{list_any};
ghost use Rattle.mt_base.specs.declared.tables.RuleRow.{RuleRow as ARule};
ghost use Rattle.waiting_rules.specs.Waiting.{names_stop, names_none, flag_at, HasWaiting};
ghost use Rattle.waiting_rules.specs.Waiting.{HasFlags, AreFlags};

use crate::scopes::Connecting;
use crate::stations::station;
use mt_base::memory::OutOfMemory;
use mt_base::numbers::StopNo;
use mt_base::tables::RuleRow;
use std::alloc::Global;
use std::collections::BTreeSet;

/// Whether some rule with a wait above 0 may make trains wait at each location: it names the
/// location or its station, or no stop.
pub(crate) fn flags(
    alloc: Global,
    parents: &[Option<StopNo>],
    rules: &[RuleRow],
) -> Result<Vec<bool>, OutOfMemory>
    requires { length parents.now < 2 ^ 32 }
    ensures { IfOk result (λ v. HasFlags parents.now rules.now v.items) }
{
    let named = named(alloc, parents.len(), rules)?;
    with_stations(alloc, parents, named.as_slice())
}

/// Whether some rule with a wait above 0 names each location, or no stop.
fn named(alloc: Global, count: usize, rules: &[RuleRow]) -> Result<Vec<bool>, OutOfMemory>
    ensures length { IfOk result (λ v. length v.items ≡ count) }
    ensures named { IfOk result (λ v. (stop : ℕ) → stop < count
        → slice_index_or v.items stop false
        ≡ (list_any names_none rules.now || list_any (names_stop stop) rules.now)) }
{
    let mut named = vec![in alloc; some_names_none(rules); count]?;
    mark_named(&mut named, rules);
    Ok(named)
}

/// Whether some rule with a wait above 0 names no stop.
fn some_names_none(rules: &[RuleRow]) -> bool
    ensures { result ≡ list_any names_none rules.now }
{
    rules
        .iter()
        .any(|rule| rule.max_wait > 0 && rule.stop.is_none())
}

/// Marks the locations that rules with a wait above 0 name.
fn mark_named(named: &mut Vec<bool>, rules: &[RuleRow])
    ensures length { length named.new.items ≡ length named.old.items }
    ensures named { (stop : ℕ) → stop < length named.old.items
        → slice_index_or named.new.items stop false
        ≡ (slice_index_or named.old.items stop false || list_any (names_stop stop) rules.now) }
{
    for rule in rules {
        if rule.max_wait > 0 {
            if let Some(stop) = rule.stop {
                mark(named, stop);
            }
        }
    }
}

/// Marks a location, if there is one with this number.
fn mark(named: &mut Vec<bool>, stop: StopNo)
    ensures length { length named.new.items ≡ length named.old.items }
    ensures named { (at : ℕ) → at < length named.old.items → slice_index_or named.new.items at false
        ≡ (slice_index_or named.old.items at false || nat_eq stop at) }
{
    if let Some(flag) = named.get_mut(stop.get() as usize) {
        *flag = true;
    }
}

/// Whether each location or its station is marked.
fn with_stations(
    alloc: Global,
    parents: &[Option<StopNo>],
    named: &[bool],
) -> Result<Vec<bool>, OutOfMemory>
    requires { length named.now < 2 ^ 32 }
    ensures { IfOk result (λ v. AreFlags parents.now named.now v.items) }
{
    let mut flags = Vec::new(alloc);
    for (at, here) in named.iter().enumerate() {
        let station = station(parents, StopNo::new(at as u32));
        flags.push(*here || flag_at(named, station))?;
    }
    Ok(flags)
}

/// Whether a location is marked. One that is not there is taken to be.
pub(crate) fn flag_at(flags: &[bool], stop: StopNo) -> bool
    ensures { result ≡ flag_at flags.now stop }
{
    match flags.get(stop.get() as usize) {
        Some(flag) => *flag,
        None => true,
    }
}

/// The trains that rules with a wait above 0 make wait.
pub(crate) fn waiting(alloc: Global, rules: &[RuleRow]) -> Result<BTreeSet<Connecting>, OutOfMemory>
    ensures { IfOk result (HasWaiting rules.now) }
{
    let mut waiting = BTreeSet::new(alloc);
    for rule in rules {
        add_waiting(&mut waiting, rule)?;
    }
    Ok(waiting)
}

/// Takes in the trains that one more rule makes wait, if its wait is above 0.
fn add_waiting(waiting: &mut BTreeSet<Connecting>, rule: &RuleRow) -> Result<(), OutOfMemory>
    ensures { OnOk result ((rules : List ARule) → HasWaiting rules waiting.old
        → HasWaiting (rules ++ rule.now ∷ []) waiting.new) }
{
    if rule.max_wait > 0 {
        waiting.insert(Connecting {
            route: rule.connecting,
            stop: rule.stop,
        })?;
    }
    Ok(())
}
