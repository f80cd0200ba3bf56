//! Where the first rules that make the same trains wait stand among all.

ghost use Rattle.std.specs.Prelude.{◌≡◌, ◌<◌, ◌^◌, List, [], ◌∷◌, ◌++◌, IfOk, OnOk, length};
ghost use Rattle.mt_base.specs.declared.tables.RuleRow.{RuleRow as ARule};
ghost use Rattle.waiting_rules.specs.Indexed.{AreFirst, AreSorted, IsPart};
ghost use Rattle.waiting_rules.specs.Bounded.{HasBounds, HasSome, AreInOrder};
ghost use Rattle.waiting_rules.specs.Waiting.{HasWaiting};

use crate::parts::Part;
use crate::scopes::{Connecting, Scope};
use crate::waiting::waiting;
use mt_base::memory::OutOfMemory;
use mt_base::tables::RuleRow;
use std::alloc::Global;
use std::collections::{BTreeMap, BTreeSet};

/// Where the first rules for the same connecting route and stop start and end, and whether some
/// rule of the file for these has a wait above 0.
#[derive(Clone, Copy, Debug)]
pub(crate) struct Bounds {
    pub(crate) part: Part,
    pub(crate) waits: bool,
}

/// The bounds of the first rules, in the order of the trains that they make wait.
pub(crate) fn all_bounds(
    alloc: Global,
    rules: &[RuleRow],
    first_rules: &[(Scope, u32)],
) -> Result<Vec<(Connecting, Bounds)>, OutOfMemory>
    requires first { AreFirst rules.now first_rules.now }
    requires few { length first_rules.now < 2 ^ 32 }
    ensures bounds { IfOk result (λ v. HasBounds rules.now first_rules.now v.items) }
    ensures order { IfOk result (λ v. AreInOrder v.items) }
{
    let bounds = by_trains(alloc, rules, first_rules)?;
    in_order(alloc, bounds)
}

/// The bounds in the order of trains.
fn in_order(
    alloc: Global,
    bounds: BTreeMap<Connecting, Bounds>,
) -> Result<Vec<(Connecting, Bounds)>, OutOfMemory>
    ensures items { IfOk result (λ v. v.items ≡ bounds.entries) }
    ensures order { AreInOrder bounds.entries }
{
    bounds.into_iter().collect(alloc)
}

/// The bounds of the first rules, by the trains that they make wait.
fn by_trains(
    alloc: Global,
    rules: &[RuleRow],
    first_rules: &[(Scope, u32)],
) -> Result<BTreeMap<Connecting, Bounds>, OutOfMemory>
    requires first { AreFirst rules.now first_rules.now }
    requires few { length first_rules.now < 2 ^ 32 }
    ensures { IfOk result (λ m. HasBounds rules.now first_rules.now m.entries) }
{
    let waiting = waiting(alloc, rules)?;
    let mut bounds = BTreeMap::new(alloc);
    for rule in rules {
        add_bounds(&mut bounds, first_rules, &waiting, rule)?;
    }
    Ok(bounds)
}

/// Takes in the bounds for the trains that one more rule makes wait, unless they are there.
fn add_bounds(
    bounds: &mut BTreeMap<Connecting, Bounds>,
    first_rules: &[(Scope, u32)],
    waiting: &BTreeSet<Connecting>,
    rule: &RuleRow,
) -> Result<(), OutOfMemory>
    requires sorted { AreSorted first_rules.now }
    requires few { length first_rules.now < 2 ^ 32 }
    ensures { OnOk result ((all rules : List ARule) → HasWaiting all waiting.now
        → HasSome all first_rules.now rules bounds.old
        → HasSome all first_rules.now (rules ++ rule.now ∷ []) bounds.new) }
{
    let connecting = Connecting {
        route: rule.connecting,
        stop: rule.stop,
    };
    if !bounds.contains_key(&connecting) {
        let part = bounds_of(first_rules, &connecting, waiting.contains(&connecting));
        bounds.insert(connecting, part)?;
    }
    Ok(())
}

/// The bounds of the first rules that make these trains wait.
fn bounds_of(first_rules: &[(Scope, u32)], connecting: &Connecting, waits: bool) -> Bounds
    requires sorted { AreSorted first_rules.now }
    requires few { length first_rules.now < 2 ^ 32 }
    ensures part { IsPart first_rules.now connecting.now result.part }
    ensures waits { result.waits ≡ waits }
{
    let start = first_rules.partition_point(|rule| rule.0.connecting.cmp(connecting).is_lt());
    let end = first_rules.partition_point(|rule| rule.0.connecting.cmp(connecting).is_le());
    Bounds {
        part: Part {
            start: start as u32,
            end: end as u32,
        },
        waits,
    }
}
