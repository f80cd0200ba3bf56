//! The first rule of each scope.

ghost use Rattle.std.specs.Prelude.{◌≡◌, ◌<◌, ◌≤◌, ◌+◌, ◌^◌, List, [], ◌∷◌, ◌++◌, length};
ghost use Rattle.std.specs.Prelude.{IfOk, OnOk};
ghost use Rattle.mt_base.specs.declared.tables.RuleRow.{RuleRow as ARule};
ghost use Rattle.waiting_rules.specs.Indexed.{HasPlaces, AreFirst, AreSorted};

use crate::scopes::{Connecting, Scope};
use mt_base::memory::OutOfMemory;
use mt_base::tables::RuleRow;
use std::alloc::Global;
use std::collections::BTreeMap;

/// The first rule of each scope with its place in the file, in the order of scopes.
pub(crate) fn first_rules(
    alloc: Global,
    rules: &[RuleRow],
) -> Result<Vec<(Scope, u32)>, OutOfMemory>
    requires { length rules.now < 2 ^ 32 }
    ensures first { IfOk result (λ v. AreFirst rules.now v.items) }
    ensures few { IfOk result (λ v. length v.items < 2 ^ 32) }
{
    let places = places(alloc, rules)?;
    in_order(alloc, places)
}

/// The places in the order of scopes.
fn in_order(alloc: Global, places: BTreeMap<Scope, u32>) -> Result<Vec<(Scope, u32)>, OutOfMemory>
    ensures items { IfOk result (λ v. v.items ≡ places.entries) }
    ensures sorted { AreSorted places.entries }
{
    places.into_iter().collect(alloc)
}

/// The place of the first rule of each scope.
fn places(alloc: Global, rules: &[RuleRow]) -> Result<BTreeMap<Scope, u32>, OutOfMemory>
    requires { length rules.now < 2 ^ 32 }
    ensures places { IfOk result (λ m. HasPlaces rules.now m.entries) }
    ensures few { IfOk result (λ m. length m.entries ≤ length rules.now) }
{
    let mut places = BTreeMap::new(alloc);
    for (place, rule) in rules.iter().enumerate() {
        add_place(&mut places, rule, place as u32)?;
    }
    Ok(places)
}

/// Takes in the place of one more rule, unless an earlier rule has its scope.
fn add_place(
    places: &mut BTreeMap<Scope, u32>,
    rule: &RuleRow,
    place: u32,
) -> Result<(), OutOfMemory>
    ensures places { OnOk result ((rules : List ARule) → place ≡ length rules
        → HasPlaces rules places.old.entries
        → HasPlaces (rules ++ rule.now ∷ []) places.new.entries) }
    ensures few { OnOk result (length places.new.entries ≤ length places.old.entries + 1) }
{
    let scope = Scope {
        connecting: Connecting {
            route: rule.connecting,
            stop: rule.stop,
        },
        feeder: rule.feeder,
    };
    if !places.contains_key(&scope) {
        places.insert(scope, place)?;
    }
    Ok(())
}
