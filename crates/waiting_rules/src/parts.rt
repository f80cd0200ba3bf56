//! The part of the first rules that makes the same trains wait.

ghost use Rattle.std.specs.Prelude.{◌≡◌, ◌≤◌, All, length, min, unwrap_or};
ghost use Rattle.waiting_rules.specs.declared.scopes.Connecting.{Connecting as AConnecting};
ghost use Rattle.waiting_rules.specs.Indexed.{AreSorted, IsPart, place_of, scope};

use crate::scopes::Scope;
use mt_base::numbers::RouteNo;

/// Where the first rules for the same connecting route and stop stand among all.
#[derive(Clone, Copy, Debug)]
pub(crate) struct Part {
    pub(crate) start: u32,
    pub(crate) end: u32,
}

/// The earlier of a place and that of the first rule of a part that gives this field for the
/// feeder's route, if there is one.
pub(crate) fn earlier(
    rules: &[(Scope, u32)],
    part: &Part,
    feeder: &Option<RouteNo>,
    place: usize,
) -> usize
    requires order { part.now.start ≤ part.now.end }
    requires within { part.now.end ≤ length rules.now }
    ensures { (connecting : AConnecting) → AreSorted rules.now
        → IsPart rules.now connecting part.now
        → result ≡ min place
        (unwrap_or (place_of rules.now (scope connecting feeder.now)) place) }
{
    match search(&rules[part.start as usize..part.end as usize], feeder) {
        Some(first) => place.min(first as usize),
        None => place,
    }
}

/// The place in the file of the rule with this field for the feeder's route, among rules that make
/// the same trains wait. None exactly where there is none.
fn search(rules: &[(Scope, u32)], feeder: &Option<RouteNo>) -> Option<u32>
    ensures { (connecting : AConnecting) → AreSorted rules.now
        → All (λ rule. rule.0.connecting ≡ connecting) rules.now
        → result ≡ place_of rules.now (scope connecting feeder.now) }
{
    match rules.binary_search_by(|rule| rule.0.feeder.cmp(feeder)) {
        Ok(at) => Some(rules[at].1),
        Err(_) => None,
    }
}
