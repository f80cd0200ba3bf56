//! What a waiting rule is for.

ghost use Rattle.std.specs.Prelude.{◌≡◌, ◌≤◌, ◌^◌};
ghost use Rattle.waiting_rules.specs.Scopes.{row_of};

use mt_base::numbers::{RouteNo, StopNo};

/// The trains that a waiting rule makes wait: a connecting route and a stop. A field that the rule
/// leaves empty is None.
#[derive(Clone, Copy, Debug, PartialEq, Eq, PartialOrd, Ord)]
pub(crate) struct Connecting {
    pub(crate) route: Option<RouteNo>,
    pub(crate) stop: Option<StopNo>,
}

/// What a waiting rule is for: the trains that it makes wait, and a feeder's route, which is None
/// where the rule leaves it empty.
#[derive(Clone, Copy, Debug, PartialEq, Eq, PartialOrd, Ord)]
pub(crate) struct Scope {
    pub(crate) connecting: Connecting,
    pub(crate) feeder: Option<RouteNo>,
}

/// The row of the rules with this field for the connecting route: the first for all routes, and
/// for each route the one behind its number.
pub(crate) fn row_of(route: &Option<RouteNo>) -> usize
    ensures row { result ≡ row_of route.now }
    ensures small { result ≤ 2 ^ 32 }
{
    match route {
        Some(route) => route.get() as usize + 1,
        None => 0,
    }
}
