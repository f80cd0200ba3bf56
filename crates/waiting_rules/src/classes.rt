//! The waits of trains of one route at one stop.

ghost use Rattle.std.specs.Prelude.{◌≡◌, ◌≤◌, ℕ, List, All, map, length, slice_get, min};
ghost use Rattle.std.specs.Option.{option_map_or};
ghost use Rattle.std.specs.List.{list_any, position_or_len};
ghost use Rattle.waiting_rules.specs.Bounded.{HasBounds, ArePartsOf, waits_among};
ghost use Rattle.waiting_rules.specs.declared.scopes.Connecting.{Connecting as AConnecting};
ghost use Rattle.waiting_rules.specs.declared.scopes.Scope.{Scope as AScope};
ghost use Rattle.mt_base.specs.declared.tables.RuleRow.{RuleRow as ARule};
ghost use Rattle.mt_base.specs.declared.tables.StopRow.{StopRow as AStopRow};
ghost use Rattle.delay_model.specs.Waits.{wait};
ghost use Rattle.waiting_rules.specs.WaitTable.{parent_station, station_in};
ghost use Rattle.waiting_rules.specs.Scopes.{all_connecting};
ghost use Rattle.waiting_rules.specs.Indexed.{AreFirst, IsWithin, is_in};

use crate::parts::{Part, earlier};
use crate::routes::{RouteBounds, bounds_at};
use crate::scopes::Scope;
use mt_base::numbers::{RouteNo, StopNo};
use mt_base::tables::RuleRow;
use std::marker::Model;

/// What a feed says of waits.
#[derive(Drop)]
pub(crate) struct Rows {
    pub(crate) parents: Vec<Option<StopNo>>,
    pub(crate) rules: Vec<RuleRow>,
    /// The first rule of each scope with its place in the file, in the order of scopes.
    pub(crate) first_rules: Vec<(Scope, u32)>,
}

/// The trains of one route at one stop as a class: they all wait alike, as long as the route of the
/// late feeder tells. It is seen as the parent stations of the locations and the rows of
/// `waiting_rules.txt`, with the route and the stop.
#[derive(Drop)]
pub struct WaitClass<'a> {
    rows: &'a Rows,
    route: RouteNo,
    stop: StopNo,
    /// The place in the file of the first rule for these trains that leaves the feeder's route
    /// empty, so that it is for all feeders; the count of rules where there is none.
    for_all: usize,
    /// Where the first rules for these trains stand, by the six ways to give their route and stop.
    parts: [Part; 6],
}

impl<'a> Model for WaitClass<'a> {
    ghost use Rattle.waiting_rules.specs.WaitTable.{WaitsAt};

    ghost Value = { WaitsAt };

    ghost view = { λ a. record {
      table = record { parents = a.rows.now.parents.items; rules = a.rows.now.rules.items };
      connecting = a.route;
      stop = a.stop;
    } };

    ghost use Rattle.waiting_rules.specs.InsideClass.{IsClass};

    ghost invariant = { IsClass };
}

impl<'a> WaitClass<'a> {
    /// The waits of trains of a route at a stop, by the parts of the first rules that make them
    /// wait.
    pub(crate) fn new(
        rows: &'a Rows,
        route: RouteNo,
        stop: StopNo,
        parts: [Part; 6],
    ) -> WaitClass<'a>
        requires longest { All (λ (rule : ARule). rule.max_wait ≤ 86400) rows.now.rules.items }
        requires first_rules { AreFirst rows.now.rules.items rows.now.first_rules.items }
        requires parts { ArePartsOf (all_connecting route stop
            (station_in rows.now.parents.items stop)) rows.now.first_rules.items parts }
        ensures { result ≡ record {
          table = record { parents = rows.now.parents.items; rules = rows.now.rules.items };
          connecting = route;
          stop = stop;
        } }
    {
        let first_rules = rows.first_rules.as_slice();
        WaitClass {
            rows,
            route,
            stop,
            for_all: first(first_rules, &parts, &None, rows.rules.len()),
            parts,
        }
    }

    /// How many seconds these trains wait for a late train of the route `feeder`: at most
    /// `max_wait` of the first rule that fits, or 0 where there is none.
    pub fn wait(&self, feeder: RouteNo) -> u32
        ensures wait { (stops : List AStopRow) → map parent_station stops ≡ self.now.table.parents
            → result ≡ wait stops self.now.table.rules feeder self.now.connecting self.now.stop }
        ensures longest { result ≤ 86400 }
    {
        let first_rules = self.rows.first_rules.as_slice();
        let place = first(first_rules, &self.parts, &Some(feeder), self.for_all);
        wait_at(self.rows.rules.as_slice(), place)
    }
}

/// The parts of the first rules that make trains of a route wait at a stop or its station, and
/// whether some rule with a wait above 0 is for these trains.
pub(crate) fn parts(
    bounds: &RouteBounds,
    route: RouteNo,
    stop: StopNo,
    station: StopNo,
) -> ([Part; 6], bool)
    ensures parts { (rules : List ARule) (places : List (AScope × ℕ))
        → HasBounds rules places bounds.now
        → ArePartsOf (all_connecting route stop station) places result.0 }
    ensures waits { (rules : List ARule) (places : List (AScope × ℕ))
        → HasBounds rules places bounds.now
        → result.1 ≡ list_any (waits_among rules) (all_connecting route stop station) }
{
    let own = bounds.of(Some(route));
    let any = bounds.of(None);
    let stop_own = bounds_at(own, Some(stop));
    let station_own = bounds_at(own, Some(station));
    let all_own = bounds_at(own, None);
    let stop_any = bounds_at(any, Some(stop));
    let station_any = bounds_at(any, Some(station));
    let all_any = bounds_at(any, None);
    let parts = [
        stop_own.part,
        station_own.part,
        all_own.part,
        stop_any.part,
        station_any.part,
        all_any.part,
    ];
    let waits_own = stop_own.waits | station_own.waits | all_own.waits;
    let waits_any = stop_any.waits | station_any.waits | all_any.waits;
    (parts, waits_own | waits_any)
}

/// The earliest of a place and those of the first rules of these parts that give this field for
/// the feeder's route.
fn first(
    first_rules: &[(Scope, u32)],
    parts: &[Part; 6],
    feeder: &Option<RouteNo>,
    place: usize,
) -> usize
    requires { All (IsWithin (length first_rules.now)) parts.now }
    ensures { (rules : List ARule) (trains : List AConnecting) → AreFirst rules first_rules.now
        → ArePartsOf trains first_rules.now parts.now → place ≤ length rules
        → result ≡ min place (position_or_len (is_in trains feeder.now) rules) }
{
    let mut first = place;
    for part in parts {
        first = earlier(first_rules, part, feeder, first);
    }
    first
}

/// The longest wait that the rule at a place allows, or 0 where there is none.
fn wait_at(rules: &[RuleRow], place: usize) -> u32
    ensures { result ≡ option_map_or (λ (rule : ARule). rule.max_wait)
        (slice_get rules.now place) 0 }
{
    rules.get(place).map_or(0, |rule| rule.max_wait)
}
