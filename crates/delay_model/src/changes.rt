//! Change times and waits, looked up row by row.

ghost use Rattle.std.specs.Prelude.{◌≡◌, find};
ghost use Rattle.delay_model.specs.Changes.{kind_of, is_stop_or_station, station, is_looked_at, is_row_of, first_row, deciding_row, change_by, change_without_row, change};
ghost use Rattle.delay_model.specs.Waits.{is_empty_or, is_rule_for, wait};

use crate::network::Network;
use mt_base::numbers::{RouteNo, StopNo};
use mt_base::places::PlaceKind;
use mt_base::tables::{RuleRow, StopRow, TransferRow};

fn kind_of(stops: &[StopRow], a: StopNo) -> Option<PlaceKind>
    ensures { result ≡ kind_of stops.now a }
{
    match stops.get(a.get() as usize) {
        None => None,
        Some(row) => Some(row.kind),
    }
}

fn is_stop_or_station(stops: &[StopRow], a: StopNo) -> bool
    ensures { result ≡ is_stop_or_station stops.now a }
{
    match kind_of(stops, a) {
        None => false,
        Some(kind) => kind.is_platform_or_station(),
    }
}

/// The station of a place: of a platform its parent, of any other location itself.
pub fn station(stops: &[StopRow], a: StopNo) -> StopNo
    ensures { result ≡ station stops.now a }
{
    match stops.get(a.get() as usize) {
        None => a,
        Some(row) => {
            if row.kind.is_platform() {
                row.parent.unwrap_or(a)
            } else {
                a
            }
        }
    }
}

fn is_row_of(stops: &[StopRow], a: StopNo, b: StopNo, row: &TransferRow) -> bool
    ensures { result ≡ is_row_of stops.now a b row.now }
{
    row.from_stop == a
        && row.to_stop == b
        && row.kind <= 3
        && is_stop_or_station(stops, row.from_stop)
        && is_stop_or_station(stops, row.to_stop)
}

fn first_row(stops: &[StopRow], rows: &[TransferRow], a: StopNo, b: StopNo) -> Option<TransferRow>
    ensures { result ≡ first_row stops.now rows.now a b }
{
    for row in rows {
        if is_row_of(stops, a, b, row) {
            return Some(*row);
        }
    }
    None
}

fn deciding_row(
    stops: &[StopRow],
    rows: &[TransferRow],
    a: StopNo,
    b: StopNo,
) -> Option<TransferRow>
    ensures { result ≡ deciding_row stops.now rows.now a b }
{
    let (at_a, at_b) = (station(stops, a), station(stops, b));
    first_row(stops, rows, a, b)
        .or(first_row(stops, rows, a, at_b))
        .or(first_row(stops, rows, at_a, b))
        .or(first_row(stops, rows, at_a, at_b))
}

fn change_by(default: u32, row: &TransferRow) -> Option<u32>
    ensures { result ≡ change_by default row.now }
{
    match row.kind {
        3 => None,
        2 => Some(row.seconds.map_or(default, |seconds| seconds.max(1))),
        _ => Some(default),
    }
}

#[tactic(auto, unfolding(crate::specs::Changes::change))]
/// The seconds that a change from place `a` to place `b` takes. None where it is not possible.
pub fn change(nw: &Network, a: StopNo, b: StopNo) -> Option<u32>
    ensures { result ≡ change nw.now.stops nw.now.transfers nw.now.opts.change a b }
{
    let stops = nw.stops.as_slice();
    match deciding_row(stops, nw.transfers.as_slice(), a, b) {
        Some(row) => change_by(nw.opts.change, &row),
        None => (station(stops, a) == station(stops, b)).then_some(nw.opts.change),
    }
}

fn is_route(field: Option<RouteNo>, route: RouteNo) -> bool
    ensures { result ≡ is_empty_or field route }
{
    match field {
        None => true,
        Some(named) => named == route,
    }
}

fn is_stop(field: Option<StopNo>, stop: StopNo) -> bool
    ensures { result ≡ is_empty_or field stop }
{
    match field {
        None => true,
        Some(named) => named == stop,
    }
}

fn is_rule_for(
    stops: &[StopRow],
    feeder: RouteNo,
    connecting: RouteNo,
    stop: StopNo,
    rule: &RuleRow,
) -> bool
    ensures { result ≡ is_rule_for stops.now feeder connecting stop rule.now }
{
    is_route(rule.feeder, feeder)
        && is_route(rule.connecting, connecting)
        && (is_stop(rule.stop, stop) || is_stop(rule.stop, station(stops, stop)))
}

fn first_rule(
    stops: &[StopRow],
    rules: &[RuleRow],
    feeder: RouteNo,
    connecting: RouteNo,
    stop: StopNo,
) -> Option<RuleRow>
    ensures { result ≡ find (is_rule_for stops.now feeder connecting stop) rules.now }
{
    for rule in rules {
        if is_rule_for(stops, feeder, connecting, stop, rule) {
            return Some(*rule);
        }
    }
    None
}

#[tactic(auto, unfolding(crate::specs::Waits::wait))]
/// How many seconds a train of the route `connecting` waits at `stop` for one of the route
/// `feeder`.
pub fn wait(nw: &Network, feeder: RouteNo, connecting: RouteNo, stop: StopNo) -> u32
    ensures { result ≡ wait nw.now.stops nw.now.rules feeder connecting stop }
{
    match first_rule(
        nw.stops.as_slice(),
        nw.rules.as_slice(),
        feeder,
        connecting,
        stop,
    ) {
        Some(rule) => rule.max_wait,
        None => 0,
    }
}
