//! The board of a station: its next departures, and where their trains go.

ghost use Rattle.std.specs.Prelude.{◌≡◌, IfOk, IsTrue};
ghost use Rattle.board_laws.specs.Boards.{board};
ghost use Rattle.train_nodes.specs.Calls.{has_call};
ghost use Rattle.timetable.specs.Onward.{IsDepartureOrder};
ghost use Rattle.delay_model.specs.Changes.{station};
ghost use Rattle.departures.specs.Rows.{AreStopsOf, goes_from, is_of_station, row_at};

use board_laws::rows::BoardRow;
use dep_order::{DepartureOrder, Leaving};
use mt_base::keys::{Key, Node};
use mt_base::memory::OutOfMemory;
use mt_base::numbers::{StopNo, Time};
use std::alloc::Global;
use timetable::Timetable;
use train_nodes::Trains;

/// Where a train goes from a departure: the stop of the last call that it reaches from there.
fn goes_to(trains: &Trains, from: &Key) -> StopNo
    requires { IsTrue (has_call trains.now from.now.train from.now.label) }
    ensures { result ≡ goes_from trains.now from.now }
{
    trains.labels_are_distinct();
    let train = from.train;
    let mut label = from.label;
    let mut to = trains.stop(train, label);
    while let Some(next) = trains.next_call(train, label) {
        if !trains.live(Node::arrival(train, next)) {
            return to;
        }
        to = trains.stop(train, next);
        if !trains.live(Node::departure(train, next)) {
            return to;
        }
        label = next;
    }
    to
}

/// A station, and the numbers between which its stops lie, both included: none lies between them
/// where the first is past the last.
#[derive(Clone, Copy)]
struct StationStops {
    station: StopNo,
    first: u32,
    last: u32,
}

/// The station of a place and between which numbers its stops lie, by one pass over all stops.
fn stops_of_station(t: &Timetable, place: StopNo) -> StationStops
    ensures of_place { result.station ≡ station t.now.network.stops place }
    ensures stops { AreStopsOf t.now.network result }
{
    let changes = t.graph().changes();
    let station = changes.station(place);
    let mut first = u32::MAX;
    let mut last = 0;
    for number in 0..changes.stops() {
        if station == changes.station(StopNo::new(number)) {
            first = first.min(number);
            last = number;
        }
    }
    StationStops {
        station,
        first,
        last,
    }
}

/// Whether a stop is one of a station. The number past all stops is of none. The station of a stop
/// is looked up only where the stop lies between those of the station.
#[inline(always)]
fn is_of_station(t: &Timetable, here: &StationStops, stop: StopNo) -> bool
    requires { AreStopsOf t.now.network here.now }
    ensures { result ≡ is_of_station t.now.network here.now.station stop }
{
    here.first <= stop.get()
        && stop.get() <= here.last
        && here.station == t.graph().changes().station(stop)
}

/// The row of a departure as a scan of the order comes to it. None where passengers may not board
/// it at the station.
#[inline(always)]
fn row_at(
    t: &Timetable,
    order: &DepartureOrder,
    here: &StationStops,
    d: &Leaving,
) -> Option<BoardRow>
    requires order { IsDepartureOrder t.now.network t.now.state order.now }
    requires stops { AreStopsOf t.now.network here.now }
    ensures { result ≡ row_at t.now.network t.now.state order.now here.now.station d.now }
{
    t.state_is_valid();
    if !is_of_station(t, here, d.stop) {
        return None;
    }
    let event = order.departure(d.number)?.key;
    Some(BoardRow {
        event,
        time: d.time,
        stop: d.stop,
        to: goes_to(t.graph().trains(), &event),
    })
}

/// The first departures, at most so many, of the station of a place that are not before a time,
/// which is in seconds from the base of day 0: live departures where passengers may board, by their
/// times and keys. `OutOfMemory` where there is no memory.
pub fn board(
    alloc: Global,
    t: &Timetable,
    place: StopNo,
    since: Time,
    most: u32,
) -> Result<Vec<BoardRow>, OutOfMemory>
    ensures { IfOk result (λ rows. rows.items ≡ board t.now.network t.now.state place since most) }
{
    t.state_is_valid();
    t.calls_are_at_stops();
    let order = t.departures();
    order.departures_are_in_order();
    let here = stops_of_station(t, place);
    let mut rows = Vec::new(alloc);
    for d in order.departures_from(since) {
        if rows.len() == most as usize {
            return Ok(rows);
        }
        if let Some(row) = row_at(t, order, &here, &d) {
            rows.push(row)?;
        }
    }
    Ok(rows)
}
