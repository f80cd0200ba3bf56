//! A scan of the departures in the order of their times.

ghost use Rattle.std.specs.Prelude.{◌≡◌, ◌≤◌, ◌<◌, ◌^◌, ◌-◌, IfSome, All, length};
ghost use Rattle.conn_scan.specs.Begun.{begun};
ghost use Rattle.conn_scan.specs.Scanned.{arrived, boarding, departed, is_first_arrival, rode, scanned, HasRoomFor, HasSameRoom, IsWithin};
ghost use Rattle.conn_scan.specs.Stations.{HasStations};
ghost use Rattle.conn_scan.specs.Stretches.{leaving_from};

use crate::known::{Asked, Ending, Known, begin, ends_there, is_before, is_there_by};
use crate::openings::lower;
use crate::stop_rides::Stretch;
use crate::stop_times::StopTimes;
use change_times::Changes;
use dep_order::{DepartureOrder, Leaving};

/// The number of the departure where passengers boarded who ride on this one: those who are aboard
/// stay aboard, and else they board here if they can. None where nobody rides on it.
#[inline(always)]
pub fn boarding(d: &Leaving, known: &Known) -> Option<u32>
    requires number { d.now.number < length known.now.aboard }
    requires stop { d.now.stop < length known.now.openings.times }
    ensures boarded { result ≡ boarding d.now known.now }
    ensures there { IfSome result (λ b. b < length known.now.aboard) }
    ensures few { length known.now.aboard ≤ 2 ^ 23 }
{
    let boarded = known.aboard.get(d.number);
    if boarded.is_some() {
        return boarded;
    }
    if known.openings.times.is_by(d.stop, d.time) {
        Some(d.number)
    } else {
        None
    }
}

/// Whether passengers may alight where the train of a departure arrives next, at one of so many
/// stops, and none has arrived there by then.
#[inline(always)]
fn is_first_arrival(stops: u32, d: &Leaving, known: &Known) -> bool
    requires { stops ≤ length known.now.held }
    ensures { result ≡ is_first_arrival stops d.now known.now }
{
    d.to.get() < stops && !known.held.is_by(d.to, d.arrival)
}

/// Notes the arrival of a ride where the train of a departure arrives next.
#[inline(never)]
fn arrive(changes: &Changes, asked: &Asked, d: &Leaving, ride: &Stretch, known: &mut Known)
    requires stations { HasStations changes.now asked.now }
    requires room { HasRoomFor (length changes.now.stops) 0 known.old }
    requires to { d.now.to < length changes.now.stops }
    requires number { ride.now.first < 2 ^ 32 - 1 }
    ensures { known.new ≡ arrived changes.now asked.now.query d.now ride.now known.old }
{
    known.held.set(d.to, d.arrival);
    let behind = Some(*ride);
    lower(&mut known.openings, changes.reach(d.to), d.arrival, &behind);
    if ends_there(changes, asked, d.to) && is_before(d.arrival, &known.best) {
        known.best = Some(Ending {
            time: d.arrival,
            ride: *ride,
        });
    }
}

/// Takes those who boarded at the departure of number `boarded` from this departure to the next
/// arrival.
#[inline(always)]
fn ride(changes: &Changes, asked: &Asked, boarded: u32, d: &Leaving, known: &mut Known)
    requires stations { HasStations changes.now asked.now }
    requires room { HasRoomFor (length changes.now.stops) 0 known.old }
    requires next { d.now.next < length known.old.aboard }
    requires boarded { boarded < length known.old.aboard }
    requires few { length known.old.aboard ≤ 2 ^ 23 }
    ensures { known.new ≡ rode changes.now asked.now.query boarded d.now known.old }
{
    known.aboard.set(d.next, boarded);
    if is_first_arrival(asked.stops, d, known) {
        let stretch = Stretch {
            first: boarded,
            last: d.number,
        };
        arrive(changes, asked, d, &stretch, known);
    }
}

/// Scans a departure.
#[inline(always)]
fn depart(changes: &Changes, asked: &Asked, numbers: u32, d: &Leaving, known: &mut Known)
    requires stations { HasStations changes.now asked.now }
    requires room { HasRoomFor (length changes.now.stops) numbers known.old }
    requires within { IsWithin (length changes.now.stops) numbers d.now }
    ensures { known.new ≡ departed changes.now asked.now.query d.now known.old }
{
    if let Some(boarded) = boarding(d, known) {
        ride(changes, asked, boarded, d, known);
    }
}

/// Scans the departures from the query's time on, up to the first that is not before the best
/// arrival.
fn scan(order: &DepartureOrder, changes: &Changes, asked: &Asked, known: &mut Known)
    requires stations { HasStations changes.now asked.now }
    requires room { HasRoomFor (length changes.now.stops) (length order.now.entries) known.old }
    requires within { All (IsWithin (length changes.now.stops) (length order.now.entries))
        (leaving_from order.now asked.now.query.time) }
    ensures scanned { known.new ≡ scanned changes.now asked.now.query
        (leaving_from order.now asked.now.query.time) known.old }
    ensures room { HasSameRoom known.old known.new }
{
    let numbers = order.numbers();
    for d in order.departures_from(asked.query.time) {
        if is_there_by(&known.best, d.time) {
            return;
        }
        depart(changes, asked, numbers, &d, known);
    }
}

/// Searches for the earliest arrival of a query.
pub(crate) fn search(order: &DepartureOrder, changes: &Changes, asked: &Asked, known: &mut Known)
    requires stations { HasStations changes.now asked.now }
    requires room { HasRoomFor (length changes.now.stops) (length order.now.entries) known.old }
    requires within { All (IsWithin (length changes.now.stops) (length order.now.entries))
        (leaving_from order.now asked.now.query.time) }
    ensures scanned { known.new ≡ scanned changes.now asked.now.query
        (leaving_from order.now asked.now.query.time)
        (begun changes.now asked.now.query known.old) }
    ensures room { HasSameRoom known.old known.new }
{
    begin(changes, asked, known);
    scan(order, changes, asked, known);
}
