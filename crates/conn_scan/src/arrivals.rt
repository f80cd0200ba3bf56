//! Whether among stops that are reached no arrival is missing.

ghost use Rattle.std.specs.Prelude.{◌≡◌, ◌↔◌, ◌≤◌, ◌<◌, ◌&&◌, All, IfSome, IsTrue, is_some, length};
ghost use Rattle.std.specs.Option.{option_map_or};
ghost use Rattle.journey_laws.specs.Certificates.{AreEarlyStops, time_in};
ghost use Rattle.journey_laws.specs.Checked.{is_early};
ghost use Rattle.journey_laws.specs.Reached.{HasArrivals};
ghost use Rattle.conn_scan.specs.Arrivals.{first_time, has_all, is_lacking, noted, noted_one};
ghost use Rattle.conn_scan.specs.Begun.{begun};
ghost use Rattle.conn_scan.specs.Scanned.{HasRoomFor, HasSameRoom, IsWithin, stayed};
ghost use Rattle.conn_scan.specs.Stations.{HasStations};
ghost use Rattle.conn_scan.specs.Stretches.{leaving_from};

use crate::earliest_arrival::Scratch;
use crate::known::{Asked, Known, ask, begin};
use crate::openings::lower;
use crate::scan::boarding;
use crate::stop_rides::Stretch;
use change_times::Changes;
use dep_order::{DepartureOrder, Leaving};
use mt_base::certificates::Reach;
use mt_base::journeys::Query;
use mt_base::numbers::Time;
use timetable::Timetable;

/// Notes that a stop is reached.
fn note_one(changes: &Changes, x: &Reach, known: &mut Known)
    requires room { HasRoomFor (length changes.now.stops) 0 known.old }
    requires stop { x.now.stop < length changes.now.stops }
    ensures noted { known.new ≡ noted_one changes.now x.now known.old }
    ensures room { HasSameRoom known.old known.new }
{
    let straight: Option<Stretch> = None;
    known.held.set(x.stop, x.time);
    lower(
        &mut known.openings,
        changes.reach(x.stop),
        x.time,
        &straight,
    );
}

/// Notes that these stops are reached.
fn note(changes: &Changes, reached: &[Reach], known: &mut Known)
    requires room { HasRoomFor (length changes.now.stops) 0 known.old }
    requires stops { All (λ x. x.stop < length changes.now.stops) reached.now }
    ensures noted { known.new ≡ noted changes.now reached.now known.old }
    ensures room { HasSameRoom known.old known.new }
{
    for x in reached {
        note_one(changes, x, known);
    }
}

/// The least of a time and those with which these stops are reached.
fn first_time(time: Time, reached: &[Reach]) -> Time
    ensures { result ≡ first_time time reached.now }
{
    let mut first = time;
    for x in reached {
        if x.time.seconds() < first.seconds() {
            first = x.time;
        }
    }
    first
}

/// Whether a time is before the best arrival. Each is where there is none.
#[inline]
fn is_early(best: &Option<Time>, time: Time) -> bool
    ensures { result ≡ is_early best.now time }
{
    match best {
        Some(at) => time.seconds() < at.seconds(),
        None => true,
    }
}

/// Whether passengers may alight where the train of a departure arrives next, that is before the
/// best arrival, and nobody is held to be there by then.
#[inline]
fn is_lacking(changes: &Changes, best: &Option<Time>, d: &Leaving, known: &Known) -> bool
    requires { length changes.now.stops ≤ length known.now.held }
    ensures { result ≡ is_lacking (length changes.now.stops) best.now d.now known.now.held }
{
    d.to.get() < changes.stops() && is_early(best, d.arrival) && !known.held.is_by(d.to, d.arrival)
}

/// Lets those stay aboard who boarded at the departure of number `boarded` and ride on this one.
#[inline]
fn stay(boarded: Option<u32>, d: &Leaving, known: &mut Known)
    requires next { d.now.next < length known.old.aboard }
    requires boarded { IfSome boarded (λ b. b < length known.old.aboard) }
    ensures { known.new ≡ option_map_or (λ b. stayed b d.now known.old) boarded known.old }
{
    if let Some(first) = boarded {
        known.aboard.set(d.next, first);
    }
}

/// Whether no arrival behind the departures from a time on is missing, up to the first that is not
/// before the best arrival.
fn has_all(
    order: &DepartureOrder,
    changes: &Changes,
    best: &Option<Time>,
    from: Time,
    known: &mut Known,
) -> bool
    requires room { HasRoomFor (length changes.now.stops) (length order.now.entries) known.old }
    requires within { All (IsWithin (length changes.now.stops) (length order.now.entries))
        (leaving_from order.now from) }
    ensures all { result ≡ has_all (length changes.now.stops) best.now
        (leaving_from order.now from) known.old }
    ensures room { HasSameRoom known.old known.new }
{
    for d in order.departures_from(from) {
        if !is_early(best, d.time) {
            return true;
        }
        let boarded = boarding(&d, known);
        if boarded.is_some() && is_lacking(changes, best, &d, known) {
            return false;
        }
        stay(boarded, &d, known);
    }
    true
}

/// Whether among these stops no arrival is missing of passengers of a query.
pub(crate) fn are_all_reached(
    order: &DepartureOrder,
    changes: &Changes,
    asked: &Asked,
    best: &Option<Time>,
    reached: &[Reach],
    known: &mut Known,
) -> bool
    requires stations { HasStations changes.now asked.now }
    requires room { HasRoomFor (length changes.now.stops) (length order.now.entries) known.old }
    requires stops { All (λ x. x.stop < length changes.now.stops) reached.now }
    requires within { All (IsWithin (length changes.now.stops) (length order.now.entries))
        (leaving_from order.now (first_time asked.now.query.time reached.now)) }
    ensures all { result ≡ has_all (length changes.now.stops) best.now
        (leaving_from order.now (first_time asked.now.query.time reached.now))
        (noted changes.now reached.now (begun changes.now asked.now.query known.old)) }
    ensures room { HasSameRoom known.old known.new }
{
    begin(changes, asked, known);
    note(changes, reached, known);
    let from = first_time(asked.query.time, reached);
    has_all(order, changes, best, from, known)
}

/// Whether among stops that are reached before the best arrival no arrival by one ride more is
/// missing: each departure that passengers of the query can board leads to stops that are among
/// them in time, if that is before the best arrival. It takes no memory. What the scratch shows
/// belongs to no answer afterwards.
pub fn has_arrivals(
    t: &Timetable,
    q: &Query,
    best: &Option<Time>,
    reached: &[Reach],
    scratch: &mut Scratch,
) -> bool
    requires stops { length t.now.network.stops ≤ scratch.old.room.stops }
    requires numbers { t.now.numbers ≤ scratch.old.room.numbers }
    requires early { AreEarlyStops t.now.network best.now reached.now }
    ensures arrivals { IsTrue result ↔ HasArrivals t.now.network t.now.state q.now best.now
        (time_in reached.now) (time_in reached.now) }
    ensures room { scratch.new.room ≡ scratch.old.room }
{
    t.state_is_valid();
    t.calls_are_at_stops();
    let order = t.departures();
    order.departures_are_in_order();
    let changes = t.graph().changes();
    let asked = ask(changes, q);
    are_all_reached(order, changes, &asked, best, reached, &mut scratch.known)
}
