//! A query, and what a scan knows.

ghost use Rattle.std.specs.Prelude.{◌≡◌, ◌≤◌, None, nat_eq, length};
ghost use Rattle.conn_scan.specs.Begun.{at_origin, begun, cleared};
ghost use Rattle.conn_scan.specs.Openings.{lowered};
ghost use Rattle.conn_scan.specs.Scanned.{ends_there, is_before, is_there_by, HasRoomFor};
ghost use Rattle.conn_scan.specs.Stations.{HasStations};

use crate::aboard::Aboard;
use crate::openings::{Openings, improve, lower};
use crate::stop_rides::Stretch;
use crate::stop_times::StopTimes;
use change_times::Changes;
use mt_base::journeys::Query;
use mt_base::numbers::{StopNo, Time};

/// A query, with the stations of its origin and its destination, and the number of stops.
#[derive(Clone, Copy)]
pub struct Asked {
    /// The query.
    pub query: Query,

    /// The station of the origin.
    pub origin: StopNo,

    /// The station of the destination.
    pub destination: StopNo,

    /// How many stops there are.
    pub stops: u32,
}

/// An arrival in the station of the destination.
#[derive(Clone, Copy, Debug, PartialEq, Eq)]
pub struct Ending {
    /// When it is, in seconds from the base of day 0.
    pub time: Time,

    /// The ride that ends with it.
    pub ride: Stretch,
}

/// What a scan knows. All memory is taken when it is made.
#[derive(Drop)]
pub struct Known {
    /// From when on passengers can board at the stops.
    pub openings: Openings,

    /// By stop, the earliest arrival there, before any change.
    pub held: StopTimes,

    /// Which departures they ride on.
    pub aboard: Aboard,

    /// The earliest arrival in the station of the destination.
    pub best: Option<Ending>,
}

/// A query with its stations and the number of stops, which are looked up once.
pub fn ask(changes: &Changes, q: &Query) -> Asked
    ensures query { result.query ≡ q.now }
    ensures stations { HasStations changes.now result }
{
    Asked {
        query: *q,
        origin: changes.station(q.from_stop),
        destination: changes.station(q.to_stop),
        stops: changes.stops(),
    }
}

/// Whether origin and destination are of one station.
pub fn is_at_once(asked: &Asked) -> bool
    ensures { result ≡ nat_eq asked.now.origin asked.now.destination }
{
    asked.origin.get() == asked.destination.get()
}

/// Whether a stop is of the station of the destination.
#[inline]
pub fn ends_there(changes: &Changes, asked: &Asked, stop: StopNo) -> bool
    requires { HasStations changes.now asked.now }
    ensures { result ≡ ends_there changes.now asked.now.query stop }
{
    changes.station(stop).get() == asked.destination.get()
}

/// Whether the best arrival is not after this time.
#[inline(always)]
pub fn is_there_by(best: &Option<Ending>, time: Time) -> bool
    ensures { result ≡ is_there_by best.now time }
{
    match best {
        Some(ending) => ending.time.seconds() <= time.seconds(),
        None => false,
    }
}

/// Whether a time is before the best arrival.
#[inline]
pub fn is_before(time: Time, best: &Option<Ending>) -> bool
    ensures { result ≡ is_before time best.now }
{
    match best {
        Some(ending) => time.seconds() < ending.time.seconds(),
        None => true,
    }
}

/// Forgets what is known.
pub fn clear(known: &mut Known)
    ensures { known.new ≡ cleared known.old }
{
    known.openings.times.clear();
    known.held.clear();
    known.aboard.clear();
    known.best = None;
}

/// Notes that passengers of the query can board at its time at each stop of the origin's station.
pub fn open_origin(changes: &Changes, asked: &Asked, openings: &mut Openings)
    requires stations { HasStations changes.now asked.now }
    requires times { length changes.now.stops ≤ length openings.old.times }
    requires rides { length changes.now.stops ≤ length openings.old.rides }
    ensures { openings.new ≡ lowered asked.now.query.time None
        (at_origin changes.now asked.now.query) openings.old }
{
    let straight: Option<Stretch> = None;
    let seconds = u64::from(asked.query.time.seconds());
    for number in 0..changes.stops() {
        let stop = StopNo::new(number);
        if changes.station(stop).get() == asked.origin.get() {
            improve(openings, stop, seconds, &straight);
        }
    }
}

/// Notes where passengers of the query can board without a ride, and nothing else.
pub(crate) fn begin(changes: &Changes, asked: &Asked, known: &mut Known)
    requires stations { HasStations changes.now asked.now }
    requires room { HasRoomFor (length changes.now.stops) 0 known.old }
    ensures { known.new ≡ begun changes.now asked.now.query known.old }
{
    clear(known);
    let straight: Option<Stretch> = None;
    let onward = changes.reach(asked.query.from_stop);
    lower(&mut known.openings, onward, asked.query.time, &straight);
    open_origin(changes, asked, &mut known.openings);
}
