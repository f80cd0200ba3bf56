//! The journey that a certificate names.

ghost use Rattle.std.specs.Prelude.{◌≡◌, ◌↔◌, IsTrue, ◌<◌};
ghost use Rattle.std.specs.Option.{option_map_or};
ghost use Rattle.delay_model.specs.Valid.{IsValid};
ghost use Rattle.journey_laws.specs.Certificates.{AreRidesUntil};
ghost use Rattle.journey_laws.specs.Checked.{are_journey, goes_on, is_at_once, is_empty, is_from_origin};
ghost use Rattle.journey_laws.specs.Reached.{IsAtOnce};
ghost use Rattle.journey_laws.specs.Rides.{all_rides};

use crate::places::{is_in_time, is_one_station};
use crate::ride::find_ride;
use mt_base::certificates::{Cert, CertRide, Reach};
use mt_base::journeys::Query;
use mt_base::numbers::{StopNo, Time};
use std::sync::ledger::Ledger;
use timetable::Timetable;
use train_nodes::Steps;

/// Whether a passenger of the query can board at a stop at a time straight from the origin.
pub fn is_from_origin(t: &Timetable, q: &Query, stop: StopNo, time: Time) -> bool
    ensures { result ≡ is_from_origin t.now.network q.now stop time }
{
    if is_one_station(t, q.from_stop, stop) {
        return q.time.seconds() <= time.seconds();
    }
    let origin = Reach {
        stop: q.from_stop,
        time: q.time,
    };
    is_in_time(t, &origin, stop, time)
}

/// Whether the rides of these names go on from where a passenger has arrived, with a change before
/// each, and end in the station of `to` at a time.
fn goes_on<L: Ledger>(
    t: &Timetable,
    from: &Reach,
    names: &[CertRide],
    to: StopNo,
    arrives: Time,
    steps: &mut Steps<L>,
) -> bool
    requires { IsValid t.now.network t.now.state }
    ensures { result ≡ goes_on t.now.network (all_rides t.now.network t.now.state) from.now.stop
        from.now.time names.now to arrives }
{
    let mut at = *from;
    for name in names {
        let Some(ride) = find_ride(t, name, steps) else {
            return false;
        };
        if !is_in_time(t, &at, ride.board_stop, ride.board_time) {
            return false;
        }
        at = Reach {
            stop: ride.alight_stop,
            time: ride.alight_time,
        };
    }
    is_one_station(t, at.stop, to) && at.time.seconds() == arrives.seconds()
}

/// Whether the rides of these names are a journey of the query, which arrives at a time.
fn are_journey<L: Ledger>(
    t: &Timetable,
    q: &Query,
    names: &[CertRide],
    arrives: Time,
    steps: &mut Steps<L>,
) -> bool
    requires { IsValid t.now.network t.now.state }
    ensures { result ≡ are_journey t.now.network (all_rides t.now.network t.now.state) q.now
        names.now arrives }
{
    let Some((first, rest)) = names.split_first() else {
        return is_one_station(t, q.from_stop, q.to_stop) && q.time.seconds() == arrives.seconds();
    };
    let Some(ride) = find_ride(t, first, steps) else {
        return false;
    };
    let alighted = Reach {
        stop: ride.alight_stop,
        time: ride.alight_time,
    };
    is_from_origin(t, q, ride.board_stop, ride.board_time)
        && goes_on(t, &alighted, rest, q.to_stop, arrives, steps)
}

/// Whether the best arrival is the query's time, where origin and destination are of one station.
fn is_at_once(t: &Timetable, q: &Query, best: &Option<Time>) -> bool
    ensures { result ≡ is_at_once t.now.network q.now best.now }
{
    if !is_one_station(t, q.from_stop, q.to_stop) {
        return true;
    }
    match best {
        Some(at) => at.seconds() == q.time.seconds(),
        None => false,
    }
}

/// Whether the rides of a certificate are a journey that arrives when it says. Without an arrival
/// there is to be no ride.
fn are_rides_until<L: Ledger>(t: &Timetable, q: &Query, c: &Cert, steps: &mut Steps<L>) -> bool
    requires { IsValid t.now.network t.now.state }
    ensures { result ≡ option_map_or
        (are_journey t.now.network (all_rides t.now.network t.now.state) q.now c.now.rides)
        c.now.arrives (is_empty c.now.rides) }
{
    match &c.arrives {
        Some(at) => are_journey(t, q, c.rides.as_slice(), *at, steps),
        None => c.rides.is_empty(),
    }
}

/// Whether a certificate's journey is one of the query, which arrives when it says; where origin
/// and destination are of one station, at the query's time.
pub(crate) fn has_journey<L: Ledger>(
    t: &Timetable,
    q: &Query,
    c: &Cert,
    steps: &mut Steps<L>,
) -> bool
    requires { IsValid t.now.network t.now.state }
    ensures rides { IsTrue result → AreRidesUntil t.now.network t.now.state q.now c.now.arrives
        c.now.rides }
    ensures at_once { IsTrue result → IsAtOnce t.now.network q.now c.now.arrives }
    ensures all { AreRidesUntil t.now.network t.now.state q.now c.now.arrives c.now.rides
        → IsAtOnce t.now.network q.now c.now.arrives → IsTrue result }
{
    is_at_once(t, q, &c.arrives) && are_rides_until(t, q, c, steps)
}
