//! The certificate of an answer.

ghost use Rattle.std.specs.Prelude.{◌≡◌, ◌≤◌, IfOk, All, length, map};
ghost use Rattle.conn_scan.specs.ScratchState.{IsSettled, best_of_found, early_stops};
ghost use Rattle.journey_laws.specs.Certificates.{IsGoodCertificate, name_of};
ghost use Rattle.journey_cert.specs.Stops.{AreBelow};

use crate::places::is_early;
use conn_scan::{Found, Scratch};
use mt_base::certificates::{Cert, CertRide, Reach};
use mt_base::journeys::{PlanRide, Query};
use mt_base::memory::OutOfMemory;
use mt_base::numbers::{StopNo, Time};
use mt_base::rows::Rows;
use std::alloc::Global;
use timetable::Timetable;

/// The arrival of an answer. None where there is no journey.
fn arrival_of(f: &Found) -> Option<Time>
    ensures { result ≡ best_of_found f.now }
{
    match f {
        Found::Arrives { at } => Some(*at),
        Found::NoWay => None,
    }
}

/// The names of rides. `OutOfMemory` where there is no memory.
fn name_rides(alloc: Global, rides: &[PlanRide]) -> Result<Vec<CertRide>, OutOfMemory>
    ensures { IfOk result (λ names. names.items ≡ map name_of rides.now) }
{
    let mut names = Vec::with_capacity(alloc, rides.len())?;
    for ride in rides {
        names.push(CertRide {
            train: ride.train,
            board: ride.board,
            alight: ride.alight,
        })?;
    }
    Ok(names)
}

/// The stops that a search has found with a time before the best arrival, by number. `OutOfMemory`
/// where there is no memory.
fn list_reached(
    alloc: Global,
    t: &Timetable,
    s: &Scratch,
    best: &Option<Time>,
) -> Result<Vec<Reach>, OutOfMemory>
    requires { AreBelow (length t.now.network.stops) (early_stops best.now s.now.held) }
    ensures { IfOk result (λ list. list.items ≡ early_stops best.now s.now.held) }
{
    let mut list = Vec::new(alloc);
    for number in 0..t.graph().changes().stops() {
        let stop = StopNo::new(number);
        if let Some(time) = s.held(stop) {
            if is_early(best, time) {
                list.push(Reach { stop, time })?;
            }
        }
    }
    Ok(list)
}

/// The certificate of the answer to a query that a scratch shows. `OutOfMemory` where there is no
/// memory.
pub fn certify(
    alloc: Global,
    t: &Timetable,
    s: &Scratch,
    q: &Query,
    f: &Found,
) -> Result<Cert, OutOfMemory>
    requires settled { IsSettled t.now.network t.now.state q.now f.now s.now }
    ensures good { IfOk result (IsGoodCertificate t.now.network t.now.state q.now) }
    ensures arrives { IfOk result (λ c. c.arrives ≡ best_of_found f.now) }
    ensures rides { IfOk result (λ c. c.rides ≡ map name_of s.now.rides) }
    ensures reached { IfOk result (λ c. c.reached ≡ early_stops (best_of_found f.now) s.now.held) }
    ensures since { IfOk result (λ c. All (λ x. q.now.time ≤ x.time) c.reached) }
{
    let arrives = arrival_of(f);
    let rides = name_rides(alloc, s.rides())?;
    let reached = list_reached(alloc, t, s, &arrives)?;
    Ok(Cert {
        arrives,
        rides: Rows::build(rides),
        reached: Rows::build(reached),
    })
}
