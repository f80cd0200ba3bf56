//! A scan of the departures in the order of their times, for all numbers of rides at once.

ghost use Rattle.std.specs.Prelude.{◌≡◌, ◌≤◌, ◌<◌, ◌^◌, ◌-◌, IfSome, All, length};
ghost use Rattle.std.specs.Option.{option_map};
ghost use Rattle.conn_scan.specs.Scanned.{IsWithin};
ghost use Rattle.conn_scan.specs.Stations.{HasStations};
ghost use Rattle.conn_scan.specs.Stretches.{leaving_from};
ghost use Rattle.pareto_scan.specs.Bounds.{IsBound};
ghost use Rattle.pareto_scan.specs.Levels.{HasLevelRoom, KeepsRoom};
ghost use Rattle.pareto_scan.specs.Ridden.{boarding, departed, known, rider_at, rode, scanned};

use crate::bound::{Bound, bound_at, lowered};
use crate::level::{Level, arrive_from, first_open};
use crate::passed::{next_ridden, still_riding};
use crate::riders::{Rider, Riders};
use change_times::Changes;
use conn_scan::known::Asked;
use conn_scan::stop_rides::Stretch;
use dep_order::{DepartureOrder, Leaving};

/// Those who board at a departure after so many rides, if anybody does.
#[inline(always)]
fn boarding(d: &Leaving, rides: Option<u32>) -> Option<Rider>
    ensures { result ≡ option_map (boarding d.now) rides }
{
    match rides {
        Some(rides) => Some(Rider {
            boarded: d.number,
            rides,
        }),
        None => None,
    }
}

/// Who rides on a departure, of those who had taken fewer than `top` rides before they boarded:
/// those who board here, if they have taken fewer rides than those aboard, and else those aboard.
#[inline(always)]
fn rider_at(d: &Leaving, levels: &[Level], riders: &Riders, top: u32) -> Option<Rider>
    requires number { d.now.number < length riders.now }
    requires top { top ≤ length levels.now }
    requires stop { All (λ v. d.now.stop < length v.openings.times) levels.now }
    ensures rider { result ≡ rider_at top d.now (known levels.now riders.now) }
    ensures there { IfSome result (λ r. r.boarded < length riders.now) }
    ensures rides { IfSome result (λ r. r.rides < top) }
{
    let Some(rider) = still_riding(riders, d.number, top) else {
        return boarding(d, first_open(levels, d, top));
    };
    match boarding(d, first_open(levels, d, rider.rides)) {
        Some(boarder) => Some(boarder),
        None => Some(rider),
    }
}

/// Takes passengers from a departure to the next arrival.
#[inline(always)]
fn ride(
    changes: &Changes,
    asked: &Asked,
    rider: Rider,
    d: &Leaving,
    levels: &mut [Level],
    riders: &mut Riders,
)
    requires stations { HasStations changes.now asked.now }
    requires room { All (HasLevelRoom (length changes.now.stops)) levels.old }
    requires few { length levels.old ≤ 9 }
    requires next { d.now.next < length riders.old }
    requires boarded { rider.boarded < length riders.old }
    requires numbers { length riders.old ≤ 2 ^ 23 }
    requires rides { rider.rides < 8 }
    ensures levels { levels.new ≡ (rode changes.now asked.now.query rider d.now
        (known levels.old riders.old)).levels }
    ensures riders { riders.new ≡ (rode changes.now asked.now.query rider d.now
        (known levels.old riders.old)).riders }
    ensures room { KeepsRoom levels.old levels.new }
{
    riders.set(d.next, rider);
    if d.to.get() < asked.stops {
        let stretch = Stretch {
            first: rider.boarded,
            last: d.number,
        };
        arrive_from(changes, asked, d, &stretch, rider.rides + 1, levels);
    }
}

/// Scans a departure, at which passengers still board who have taken fewer rides than the bound
/// says, and answers the bound behind it.
#[inline(always)]
fn depart(
    changes: &Changes,
    asked: &Asked,
    bound: &Bound,
    d: &Leaving,
    levels: &mut [Level],
    riders: &mut Riders,
) -> Bound
    requires stations { HasStations changes.now asked.now }
    requires room { All (HasLevelRoom (length changes.now.stops)) levels.old }
    requires few { length levels.old ≤ 9 }
    requires bound { IsBound levels.old bound.now }
    requires within { IsWithin (length changes.now.stops) (length riders.old - 1) d.now }
    requires numbers { length riders.old ≤ 2 ^ 23 }
    ensures levels { levels.new ≡ (departed changes.now asked.now.query bound.now.top d.now
        (known levels.old riders.old)).levels }
    ensures riders { riders.new ≡ (departed changes.now asked.now.query bound.now.top d.now
        (known levels.old riders.old)).riders }
    ensures room { KeepsRoom levels.old levels.new }
    ensures top { result.top ≡ bound.now.top }
    ensures bound { IsBound levels.new result }
{
    let Some(rider) = rider_at(d, levels, riders, bound.top) else {
        return *bound;
    };
    ride(changes, asked, rider, d, levels, riders);
    bound_at(levels, bound.top)
}

/// Scans the departures from the query's time on, for journeys with at most so many rides, up to
/// the first that is not before the best arrival by one ride; where no ride alone leads to the
/// destination, to the last departure.
pub(crate) fn scan(
    order: &DepartureOrder,
    changes: &Changes,
    asked: &Asked,
    most: u32,
    levels: &mut [Level],
    riders: &mut Riders,
)
    requires stations { HasStations changes.now asked.now }
    requires room { All (HasLevelRoom (length changes.now.stops)) levels.old }
    requires few { length levels.old ≤ 9 }
    requires most { most < length levels.old }
    requires riders { length order.now.entries < length riders.old }
    requires numbers { length riders.old ≤ 2 ^ 23 }
    requires within { All (IsWithin (length changes.now.stops) (length order.now.entries))
        (leaving_from order.now asked.now.query.time) }
    ensures levels { levels.new ≡ (scanned changes.now asked.now.query most
        (leaving_from order.now asked.now.query.time) (known levels.old riders.old)).levels }
    ensures room { KeepsRoom levels.old levels.new }
    ensures riders { length riders.new ≡ length riders.old }
{
    let mut bound = bound_at(levels, most);
    let mut departures = order.departures_from(asked.query.time);
    while let Some(d) = next_ridden(&mut departures, levels, riders, &bound) {
        bound = lowered(levels, &bound, d.time);
        if bound.top == 0 {
            return;
        }
        bound = depart(changes, asked, &bound, &d, levels, riders);
    }
}
