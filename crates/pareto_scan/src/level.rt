//! What is known of passengers who have taken some number of rides at most.

ghost use Rattle.std.specs.Prelude.{◌≡◌, ◌≤◌, ◌<◌, ◌^◌, ◌-◌, ◌+◌, All, IfSome, length};
ghost use Rattle.conn_scan.specs.Scanned.{is_there_by};
ghost use Rattle.conn_scan.specs.Stations.{HasStations};
ghost use Rattle.pareto_scan.specs.Levels.{arrived, arrived_from, first_open, level_at, top_at, HasLevelRoom, KeepsRoom};

use change_times::Changes;
use conn_scan::known::{Asked, Ending, ends_there, is_before, is_there_by};
use conn_scan::openings::{Openings, lower};
use conn_scan::stop_rides::Stretch;
use conn_scan::stop_times::StopTimes;
use dep_order::Leaving;
use mt_base::numbers::Time;

/// What is known of passengers of a query who have taken a number of rides at most.
#[derive(Drop)]
pub struct Level {
    /// From when on they can board at the stops, and behind which ride.
    pub openings: Openings,

    /// By stop, their earliest arrival there, before any change.
    pub held: StopTimes,

    /// Their earliest arrival in the station of the destination.
    pub best: Option<Ending>,
}

/// Notes the arrival of a ride where the train of a departure arrives next, and where passengers
/// may take a ride more, that they can board behind it.
#[inline(never)]
fn arrive(
    changes: &Changes,
    asked: &Asked,
    d: &Leaving,
    ride: &Stretch,
    more: bool,
    level: &mut Level,
)
    requires stations { HasStations changes.now asked.now }
    requires room { HasLevelRoom (length changes.now.stops) level.old }
    requires to { d.now.to < length changes.now.stops }
    requires number { ride.now.first < 2 ^ 32 - 1 }
    ensures { level.new ≡ arrived changes.now asked.now.query d.now ride.now more level.old }
{
    level.held.set(d.to, d.arrival);
    if more {
        let behind = Some(*ride);
        lower(&mut level.openings, changes.reach(d.to), d.arrival, &behind);
    }
    if ends_there(changes, asked, d.to) && is_before(d.arrival, &level.best) {
        level.best = Some(Ending {
            time: d.arrival,
            ride: *ride,
        });
    }
}

/// Notes the arrival of a ride for those who have taken so many rides with it, and for those who
/// may take more, as long as it is earlier than what is known of them.
#[inline]
pub(crate) fn arrive_from(
    changes: &Changes,
    asked: &Asked,
    d: &Leaving,
    ride: &Stretch,
    rides: u32,
    levels: &mut [Level],
)
    requires stations { HasStations changes.now asked.now }
    requires room { All (HasLevelRoom (length changes.now.stops)) levels.old }
    requires few { length levels.old ≤ 9 }
    requires to { d.now.to < length changes.now.stops }
    requires number { ride.now.first < 2 ^ 32 - 1 }
    requires rides { rides ≤ 9 }
    ensures arrived { levels.new ≡ arrived_from rides changes.now asked.now.query d.now ride.now
        levels.old }
    ensures room { KeepsRoom levels.old levels.new }
{
    let mut taken = rides as usize;
    while taken < levels.len() && !levels[taken].held.is_by(d.to, d.arrival) {
        let more = taken + 1 < levels.len();
        arrive(changes, asked, d, ride, more, &mut levels[taken]);
        taken += 1;
    }
}

/// After how few rides one can board at a departure, if one can after fewer than so many. With more
/// rides nobody is anywhere later, so the most of them is looked at first.
#[inline(always)]
pub(crate) fn first_open(levels: &[Level], d: &Leaving, below: u32) -> Option<u32>
    requires below { below ≤ length levels.now }
    requires stop { All (λ v. d.now.stop < length v.openings.times) levels.now }
    ensures first { result ≡ first_open levels.now d.now below }
    ensures few { IfSome result (λ rides. rides < below) }
{
    if below == 0
        || !levels[below as usize - 1]
            .openings
            .times
            .is_by(d.stop, d.time)
    {
        return None;
    }
    let mut rides = below - 1;
    while rides > 0
        && levels[rides as usize - 1]
            .openings
            .times
            .is_by(d.stop, d.time)
    {
        rides -= 1;
    }
    Some(rides)
}

/// The greatest number of rides up to this one with which the best arrival is after a time, or
/// there is none; 0 if there is no such number. Passengers board then who have taken fewer rides.
#[inline(always)]
pub(crate) fn lower_top(levels: &[Level], time: Time, most: u32) -> u32
    requires { most < length levels.now }
    ensures top { result ≡ top_at levels.now time most }
    ensures few { result ≤ most }
{
    let mut top = most;
    while top > 0 && is_there_by(&levels[top as usize].best, time) {
        top -= 1;
    }
    top
}
