//! From when on passengers can board at the stops, and behind which ride.

ghost use Rattle.std.specs.Prelude.{◌≡◌, ◌<◌, ◌^◌, ◌-◌, IfSome, All, length};
ghost use Rattle.conn_scan.specs.Openings.{improved, lowered};

use crate::stop_rides::{StopRides, Stretch};
use crate::stop_times::StopTimes;
use change_times::Change;
use mt_base::numbers::{StopNo, Time};

/// For each stop, by number, from when on passengers can board there, after any change, and the
/// ride behind which that is: none, where it is straight from the origin.
#[derive(Drop)]
pub struct Openings {
    /// From when on.
    pub times: StopTimes,

    /// Behind which ride. Where no passenger can board, this says nothing.
    pub rides: StopRides,
}

/// Notes that passengers can board at a stop from so many seconds on, behind this ride, if that is
/// earlier than what is known.
#[inline]
pub fn improve(openings: &mut Openings, stop: StopNo, seconds: u64, ride: &Option<Stretch>)
    requires times { stop < length openings.old.times }
    requires rides { stop < length openings.old.rides }
    requires number { IfSome ride.now (λ r. r.first < 2 ^ 32 - 1) }
    ensures { openings.new ≡ improved stop seconds ride.now openings.old }
{
    if openings.times.is_earlier(stop, seconds) {
        openings.times.set(stop, Time::new(seconds as u32));
        openings.rides.set(stop, ride);
    }
}

/// Notes where passengers can board after these changes, begun at this time behind this ride.
#[inline]
pub fn lower(openings: &mut Openings, changes: &[Change], at: Time, ride: &Option<Stretch>)
    requires times { All (λ c. c.stop < length openings.old.times) changes.now }
    requires rides { All (λ c. c.stop < length openings.old.rides) changes.now }
    requires number { IfSome ride.now (λ r. r.first < 2 ^ 32 - 1) }
    ensures { openings.new ≡ lowered at ride.now changes.now openings.old }
{
    for change in changes {
        let seconds = u64::from(at.seconds()) + u64::from(change.seconds);
        improve(openings, change.stop, seconds, ride);
    }
}
