//! Stops, stations and changes of a timetable.

ghost use Rattle.std.specs.Prelude.{◌≡◌};
ghost use Rattle.delay_model.specs.Changes.{is_stop};
ghost use Rattle.delay_model.specs.Journeys.{is_one_station};
ghost use Rattle.journey_laws.specs.Checked.{is_early, is_in_time};

use mt_base::certificates::Reach;
use mt_base::numbers::{StopNo, Time};
use timetable::Timetable;

/// Whether the place is a stop or platform.
pub(crate) fn is_stop(t: &Timetable, stop: StopNo) -> bool
    ensures { result ≡ is_stop t.now.network.stops stop }
{
    match t.graph().changes().kind(stop) {
        Some(kind) => kind.is_platform(),
        None => false,
    }
}

/// Whether both places are of one station.
pub(crate) fn is_one_station(t: &Timetable, a: StopNo, b: StopNo) -> bool
    ensures { result ≡ is_one_station t.now.network a b }
{
    let changes = t.graph().changes();
    changes.station(a).get() == changes.station(b).get()
}

/// Whether a change from where a passenger has arrived is done at a place by this time.
pub fn is_in_time(t: &Timetable, from: &Reach, place: StopNo, by: Time) -> bool
    ensures { result ≡ is_in_time t.now.network from.now.stop from.now.time place by }
{
    match t.graph().changes().change(from.stop, place) {
        Some(seconds) => {
            u64::from(from.time.seconds()) + u64::from(seconds) <= u64::from(by.seconds())
        }
        None => false,
    }
}

/// Whether a time is before the best arrival. Each is where there is none.
pub(crate) fn is_early(best: &Option<Time>, time: Time) -> bool
    ensures { result ≡ is_early best.now time }
{
    match best {
        Some(at) => time.seconds() < at.seconds(),
        None => true,
    }
}
