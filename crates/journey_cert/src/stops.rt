//! The stops that a certificate lists.

ghost use Rattle.std.specs.Prelude.{◌≡◌};
ghost use Rattle.journey_cert.specs.Stops.{are_good_from, is_good_stop};

use crate::places::{is_early, is_one_station, is_stop};
use mt_base::certificates::Reach;
use mt_base::journeys::Query;
use mt_base::numbers::Time;
use timetable::Timetable;

/// Whether it is a stop or platform, reached before the best arrival, and not in the destination's
/// station.
fn is_good_stop(t: &Timetable, q: &Query, best: &Option<Time>, x: &Reach) -> bool
    ensures { result ≡ is_good_stop t.now.network q.now best.now x.now }
{
    is_stop(t, x.stop) && is_early(best, x.time) && !is_one_station(t, x.stop, q.to_stop)
}

/// Whether these are such stops, by rising number.
pub(crate) fn are_good_stops(
    t: &Timetable,
    q: &Query,
    best: &Option<Time>,
    reached: &[Reach],
) -> bool
    ensures { result ≡ are_good_from t.now.network q.now best.now 0 reached.now }
{
    let mut least: u64 = 0;
    for x in reached {
        let number = u64::from(x.stop.get());
        if number < least || !is_good_stop(t, q, best, x) {
            return false;
        }
        least = number + 1;
    }
    true
}
