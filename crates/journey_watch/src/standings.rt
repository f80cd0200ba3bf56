//! The standing of a journey.

ghost use Rattle.std.specs.Prelude.{◌≡◌, ◌+◌, ◌*◌, ◌^◌, ◌<◌, ◌≤◌, length};
ghost use Rattle.delay_model.specs.Valid.{IsValid};
ghost use Rattle.standing_laws.specs.Standings.{standing, standing_after};

use crate::rides::find_ride;
use journey_cert::{is_from_origin, is_in_time};
use mt_base::certificates::{CertRide, Reach};
use mt_base::journeys::Query;
use standing_laws::Standing;
use std::sync::ledger::Ledger;
use timetable::Timetable;
use train_nodes::Steps;

/// The standing of the rides of these names behind one ride, which arrives at a stop and a time.
fn standing_after<L: Ledger>(
    t: &Timetable,
    from: &Reach,
    rides: &[CertRide],
    steps: &mut Steps<L>,
) -> Standing
    requires valid { IsValid t.now.network t.now.state }
    requires few { length rides.now + 1 < 2 ^ 32 }
    ensures standing { result ≡ standing_after t.now.network t.now.state from.now.stop
        from.now.time 1 rides.now }
    ensures cost { steps.new ≤ steps.old + 2 * length rides.now }
{
    let mut at = *from;
    let mut number = 1;
    for name in rides {
        let Some(ride) = find_ride(t, name, steps) else {
            return Standing::Broken { ride: number };
        };
        if !is_in_time(t, &at, ride.board_stop, ride.board_time) {
            return Standing::Broken { ride: number };
        }
        at = Reach {
            stop: ride.alight_stop,
            time: ride.alight_time,
        };
        number += 1;
    }
    Standing::Good { arrives: at.time }
}

/// The standing of a query's journey of the rides of these names, at the times of a timetable: good,
/// with its arrival in seconds from the base of day 0, or broken, with the first ride that cannot be
/// taken. They may name trains and calls that do not exist. At most two stored times are read for
/// each ride.
pub fn standing<L: Ledger>(
    t: &Timetable,
    q: &Query,
    rides: &[CertRide],
    steps: &mut Steps<L>,
) -> Standing
    requires few { length rides.now < 2 ^ 32 }
    ensures standing { result ≡ standing t.now.network t.now.state q.now rides.now }
    ensures cost { steps.new ≤ steps.old + 2 * length rides.now }
{
    t.state_is_valid();
    let Some((first, rest)) = rides.split_first() else {
        return Standing::Good { arrives: q.time };
    };
    let Some(ride) = find_ride(t, first, steps) else {
        return Standing::Broken { ride: 0 };
    };
    if !is_from_origin(t, q, ride.board_stop, ride.board_time) {
        return Standing::Broken { ride: 0 };
    }
    let at = Reach {
        stop: ride.alight_stop,
        time: ride.alight_time,
    };
    standing_after(t, &at, rest, steps)
}
