//! The way back along the rides behind which the stops were reached.

ghost use Rattle.std.specs.Prelude.{◌≡◌, ◌≤◌, IsTrue, length, unwrap_or, vec_capacity};
ghost use Rattle.delay_model.specs.AtStops.{AreAtStops};
ghost use Rattle.delay_model.specs.Events.{calls_of};
ghost use Rattle.train_nodes.specs.Calls.{has_call, label_after};
ghost use Rattle.conn_scan.specs.Reached.{access_of, ride_along, ride_before, IsPossible};
ghost use Rattle.conn_scan.specs.Stretches.{departure_at, IsHeld};
ghost use Rattle.conn_scan.specs.Ways.{AreReadable, IsReadable, LeadsBackwards, LeadsTo};

use crate::openings::Openings;
use crate::stop_rides::Stretch;
use dep_order::{Departure, DepartureOrder};
use mt_base::journeys::PlanRide;
use mt_base::numbers::Label;
use timetable::Timetable;
use train_nodes::Trains;

/// The departure with a number.
fn departure(order: &DepartureOrder, number: u32) -> Departure
    requires { IsHeld order.now number }
    ensures { result ≡ departure_at order.now number }
{
    let Some(departure) = order.departure(number) else {
        unreachable!()
    };
    departure
}

/// The label of the call after that of a departure.
fn next_label(trains: &Trains, d: &Departure) -> Label
    requires { IsTrue (has_call trains.now d.now.key.train d.now.key.label) }
    ensures { result ≡ unwrap_or
        (label_after (calls_of trains.now d.now.key.train) d.now.key.label) 0 }
{
    match trains.next_call(d.key.train, d.key.label) {
        Some(label) => label,
        None => Label::new(0),
    }
}

/// The ride along a stretch of a train.
pub fn ride_along(trains: &Trains, order: &DepartureOrder, stretch: &Stretch) -> PlanRide
    requires { IsReadable trains.now order.now stretch.now }
    ensures { result ≡ ride_along trains.now order.now stretch.now }
{
    let first = departure(order, stretch.first);
    let last = departure(order, stretch.last);
    let onward = order.onward(stretch.last);
    PlanRide {
        train: first.key.train,
        board: first.key.label,
        board_stop: first.stop,
        board_time: first.time,
        alight: next_label(trains, &last),
        alight_stop: onward.to,
        alight_time: onward.arrival,
    }
}

/// The ride behind which a passenger boards this one. None if he comes straight from the origin.
pub fn ride_before(
    trains: &Trains,
    order: &DepartureOrder,
    openings: &Openings,
    ride: &PlanRide,
) -> Option<PlanRide>
    requires { AreReadable trains.now order.now openings.now }
    ensures { result ≡ ride_before (access_of trains.now order.now openings.now) ride.now }
{
    openings.times.get(ride.board_stop)?;
    let stretch = openings.rides.get(ride.board_stop)?;
    Some(ride_along(trains, order, &stretch))
}

/// Puts the rides that lead to this one, and this one, in place of others. It takes no memory: no
/// two of them are boarded at one stop, so that there are no more than there are stops.
pub(crate) fn trace(
    t: &Timetable,
    order: &DepartureOrder,
    openings: &Openings,
    last: &Stretch,
    rides: &mut Vec<PlanRide>,
)
    // rides that can be looked up, and lead to ever earlier ones
    requires at_stops { AreAtStops t.now.network.stops t.now.state }
    requires readable { AreReadable t.now.state order.now openings.now }
    requires backwards { LeadsBackwards t.now.network t.now.state
        (access_of t.now.state order.now openings.now) }

    // a last ride that is possible, and room for the rides
    requires last { IsReadable t.now.state order.now last.now }
    requires possible { IsPossible t.now.network t.now.state
        (access_of t.now.state order.now openings.now)
        (ride_along t.now.state order.now last.now) }
    requires room { length t.now.network.stops ≤ vec_capacity rides.old }

    // the rides that were found
    ensures rides { LeadsTo (access_of t.now.state order.now openings.now)
        (ride_along t.now.state order.now last.now) rides.new.items }
    ensures capacity { vec_capacity rides.new ≡ vec_capacity rides.old }
{
    rides.clear();
    let trains = t.graph().trains();
    let first = ride_along(trains, order, last);
    rides.push_reserved(first);
    let mut before = ride_before(trains, order, openings, &first);
    while let Some(ride) = &before {
        rides.push_reserved(*ride);
        before = ride_before(trains, order, openings, ride);
    }
    rides.reverse();
}
