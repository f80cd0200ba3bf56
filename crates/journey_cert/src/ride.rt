//! A ride by its name.

ghost use Rattle.std.specs.Prelude.{◌≡◌, ◌&&◌, IsTrue, nat_eq};
ghost use Rattle.delay_model.specs.Valid.{IsValid};
ghost use Rattle.train_nodes.specs.Calls.{has_call};
ghost use Rattle.journey_laws.specs.Checked.{ride_named};
ghost use Rattle.journey_laws.specs.Rides.{all_rides};
ghost use Rattle.journey_cert.specs.Calls.{arrival_by, boarding_at, calls_after, first_arrival, ride_to};

use mt_base::certificates::CertRide;
use mt_base::journeys::PlanRide;
use mt_base::keys::Node;
use mt_base::numbers::{Label, StopNo, Time, TrainNo};
use std::sync::ledger::Ledger;
use timetable::Timetable;
use train_nodes::Steps;

/// The departure of a train at a call where passengers may board.
#[derive(Clone, Copy)]
pub(crate) struct Boarding {
    /// The train.
    pub(crate) train: TrainNo,
    /// The label of the call.
    pub(crate) label: Label,
    /// Where it is.
    pub(crate) stop: StopNo,
    /// When the train departs.
    pub(crate) time: Time,
}

/// The arrival of a train at a call.
#[derive(Clone, Copy)]
pub(crate) struct Arrival {
    /// The label of the call.
    pub(crate) label: Label,
    /// Where it is.
    pub(crate) stop: StopNo,
    /// When the train arrives.
    pub(crate) time: Time,
    /// Whether passengers may alight.
    pub(crate) alights: bool,
    /// Whether the train departs from there.
    pub(crate) goes_on: bool,
}

/// The departure at the call of a train with a label. None where there is no such call, where it
/// does not take place, or where passengers may not board.
fn find_boarding<L: Ledger>(
    t: &Timetable,
    train: TrainNo,
    label: Label,
    steps: &mut Steps<L>,
) -> Option<Boarding>
    requires { IsValid t.now.network t.now.state }
    ensures { result ≡ boarding_at t.now.network t.now.state train label }
{
    let trains = t.graph().trains();
    if !trains.has(train, label) || !trains.boards(train, label) {
        return None;
    }
    let time = t.time(Node::departure(train, label), steps)?;
    Some(Boarding {
        train,
        label,
        stop: trains.stop(train, label),
        time,
    })
}

/// The arrival at the call after the one with a label. None where the train has no such call, or
/// does not arrive there.
fn next_arrival<L: Ledger>(
    t: &Timetable,
    train: TrainNo,
    label: Label,
    steps: &mut Steps<L>,
) -> Option<Arrival>
    requires valid { IsValid t.now.network t.now.state }
    requires there { IsTrue (has_call t.now.state train label) }
    ensures { result ≡ first_arrival t.now.network t.now.state train
        (calls_after t.now.state train label) }
{
    let trains = t.graph().trains();
    let label = trains.next_call(train, label)?;
    let arrival = Node::arrival(train, label);
    let time = t.time(arrival, steps)?;
    let departure = trains.event(Node::departure(train, label));
    Some(Arrival {
        label,
        stop: departure.stop,
        time,
        alights: trains.alights(train, label),
        goes_on: departure.live,
    })
}

/// Whether an arrival is at the call with a label, and passengers may alight there.
fn is_alighting(arrival: &Arrival, label: Label) -> bool
    ensures { result ≡ (arrival.now.alights && nat_eq arrival.now.label label) }
{
    arrival.alights && arrival.label.get() == label.get()
}

/// The arrival of a train at its call with the label `alight`, where passengers may alight, if the
/// train runs there from the call with the label `board`.
fn arrival_by<L: Ledger>(
    t: &Timetable,
    train: TrainNo,
    board: Label,
    alight: Label,
    steps: &mut Steps<L>,
) -> Option<Arrival>
    requires valid { IsValid t.now.network t.now.state }
    requires there { IsTrue (has_call t.now.state train board) }
    ensures { result ≡ arrival_by t.now.network t.now.state train alight
        (calls_after t.now.state train board) }
{
    let mut label = board;
    while let Some(arrival) = next_arrival(t, train, label, steps) {
        if is_alighting(&arrival, alight) {
            return Some(arrival);
        }
        if !arrival.goes_on {
            return None;
        }
        label = arrival.label;
    }
    None
}

/// The ride from a departure to an arrival of the same train.
fn ride_to(boarding: &Boarding, arrival: &Arrival) -> PlanRide
    ensures { result ≡ ride_to boarding.now arrival.now }
{
    PlanRide {
        train: boarding.train,
        board: boarding.label,
        board_stop: boarding.stop,
        board_time: boarding.time,
        alight: arrival.label,
        alight_stop: arrival.stop,
        alight_time: arrival.time,
    }
}

/// The ride of a name. None exactly where there is no such ride: no such train or call, a call
/// where passengers may not board or alight, or one to which the train does not run from the other.
pub(crate) fn find_ride<L: Ledger>(
    t: &Timetable,
    name: &CertRide,
    steps: &mut Steps<L>,
) -> Option<PlanRide>
    requires { IsValid t.now.network t.now.state }
    ensures { result ≡ ride_named (all_rides t.now.network t.now.state) name.now }
{
    let boarding = find_boarding(t, name.train, name.board, steps)?;
    let arrival = arrival_by(t, name.train, name.board, name.alight, steps)?;
    Some(ride_to(&boarding, &arrival))
}
