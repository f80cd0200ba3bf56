//! Trains that are loaded, changed and copied.

ghost use Rattle.std.specs.Prelude.{◌≡◌, ◌<◌};

use delay_model::messages::Message;
use delay_model::overrides::Override;
use mt_base::keys::Node;
use mt_base::memory::OutOfMemory;
use mt_base::new_calls::NewCall;
use mt_base::numbers::{Day, Label, RouteNo, StopNo, Time, TrainNo};
use std::alloc::Global;
use std::test::Fail;
use train_nodes::{Keeps, Msg, TableCall, Trains};

fn node(train: u32, label: u32, dep: bool) -> Node
    ensures { result ≡ record { train = train; label = label; dep = dep } }
{
    Node {
        train: TrainNo::new(train),
        label: Label::new(label),
        dep,
    }
}

/// What is known of an event: whether it is live, its scheduled time, its forecast and its report.
type Known = Option<(bool, u32, Option<u32>, Option<u32>)>;

fn known(trains: &Trains, n: &Node) -> Known {
    if !trains.has(n.train, n.label) {
        return None;
    }
    Some((
        trains.live(*n),
        trains.scheduled(*n).seconds(),
        trains.forecast(*n).map(|time| time.seconds()),
        trains.report(*n).map(|time| time.seconds()),
    ))
}

/// Whether all this is known of events of train 0, each by its label and whether it is a departure.
fn are_known(trains: &Trains, events: &[(u32, bool, Known)]) -> bool {
    for (label, dep, wanted) in events {
        if known(trains, &node(0, *label, *dep)) != *wanted {
            return false;
        }
    }
    true
}

/// The next report after an event that is there.
fn next_report(trains: &Trains, n: &Node) -> Option<u32> {
    if !trains.has(n.train, n.label) {
        return None;
    }
    trains.next_report(*n).map(|time| time.seconds())
}

/// The stop of a call, whether passengers may board and alight, and the labels before and after.
type Call = Option<(u32, bool, bool, Option<u32>, Option<u32>)>;

fn call(trains: &Trains, train: u32, label: u32) -> Call {
    let (t, l) = (TrainNo::new(train), Label::new(label));
    if !trains.has(t, l) {
        return None;
    }
    Some((
        trains.stop(t, l).get(),
        trains.boards(t, l),
        trains.alights(t, l),
        trains.prev_call(t, l).map(|label| label.get()),
        trains.next_call(t, l).map(|label| label.get()),
    ))
}

/// Whether these are calls of a train, each by its label.
fn are_calls(trains: &Trains, train: u32, calls: &[(u32, Call)]) -> bool {
    for (label, wanted) in calls {
        if call(trains, train, *label) != *wanted {
            return false;
        }
    }
    true
}

/// The day, the route, the next label and the first call of a train.
type Train = Option<(u32, u32, u32, u32)>;

fn train(trains: &Trains, number: u32) -> Train {
    if number >= trains.count() {
        return None;
    }
    let t = TrainNo::new(number);
    Some((
        trains.day(t).get(),
        trains.route(t).get(),
        trains.next_label(t).get(),
        trains.first_call(t).get(),
    ))
}

/// One train of two calls, with room for one more train and three more calls.
fn loaded(alloc: Global) -> Result<Trains, OutOfMemory> {
    let mut trains = Trains::with_room(alloc, 2, 5, 7)?;
    let first = TableCall {
        stop: StopNo::new(3),
        arr: Time::new(100),
        dep: Time::new(100),
        board: true,
        alight: false,
    };
    let last = TableCall {
        stop: StopNo::new(5),
        arr: Time::new(900),
        dep: Time::new(930),
        board: false,
        alight: true,
    };
    let _ = trains.push_train(Day::new(1), RouteNo::new(4), &[first, last]);
    Ok(trains)
}

/// Its calls.
const CALLS: [(u32, Call); 3] = [
    (0, Some((3, true, false, None, Some(1)))),
    (1, Some((5, false, true, Some(0), None))),
    (2, None),
];

#[test]
fn a_train_of_the_timetable(rt: HostRuntime) -> Result<(), Fail> {
    let trains = loaded(rt.alloc())?;
    assert!(rt; train(&trains, 0) == Some((1, 4, 2, 0)) && train(&trains, 1).is_none());
    assert!(rt; are_calls(&trains, 0, &CALLS));
    Ok(())
}

/// Its events, of which those at its ends are not live.
const EVENTS: [(u32, bool, Known); 4] = [
    (0, false, Some((false, 100, None, None))),
    (0, true, Some((true, 100, None, None))),
    (1, false, Some((true, 900, None, None))),
    (1, true, Some((false, 930, None, None))),
];

#[test]
fn the_ends_are_not_live(rt: HostRuntime) -> Result<(), Fail> {
    let trains = loaded(rt.alloc())?;
    assert!(rt; are_known(&trains, &EVENTS));
    Ok(())
}

/// Sets the forecast of an event, if it is live.
fn forecast(trains: &mut Trains, n: &Node, time: u32)
    requires { time < 1000 }
{
    if trains.live(*n) {
        trains.set_forecast(*n, Time::new(time));
    }
}

/// The same of the report.
fn report(trains: &mut Trains, n: &Node, time: u32)
    requires { time < 1000 }
{
    if trains.live(*n) {
        trains.set_report(*n, Time::new(time));
    }
}

/// The train whose last arrival was reported, and before that expected where it is told to be.
fn reported(alloc: Global, is_expected: bool) -> Result<Trains, OutOfMemory> {
    let mut trains = loaded(alloc)?;
    let arrival = node(0, 1, false);
    if is_expected {
        forecast(&mut trains, &arrival, 950);
    }
    report(&mut trains, &arrival, 960);
    Ok(trains)
}

/// A copy of the train that was expected and reported.
fn reported_copy(alloc: Global) -> Result<Trains, OutOfMemory> {
    reported(alloc, true)?.copy(alloc)
}

/// What is known of its last call.
const REPORTED: [(u32, bool, Known); 2] = [
    (1, false, Some((true, 900, Some(950), Some(960)))),
    (1, true, Some((false, 930, None, None))),
];

#[test]
fn values_of_an_event(rt: HostRuntime) -> Result<(), Fail> {
    let copy = reported_copy(rt.alloc())?;
    assert!(rt; are_known(&copy, &REPORTED));
    Ok(())
}

/// The scheduled time of the last event of the train that was reported.
fn reported_time(trains: &Trains) -> Option<u32> {
    let mut reported = None;
    for event in trains.events(TrainNo::new(0)) {
        if event.report.is_some() {
            reported = Some(event.key.time.seconds());
        }
    }
    reported
}

/// The reports behind events, each by its label and whether it is a departure.
const NEXT_REPORTS: [(u32, bool, Option<u32>); 3] = [
    (0, false, Some(960)),
    (0, true, Some(960)),
    (1, false, None),
];

/// Whether these are the next reports of the train.
fn are_next_reports(trains: &Trains) -> bool {
    for (label, dep, wanted) in NEXT_REPORTS {
        if next_report(trains, &node(0, label, dep)) != wanted {
            return false;
        }
    }
    true
}

/// The reported time of the train, if it has a train.
fn reported_of(trains: &Trains) -> Option<u32> {
    if trains.count() == 0 {
        return None;
    }
    reported_time(trains)
}

#[test]
fn the_next_report(rt: HostRuntime) -> Result<(), Fail> {
    let trains = reported(rt.alloc(), false)?;
    assert!(rt; are_next_reports(&trains));
    assert!(rt; reported_of(&trains) == Some(900));
    Ok(())
}

/// A call of a minute at a stop.
fn stop_at(stop: u32, arr: u32) -> NewCall
    requires { arr < 1000 }
{
    NewCall {
        stop: StopNo::new(stop),
        arr: Time::new(arr),
        dep: Time::new(arr + 60),
    }
}

/// Reroutes train 0 between two of its calls, if they stand so and there is room.
fn reroute(trains: &mut Trains, from: u32, to: u32, via: &[NewCall]) {
    let (t, from, to) = (TrainNo::new(0), Label::new(from), Label::new(to));
    if trains.stands_before(t, from, to) && via.len() <= trains.spare_calls() as usize {
        trains.reroute(t, from, to, via);
    }
}

/// Cancels train 0 from one of its calls to another, if they stand so.
fn cancel(trains: &mut Trains, from: u32, to: u32) {
    let (t, from, to) = (TrainNo::new(0), Label::new(from), Label::new(to));
    if trains.stands_before(t, from, to) {
        trains.cancel(t, from, to);
    }
}

/// The train, rerouted by two calls, and then from the first of them on by one.
fn rerouted(alloc: Global) -> Result<Trains, OutOfMemory> {
    let mut trains = loaded(alloc)?;
    reroute(&mut trains, 0, 1, &[stop_at(7, 200), stop_at(8, 400)]);
    reroute(&mut trains, 2, 1, &[stop_at(9, 600)]);
    Ok(trains)
}

/// Its calls.
const REROUTED: [(u32, Call); 4] = [
    (2, Some((7, true, true, Some(0), Some(4)))),
    (3, None),
    (4, Some((9, true, true, Some(2), Some(1)))),
    (1, Some((5, false, true, Some(4), None))),
];

#[test]
fn a_rerouted_train(rt: HostRuntime) -> Result<(), Fail> {
    let trains = rerouted(rt.alloc())?;
    assert!(rt; train(&trains, 0) == Some((1, 4, 5, 0)));
    assert!(rt; are_calls(&trains, 0, &REROUTED));
    Ok(())
}

/// Removes the report of an event, if it is live.
fn take_back(trains: &mut Trains, n: &Node) {
    if trains.live(*n) {
        trains.clear_report(*n);
    }
}

/// The same of the forecast.
fn withdraw(trains: &mut Trains, n: &Node) {
    if trains.live(*n) {
        trains.clear_forecast(*n);
    }
}

/// The rerouted train, expected and reported at a new call, and reported at its last one.
fn reported_twice(alloc: Global) -> Result<Trains, OutOfMemory> {
    let mut trains = rerouted(alloc)?;
    forecast(&mut trains, &node(0, 4, false), 620);
    report(&mut trains, &node(0, 4, false), 630);
    report(&mut trains, &node(0, 1, false), 960);
    Ok(trains)
}

/// The same train, of whose new call both are removed.
fn reported_once(alloc: Global) -> Result<Trains, OutOfMemory> {
    let mut trains = reported_twice(alloc)?;
    take_back(&mut trains, &node(0, 4, false));
    withdraw(&mut trains, &node(0, 4, false));
    Ok(trains)
}

/// What is known of its events.
const REPORTED_ONCE: [(u32, bool, Known); 2] = [
    (4, false, Some((true, 600, None, None))),
    (1, false, Some((true, 900, None, Some(960)))),
];

#[test]
fn a_report_that_is_taken_back(rt: HostRuntime) -> Result<(), Fail> {
    let twice = reported_twice(rt.alloc())?;
    assert!(rt; next_report(&twice, &node(0, 2, true)) == Some(630));
    let once = reported_once(rt.alloc())?;
    assert!(rt; next_report(&once, &node(0, 2, true)) == Some(960));
    assert!(rt; are_known(&once, &REPORTED_ONCE));
    Ok(())
}

/// A copy of the rerouted train that was cancelled from its first new call on.
fn cancelled_copy(alloc: Global) -> Result<Trains, OutOfMemory> {
    let mut trains = rerouted(alloc)?;
    cancel(&mut trains, 2, 1);
    trains.copy(alloc)
}

/// What is known of its events.
const CANCELLED: [(u32, bool, Known); 3] = [
    (2, false, Some((true, 200, None, None))),
    (2, true, Some((false, 260, None, None))),
    (1, false, Some((false, 900, None, None))),
];

#[test]
fn a_rerouted_train_that_is_cancelled(rt: HostRuntime) -> Result<(), Fail> {
    let copy = cancelled_copy(rt.alloc())?;
    assert!(rt; are_known(&copy, &CANCELLED));
    Ok(())
}

/// The train and an extra train of two calls, if there is room.
fn with_extra_train(alloc: Global) -> Result<Trains, OutOfMemory> {
    let mut trains = loaded(alloc)?;
    let calls = [stop_at(7, 200), stop_at(8, 400)];
    if trains.spare_trains() > 0 && trains.spare_calls() >= 2 {
        let _ = trains.add_train(Day::new(2), RouteNo::new(6), &calls);
    }
    Ok(trains)
}

#[test]
fn an_extra_train(rt: HostRuntime) -> Result<(), Fail> {
    let trains = with_extra_train(rt.alloc())?;
    assert!(rt; train(&trains, 1) == Some((2, 6, 2, 0)) && trains.spare_calls() == 1);
    assert!(rt; are_calls(&trains, 1, &[(1, Some((8, true, true, Some(0), None)))]));
    Ok(())
}

/// What is chosen for connections: the train of the feeder, the train that waits, and the choice.
const CHOICES: [(u32, u32, Override); 5] = [
    (7, 0, Override::Keep),
    (3, 0, Override::Keep),
    (5, 0, Override::Keep),
    (4, 0, Override::Drop),
    (3, 9, Override::Keep),
];

/// Chooses for the connection from an arrival to a departure, if there is room.
fn choose(trains: &mut Trains, feeder: u32, train: u32, choice: Override) {
    if trains.spare_overrides() > 0 {
        trains.set_override(node(feeder, 1, false), node(train, 0, true), choice);
    }
}

/// Trains with these choices.
fn chosen(alloc: Global) -> Result<Trains, OutOfMemory> {
    let mut trains = loaded(alloc)?;
    for (feeder, train, choice) in CHOICES {
        choose(&mut trains, feeder, train, choice);
    }
    Ok(trains)
}

/// A copy of them, of which one connection is given back to its rule.
fn chosen_copy(alloc: Global) -> Result<Trains, OutOfMemory> {
    let mut trains = chosen(alloc)?;
    trains.clear_override(node(5, 1, false), node(0, 0, true));
    trains.copy(alloc)
}

/// The numbers of the trains of these events.
fn numbers(alloc: Global, keeps: Keeps<'_>) -> Result<Vec<u32>, OutOfMemory> {
    let mut numbers = Vec::new(alloc);
    for event in keeps {
        numbers.push(event.train.get())?;
    }
    Ok(numbers)
}

/// The trains that are kept for train 0.
fn kept_for(alloc: Global, trains: &Trains) -> Result<Vec<u32>, OutOfMemory> {
    numbers(alloc, trains.keeps_into(node(0, 0, true)))
}

/// The trains for which train 3 is kept.
fn kept_from(alloc: Global, trains: &Trains) -> Result<Vec<u32>, OutOfMemory> {
    numbers(alloc, trains.keeps_from(node(3, 1, false)))
}

#[test]
fn kept_connections(rt: HostRuntime) -> Result<(), Fail> {
    let trains = chosen(rt.alloc())?;
    let into = kept_for(rt.alloc(), &trains)?;
    assert!(rt; into.as_slice() == [3, 5, 7].as_slice());
    let onward = kept_from(rt.alloc(), &trains)?;
    assert!(rt; onward.as_slice() == [0, 9].as_slice());
    Ok(())
}

#[test]
fn a_connection_that_is_given_back(rt: HostRuntime) -> Result<(), Fail> {
    let copy = chosen_copy(rt.alloc())?;
    let into = kept_for(rt.alloc(), &copy)?;
    assert!(rt; into.as_slice() == [3, 7].as_slice());
    assert!(rt; copy.spare_overrides() == 3);
    Ok(())
}

/// The time of a forecast.
fn forecast_time(message: &Msg) -> Option<u32> {
    match message.message() {
        Message::Forecast { time, .. } => Some(time.seconds()),
        _ => None,
    }
}

/// A copy of a forecast.
fn copied_forecast(alloc: Global) -> Result<Msg, OutOfMemory> {
    let message = Message::Forecast {
        node: node(1, 2, true),
        time: Time::new(500),
    };
    Msg::new(message).copy(alloc)
}

#[test]
fn a_message_is_copied(rt: HostRuntime) -> Result<(), Fail> {
    let copy = copied_forecast(rt.alloc())?;
    assert!(rt; forecast_time(&copy) == Some(500));
    Ok(())
}
