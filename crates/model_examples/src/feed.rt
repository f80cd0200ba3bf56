//! The timetable of the examples as data, for the plain program and for tests.

ghost use Rattle.std.specs.Prelude.{◌≡◌, ◌<◌, ◌^◌, ℕ, List, [], ◌∷◌, ◌++◌, IfOk, OnOk};
ghost use Rattle.delay_model.specs.Edges.{edges};
ghost use Rattle.delay_model.specs.Timing.{live_times};
ghost use Rattle.model_examples.specs.TwoTrains.{opts, place, stops, waits_for, network, at, call, t1, t2, start};

use crate::validity::schedule_is_valid;
use delay_model::edges::list_edges;
use delay_model::evaluate::event_times;
use delay_model::events::list_events;
use delay_model::network::Network;
use delay_model::overrides::Overrides;
use delay_model::state::{Call, Edge, EventValues, State, Timed, Train};
use mt_base::memory::OutOfMemory;
use mt_base::names::Name;
use mt_base::numbers::{Day, Label, RouteNo, StopNo, Time};
use mt_base::options::Opts;
use mt_base::places::PlaceKind;
use mt_base::rows::Rows;
use mt_base::tables::{RuleRow, StopRow};
use std::alloc::Global;

/// The options: no slack, and all else as the command has it where nothing is said.
pub fn options() -> Opts
    ensures { result ≡ opts }
{
    Opts {
        slack: 0,
        stop: 60,
        change: 180,
        window: 1_800,
        spare_trains: 200,
        spare_calls: 4_000,
        overrides: 10_000,
    }
}

/// A row of `stops.txt` whose id is one letter.
fn stop(
    alloc: Global,
    letter: &str,
    kind: PlaceKind,
    parent: Option<StopNo>,
) -> Result<StopRow, OutOfMemory>
    ensures { IfOk result (λ row. row ≡ record { id = letter.now; kind = kind; parent = parent }) }
{
    let id = Name::build(alloc, letter)?;
    Ok(StopRow { id, kind, parent })
}

fn list_stops(alloc: Global) -> Result<Vec<StopRow>, OutOfMemory>
    ensures { IfOk result (λ rows. rows.items ≡ stops) }
{
    let station = Some(StopNo::new(1));
    let mut rows = Vec::new(alloc);
    rows.push(stop(alloc, "A", PlaceKind::Platform, None)?)?;
    rows.push(stop(alloc, "B", PlaceKind::Station, None)?)?;
    rows.push(stop(alloc, "C", PlaceKind::Platform, station)?)?;
    rows.push(stop(alloc, "D", PlaceKind::Platform, station)?)?;
    rows.push(stop(alloc, "E", PlaceKind::Platform, None)?)?;
    rows.push(stop(alloc, "F", PlaceKind::Platform, None)?)?;
    Ok(rows)
}

/// The stops and the one waiting rule. `OutOfMemory` where there is no memory.
pub fn build_network(alloc: Global) -> Result<Network, OutOfMemory>
    ensures { IfOk result (λ built. built ≡ network opts) }
{
    let mut rules = Vec::new(alloc);
    rules.push(RuleRow {
        feeder: Some(RouteNo::new(0)),
        connecting: Some(RouteNo::new(1)),
        stop: None,
        max_wait: 300,
    })?;
    Ok(Network {
        stops: Rows::build(list_stops(alloc)?),
        transfers: Rows::build(Vec::new(alloc)),
        rules: Rows::build(rules),
        opts: options(),
    })
}

/// An event without forecast and report.
fn event(scheduled: u32, live: bool) -> EventValues
    requires { scheduled < 2 ^ 25 }
    ensures { result ≡ at scheduled live }
{
    EventValues {
        scheduled: Time::new(scheduled),
        live,
        forecast: None,
        report: None,
    }
}

/// Adds a call at which passengers may board and alight, by the scheduled times of its events and
/// whether they are live.
fn push_call(
    calls: &mut Vec<Call>,
    label: u32,
    stop: u32,
    arrival: (u32, bool),
    departure: (u32, bool),
) -> Result<(), OutOfMemory>
    requires arrival { arrival.0 < 2 ^ 25 }
    requires departure { departure.0 < 2 ^ 25 }
    ensures { OnOk result (calls.new.items ≡ calls.old.items ++ call label stop
        (at arrival.0 arrival.1) (at departure.0 departure.1) ∷ []) }
{
    calls.push(Call {
        label: Label::new(label),
        stop: StopNo::new(stop),
        arrival: event(arrival.0, arrival.1),
        departure: event(departure.0, departure.1),
        board: true,
        alight: true,
    })?;
    Ok(())
}

/// The train that runs from A over the first platform of B to C.
fn first_train(alloc: Global) -> Result<Train, OutOfMemory>
    ensures { IfOk result (λ train. train ≡ t1) }
{
    let mut calls = Vec::new(alloc);
    push_call(&mut calls, 0, 0, (28_800, false), (28_800, true))?;
    push_call(&mut calls, 1, 2, (30_600, true), (30_720, true))?;
    push_call(&mut calls, 2, 4, (32_400, true), (32_400, false))?;
    Ok(Train {
        day: Day::new(0),
        route: RouteNo::new(0),
        next_label: Label::new(3),
        calls: Rows::build(calls),
    })
}

/// The train that runs from the second platform of B to D.
fn second_train(alloc: Global) -> Result<Train, OutOfMemory>
    ensures { IfOk result (λ train. train ≡ t2) }
{
    let mut calls = Vec::new(alloc);
    push_call(&mut calls, 0, 3, (30_960, false), (30_960, true))?;
    push_call(&mut calls, 1, 5, (33_000, true), (33_000, false))?;
    Ok(Train {
        day: Day::new(0),
        route: RouteNo::new(1),
        next_label: Label::new(2),
        calls: Rows::build(calls),
    })
}

/// The two trains before any message. `OutOfMemory` where there is no memory.
pub fn build_schedule(alloc: Global) -> Result<State, OutOfMemory>
    ensures { IfOk result (λ built. built ≡ start opts) }
{
    let mut trains = Vec::new(alloc);
    trains.push(first_train(alloc)?)?;
    trains.push(second_train(alloc)?)?;
    let Opts {
        spare_trains,
        spare_calls,
        overrides,
        ..
    } = options();
    Ok(State {
        trains: Rows::build(trains),
        overrides: Overrides::new(alloc),
        spare_trains,
        spare_calls,
        spare_overrides: overrides,
    })
}

/// The edges before any message, by the plain program. `OutOfMemory` where there is no memory.
pub fn schedule_edges(alloc: Global) -> Result<Vec<Edge>, OutOfMemory>
    ensures { IfOk result (λ all. all.items ≡ edges (network opts) (start opts)) }
{
    let network = build_network(alloc)?;
    let schedule = build_schedule(alloc)?;
    let events = list_events(alloc, schedule.trains.as_slice())?;
    list_edges(alloc, &network, &schedule, &events)
}

/// The event times before any message, by the plain program. `OutOfMemory` where there is no
/// memory.
pub fn schedule_times(alloc: Global) -> Result<Vec<Timed>, OutOfMemory>
    ensures { IfOk result (λ all. all.items ≡ live_times (network opts) (start opts)) }
{
    schedule_is_valid();
    let network = build_network(alloc)?;
    let schedule = build_schedule(alloc)?;
    event_times(alloc, &network, &schedule)
}
