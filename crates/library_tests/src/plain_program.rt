//! The plain program over the example timetable.

use delay_model::events::list_train_events;
use delay_model::overrides::{Connection, Override, Overrides};
use model_examples::feed::{build_schedule, schedule_edges, schedule_times};
use mt_base::keys::Node;
use mt_base::names::Name;
use mt_base::numbers::{Label, TrainNo};
use std::rt::HostRuntime;

fn node(train: u32, label: u32, dep: bool) -> Node {
    Node {
        train: TrainNo::new(train),
        label: Label::new(label),
        dep,
    }
}

#[test]
fn the_plain_program_lists_the_times(rt: HostRuntime) {
    let times = schedule_times(rt.alloc()).expect(&rt, "memory");
    let expected = [28_800, 30_600, 30_720, 32_400, 30_960, 33_000];
    assert!(&rt; times.len() == expected.len());
    for (row, seconds) in times.iter().zip(expected) {
        assert!(&rt; row.time.seconds() == seconds);
    }
}

#[test]
fn the_plain_program_lists_the_edges(rt: HostRuntime) {
    let edges = schedule_edges(rt.alloc()).expect(&rt, "memory");
    let expected = [1_800, 60, 1_680, 2_040, 180];
    assert!(&rt; edges.len() == expected.len());
    for (edge, seconds) in edges.iter().zip(expected) {
        assert!(&rt; edge.weight == seconds);
    }
}

#[test]
fn a_train_has_two_events_a_call(rt: HostRuntime) {
    let schedule = build_schedule(rt.alloc()).expect(&rt, "memory");
    if let Some(train) = schedule.trains.as_slice().first() {
        let events = list_train_events(rt.alloc(), TrainNo::new(0), train).expect(&rt, "memory");
        assert!(&rt; events.len() == 6);
    }
}

#[test]
fn an_override_is_kept_until_it_is_removed(rt: HostRuntime) {
    let connection = Connection {
        arrival: node(0, 1, false),
        departure: node(1, 0, true),
    };
    let mut overrides = Overrides::new(rt.alloc());
    overrides
        .set(connection, Override::Keep)
        .expect(&rt, "memory");
    assert!(&rt; overrides.get(&connection) == Some(Override::Keep));
    overrides.remove(&connection);
    assert!(&rt; overrides.get(&connection).is_none());
}

#[test]
fn a_copied_name_has_the_same_text(rt: HostRuntime) {
    let name = Name::build(rt.alloc(), "Bruck 1").expect(&rt, "memory");
    let copy = name.copy(rt.alloc()).expect(&rt, "memory");
    assert!(&rt; copy.text() == "Bruck 1");
}
