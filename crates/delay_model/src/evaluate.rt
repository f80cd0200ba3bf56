//! The times of all events of a state, afresh: each event after those that feed it.

ghost use Rattle.std.specs.Prelude.{◌≡◌, ℕ, ◌+◌, ◌<◌, ◌^◌, true, length, IfOk, All, Contains, fold, filter, map, unwrap_or};
ghost use Rattle.std.specs.List.Sorted.{IsPermutation, IsSortedByKey};
ghost use Rattle.mt_base.specs.Order.{key_cmp, is_same};
ghost use Rattle.delay_model.specs.declared.state.Event.{Event as AnEvent};
ghost use Rattle.delay_model.specs.Events.{events, live_report, live_events};
ghost use Rattle.delay_model.specs.Edges.{edges};
ghost use Rattle.delay_model.specs.Timing.{first_report, after_key, cap, floor_of, counts, later_of, later, capped, local, incoming, event_time, timed_by, live_times, time_at};
ghost use Rattle.delay_model.specs.Valid.{IsValid};

use crate::edges::list_edges;
use crate::events::list_events;
use crate::network::Network;
use crate::state::{Edge, EdgeKind, Event, State, Timed};
use mt_base::keys::Key;
use mt_base::memory::OutOfMemory;
use mt_base::numbers::{Time, TrainNo};
use std::alloc::Global;

/// The time that is kept for a key, or 0.
fn find_time(rows: &[Timed], k: &Key) -> u32
    ensures value { result ≡ time_at rows.now k.now }
    ensures small { result < 2 ^ 25 }
{
    for r in rows {
        if r.key.is_same(k) {
            return r.time.seconds();
        }
    }
    0
}

fn live_report(v: &Event) -> Option<Time>
    ensures { result ≡ live_report v.now }
{
    if v.live { v.report } else { None }
}

/// The first report of a live event of the train, among these events.
fn find_report(train: TrainNo, events: &[Event]) -> Option<Time>
    ensures { result ≡ first_report train events.now }
{
    for v in events {
        if v.key.train == train && live_report(v).is_some() {
            return live_report(v);
        }
    }
    None
}

#[tactic(auto, unfolding(crate::specs::Timing::cap))]
/// The report of the next later live event of the train that has one.
fn find_cap(events: &[Event], v: &Event) -> Option<Time>
    ensures { result ≡ first_report v.now.key.train (after_key v.now.key events.now) }
{
    for (i, u) in events.iter().enumerate() {
        if u.key.is_same(&v.key) {
            return find_report(v.key.train, &events[i + 1..]);
        }
    }
    None
}

/// The earliest time by schedule and forecast.
fn floor(v: &Event) -> u32
    ensures value { result ≡ floor_of v.now }
    ensures small { result < 2 ^ 25 }
{
    let scheduled = v.key.time.seconds();
    match v.forecast {
        None => scheduled,
        Some(forecast) if v.key.dep => forecast.seconds().max(scheduled),
        Some(forecast) => forecast.seconds(),
    }
}

/// Whether an edge of this kind counts that asks for a time of an event with this scheduled time.
fn counts(kind: EdgeKind, scheduled: u32, asked: u32) -> bool
    ensures { result ≡ counts kind scheduled asked }
{
    match kind {
        EdgeKind::Train | EdgeKind::Kept => true,
        EdgeKind::Planned { wait } => { u64::from(asked) <= u64::from(scheduled) + u64::from(wait) }
    }
}

/// The later of a time and of what an edge asks for, if it counts.
fn later(e: &Edge, so_far: u32, asked: u32) -> u32
    ensures { result ≡ later_of e.now so_far asked }
{
    if counts(e.kind, e.to.time.seconds(), asked) {
        so_far.max(asked)
    } else {
        so_far
    }
}

/// The latest of the floor of `v` and of what the edges to it ask for.
fn latest(edges: &[Edge], v: &Event, times: &[Timed]) -> u32
    requires fits { All (λ e. is_same e.to v.now.key ≡ true → time_at times.now e.from + e.weight
        < 2 ^ 25) edges.now }
    ensures { result ≡ fold (later (time_at times.now)) (floor_of v.now)
        (filter (λ e. is_same e.to v.now.key) edges.now) }
{
    let mut latest = floor(v);
    for e in edges {
        if e.to.is_same(&v.key) {
            let asked = find_time(times, &e.from) + e.weight;
            latest = later(e, latest, asked);
        }
    }
    latest
}

fn cap_at(cap: Option<Time>, time: u32) -> u32
    ensures { result ≡ capped cap time }
{
    match cap {
        None => time,
        Some(cap) => cap.seconds().min(time),
    }
}

#[tactic(auto, unfolding(crate::specs::Timing::local, crate::specs::Timing::cap, crate::specs::Timing::incoming))]
/// The local rule: the time of `v` from the times of the events that feed it.
fn local(events: &[Event], edges: &[Edge], v: &Event, times: &[Timed]) -> u32
    requires fits { All (λ e. is_same e.to v.now.key ≡ true → time_at times.now e.from + e.weight
        < 2 ^ 25) edges.now }
    ensures { result ≡ local events.now edges.now (time_at times.now) v.now }
{
    match v.report {
        Some(report) => report.seconds(),
        None => cap_at(find_cap(events, v), latest(edges, v, times)),
    }
}

/// The events in the order of their keys.
fn key_order(alloc: Global, events: &[Event]) -> Result<Vec<Event>, OutOfMemory>
    ensures moved { IfOk result (λ order. IsPermutation events.now order.items) }
    ensures sorted { IfOk result (λ order. IsSortedByKey (λ (v : AnEvent).
        v.key) key_cmp order.items) }
{
    let mut order = Vec::from_slice(alloc, events)?;
    order.sort_by_key(|v| v.key)?;
    Ok(order)
}

/// The time of each event, where these are all events of the state.
fn time_all(
    alloc: Global,
    nw: &Network,
    st: &State,
    all_events: &[Event],
) -> Result<Vec<Timed>, OutOfMemory>
    requires few { length st.now.trains < 2 ^ 32 }
    requires valid { IsValid nw.now st.now }
    requires all { all_events.now ≡ events st.now }
    ensures { IfOk result (λ times. (v : AnEvent) → Contains (events st.now) v
        → time_at times.items v.key ≡ event_time nw.now st.now v.key) }
{
    let all_edges = list_edges(alloc, nw, st, all_events)?;
    let order = key_order(alloc, all_events)?;
    let mut times = Vec::new(alloc);
    for v in &order {
        let time = Time::new(local(all_events, &all_edges, v, &times));
        times.push(Timed { key: v.key, time })?;
    }
    Ok(times)
}

/// The live events with their kept times.
fn keep_live(alloc: Global, events: &[Event], times: &[Timed]) -> Result<Vec<Timed>, OutOfMemory>
    ensures { IfOk result (λ all. all.items ≡ map (timed_by (time_at times.now))
        (live_events events.now)) }
{
    let mut all = Vec::new(alloc);
    for v in events {
        if v.live {
            let time = Time::new(find_time(times, &v.key));
            all.push(Timed { key: v.key, time })?;
        }
    }
    Ok(all)
}

/// The times of the live events of a state, by trains and along each train. `OutOfMemory` where
/// there is no memory.
pub fn event_times(alloc: Global, nw: &Network, st: &State) -> Result<Vec<Timed>, OutOfMemory>
    requires few { length st.now.trains < 2 ^ 32 }
    requires valid { IsValid nw.now st.now }
    ensures { IfOk result (λ all. all.items ≡ live_times nw.now st.now) }
{
    let all_events = list_events(alloc, st.trains.as_slice())?;
    let times = time_all(alloc, nw, st, &all_events)?;
    keep_live(alloc, &all_events, &times)
}
