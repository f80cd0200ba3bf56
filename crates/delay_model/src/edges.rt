//! The edges of a state as a list, found by testing all pairs of events.

ghost use Rattle.std.specs.Prelude.{◌≡◌, ◌<◌, ◌^◌, ◌++◌, length, IfOk, OnOk};
ghost use Rattle.std.specs.Option.{option_to_list};
ghost use Rattle.mt_base.specs.Order.{node_of};
ghost use Rattle.delay_model.specs.Overrides.{connection};
ghost use Rattle.delay_model.specs.Events.{events};
ghost use Rattle.delay_model.specs.Edges.{minimum_between, edge_on, edges_along, train_edges, may_connect, is_planned, transfer_kind, transfer, override_of, transfers_from, transfer_edges, edges};

use crate::changes::{change, wait};
use crate::events::list_train_events;
use crate::network::Network;
use crate::overrides::{Connection, Override};
use crate::state::{Edge, EdgeKind, Event, State, Train};
use mt_base::memory::OutOfMemory;
use mt_base::numbers::TrainNo;
use mt_base::options::Opts;
use std::alloc::Global;

/// The minimum time from one event of a train to the next.
fn minimum(opts: &Opts, u: &Event, v: &Event) -> u32
    ensures { result ≡ minimum_between opts.now u.now v.now }
{
    let scheduled = v.key.time.seconds().saturating_sub(u.key.time.seconds());
    if u.key.dep {
        let scheduled = u64::from(scheduled);
        scheduled.saturating_sub(scheduled * u64::from(opts.slack) / 100) as u32
    } else {
        scheduled.min(opts.stop)
    }
}

/// The edge from an event to the first of those after it.
fn edge_on(opts: &Opts, u: &Event, rest: &[Event]) -> Option<Edge>
    ensures { option_to_list result ≡ edge_on opts.now u.now rest.now }
{
    match rest {
        [v, ..] if u.live && v.live => Some(Edge {
            from: u.key,
            to: v.key,
            weight: minimum(opts, u, v),
            kind: EdgeKind::Train,
        }),
        _ => None,
    }
}

/// Adds the edges along one train, whose events these are.
fn push_edges_along(all: &mut Vec<Edge>, opts: &Opts, own: &[Event]) -> Result<(), OutOfMemory>
    ensures { OnOk result (all.new.items ≡ all.old.items ++ edges_along opts.now own.now) }
{
    for (i, u) in own.iter().enumerate() {
        if let Some(edge) = edge_on(opts, u, &own[i + 1..]) {
            all.push(edge)?;
        }
    }
    Ok(())
}

fn push_train_edges(
    alloc: Global,
    all: &mut Vec<Edge>,
    opts: &Opts,
    trains: &[Train],
) -> Result<(), OutOfMemory>
    requires { length trains.now < 2 ^ 32 }
    ensures { OnOk result (all.new.items ≡ all.old.items ++ train_edges opts.now 0 trains.now) }
{
    for (number, train) in trains.iter().enumerate() {
        let own = list_train_events(alloc, TrainNo::new(number as u32), train)?;
        push_edges_along(all, opts, &own)?;
    }
    Ok(())
}

fn may_connect(u: &Event, v: &Event) -> bool
    ensures { result ≡ may_connect u.now v.now }
{
    u.live && v.live && !u.key.dep && v.key.dep && u.key.train != v.key.train
}

/// Whether `v` is planned to be reached from `u`, by a change of so many seconds and a wait of at
/// most so many.
fn is_planned(opts: &Opts, seconds: u32, wait: u32, u: &Event, v: &Event) -> bool
    ensures { result ≡ is_planned opts.now seconds wait u.now v.now }
{
    let earliest = u64::from(u.key.time.seconds()) + u64::from(seconds);
    let scheduled = u64::from(v.key.time.seconds());
    wait > 0 && earliest <= scheduled && scheduled <= earliest + u64::from(opts.window)
}

fn transfer_kind(choice: Option<Override>, planned: bool, wait: u32) -> Option<EdgeKind>
    ensures { result ≡ transfer_kind choice planned wait }
{
    match choice {
        Some(Override::Keep) => Some(EdgeKind::Kept),
        Some(Override::Drop) => None,
        None => planned.then_some(EdgeKind::Planned { wait }),
    }
}

#[tactic(auto, unfolding(crate::specs::Edges::transfer))]
/// The edge between two trains from `u` to `v`, if there is one.
fn transfer(nw: &Network, choice: Option<Override>, u: &Event, v: &Event) -> Option<Edge>
    ensures { option_to_list result ≡ transfer nw.now choice u.now v.now }
{
    if !may_connect(u, v) {
        return None;
    }
    let weight = change(nw, u.stop, v.stop)?;
    let wait = wait(nw, u.route, v.route, v.stop);
    let planned = is_planned(&nw.opts, weight, wait, u, v);
    let kind = transfer_kind(choice, planned, wait)?;
    Some(Edge {
        from: u.key,
        to: v.key,
        weight,
        kind,
    })
}

/// What a dispatcher chose for the connection from `u` to `v`.
fn override_of(st: &State, u: &Event, v: &Event) -> Option<Override>
    ensures { result ≡ override_of st.now u.now v.now }
{
    st.overrides.get(&Connection {
        arrival: u.key.node(),
        departure: v.key.node(),
    })
}

fn push_transfers_from(
    all: &mut Vec<Edge>,
    nw: &Network,
    st: &State,
    events: &[Event],
    u: &Event,
) -> Result<(), OutOfMemory>
    ensures { OnOk result (all.new.items ≡ all.old.items ++ transfers_from nw.now
        (override_of st.now) events.now u.now) }
{
    for v in events {
        if let Some(edge) = transfer(nw, override_of(st, u, v), u, v) {
            all.push(edge)?;
        }
    }
    Ok(())
}

fn push_transfers(
    all: &mut Vec<Edge>,
    nw: &Network,
    st: &State,
    events: &[Event],
) -> Result<(), OutOfMemory>
    ensures { OnOk result (all.new.items ≡ all.old.items ++ transfer_edges nw.now
        (override_of st.now) events.now) }
{
    for u in events {
        push_transfers_from(all, nw, st, events, u)?;
    }
    Ok(())
}

#[tactic(auto, unfolding(crate::specs::Edges::edges))]
/// The edges of a state, whose events these are. `OutOfMemory` where there is no memory.
pub fn list_edges(
    alloc: Global,
    nw: &Network,
    st: &State,
    all_events: &[Event],
) -> Result<Vec<Edge>, OutOfMemory>
    requires few { length st.now.trains < 2 ^ 32 }
    requires all { all_events.now ≡ events st.now }
    ensures { IfOk result (λ all. all.items ≡ edges nw.now st.now) }
{
    let mut all = Vec::new(alloc);
    push_train_edges(alloc, &mut all, &nw.opts, st.trains.as_slice())?;
    push_transfers(&mut all, nw, st, all_events)?;
    Ok(all)
}
