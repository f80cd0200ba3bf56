//! What no clause says: that queries of `serve` are answered beside one another and beside the
//! messages, each by a look of its own at the timetable. A gate holds each of some threads until
//! others have come somewhere, and no hold may expire.

use crate::tests::example_feed::WITH_RULES;
use crate::tests::held_runs::*;
use crate::tests::{CASE, Case, Ended, is_text, run_at};
use commands::Status;
use mt_io::{Gate, Hold, Point, TurnGate};
use std::alloc::Global;
use std::sync::Wait;
use std::test::*;
use std::thread::Threads;

/// In so many turns another thread comes to where it is waited for, if it ever does.
const TURNS: u64 = 10_000_000;

/// What was seen of a run whose threads are held.
#[derive(Clone, Copy, Debug, PartialEq, Eq)]
pub(super) enum Seen {
    /// One of the outputs that are right, and no hold expired.
    Right,
    /// A hold expired.
    Expired,
    /// Another output.
    Wrong,
}

/// A gate with these holds.
pub(super) fn gate_of(alloc: Global, holds: &[(Point, Point)]) -> Result<TurnGate, Fail> {
    let mut all = Vec::new(alloc);
    for (at, until) in holds {
        all.push(Hold {
            at: *at,
            until: *until,
        })?;
    }
    Ok(TurnGate::build(alloc, all, TURNS)?)
}

/// These lines, each ended by LF.
pub(super) fn text_of(alloc: Global, lines: &[&str]) -> Result<Vec<u8>, Fail> {
    let mut text = Vec::new(alloc);
    for line in lines {
        text.extend_from_slice(line.as_bytes())?;
        text.push(b'\n')?;
    }
    Ok(text)
}

/// What is seen of this output, where the gate has been.
pub(super) fn seen_of(gate: &TurnGate, out: &[u8], outputs: &[&[&str]]) -> Seen {
    if gate.expired() {
        return Seen::Expired;
    }
    for output in outputs {
        if is_text(out, output) {
            return Seen::Right;
        }
    }
    Seen::Wrong
}

/// How `serve` ends on this input.
fn end_of<R: Threads + Wait + Sync, G: Gate + Sync>(
    rt: &R,
    alloc: Global,
    words: &str,
    input: &[u8],
    gate: &G,
) -> Result<Ended, Fail> {
    let case = Case {
        words,
        tables: &WITH_RULES,
        input,
        ..CASE
    };
    run_at(rt, alloc, &case, gate)
}

/// What is seen of a run that ended like this, where the gate has been.
fn seen_at(gate: &TurnGate, ended: &Ended, outputs: &[&[&str]]) -> Seen {
    if ended.status != Status::Ok {
        return Seen::Wrong;
    }
    seen_of(gate, ended.objects.out.bytes(), outputs)
}

/// What is seen of a run on this input.
fn run_on<R: Threads + Wait + Sync>(
    rt: &R,
    alloc: Global,
    run: &HeldRun<'_>,
    input: &[u8],
) -> Result<Seen, Fail> {
    let gate = gate_of(alloc, run.holds)?;
    let ended = end_of(rt, alloc, run.words, input, &gate)?;
    Ok(seen_at(&gate, &ended, run.outputs))
}

/// What is seen of a run.
fn run_held<R: Threads + Wait + Sync>(
    rt: &R,
    alloc: Global,
    run: &HeldRun<'_>,
) -> Result<Seen, Fail> {
    let input = text_of(alloc, run.lines)?;
    run_on(rt, alloc, run, &input)
}

#[test]
fn workers_answer_beside_one_another_and_the_publisher(rt: HostRuntime) -> Result<(), Fail> {
    let seen = run_held(&rt, rt.alloc(), &BESIDE_ONE_ANOTHER)?;
    assert_eq!(rt; seen, Seen::Right);
    Ok(())
}

#[test]
fn workers_answer_beside_one_another_in_the_second_window(rt: HostRuntime) -> Result<(), Fail> {
    let seen = run_held(&rt, rt.alloc(), &IN_THE_SECOND_WINDOW)?;
    assert_eq!(rt; seen, Seen::Right);
    Ok(())
}

#[test]
fn a_worker_and_the_publisher_wait_for_one_another(rt: HostRuntime) -> Result<(), Fail> {
    let seen = run_held(&rt, rt.alloc(), &BESIDE_THE_PUBLISHER)?;
    assert_eq!(rt; seen, Seen::Right);
    Ok(())
}

#[test]
fn a_query_is_answered_between_two_posts(rt: HostRuntime) -> Result<(), Fail> {
    let seen = run_held(&rt, rt.alloc(), &BETWEEN_TWO_POSTS)?;
    assert_eq!(rt; seen, Seen::Right);
    Ok(())
}

#[test]
fn each_query_has_a_look_of_its_own(rt: HostRuntime) -> Result<(), Fail> {
    let seen = run_held(&rt, rt.alloc(), &A_LOOK_FOR_EACH_QUERY)?;
    assert_eq!(rt; seen, Seen::Right);
    Ok(())
}

#[test]
fn two_workers_wait_for_one_another(rt: HostRuntime) -> Result<(), Fail> {
    let seen = run_held(&rt, rt.alloc(), &TWO_WORKERS_AT_ONCE)?;
    assert_eq!(rt; seen, Seen::Right);
    Ok(())
}

#[test]
fn two_looks_of_a_crew_are_open_at_once(rt: HostRuntime) -> Result<(), Fail> {
    let seen = run_held(&rt, rt.alloc(), &TWO_LOOKS_AT_ONCE)?;
    assert_eq!(rt; seen, Seen::Right);
    Ok(())
}

#[test]
fn four_workers_wait_for_one_another(rt: HostRuntime) -> Result<(), Fail> {
    let seen = run_held(&rt, rt.alloc(), &FOUR_WORKERS_AT_ONCE)?;
    assert_eq!(rt; seen, Seen::Right);
    Ok(())
}

#[test]
fn sixteen_workers_answer_many_clients(rt: HostRuntime) -> Result<(), Fail> {
    let seen = run_held(&rt, rt.alloc(), &MANY_CLIENTS)?;
    assert_eq!(rt; seen, Seen::Right);
    Ok(())
}
