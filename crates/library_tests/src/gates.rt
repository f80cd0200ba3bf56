//! Gates that hold threads.

use mt_io::{Gate, Hold, NoGate, Point, TurnGate};
use std::alloc::{AllocError, Global};
use std::test::Fail;
use std::thread::join;

const FEW_TURNS: u64 = 10;

const MANY_TURNS: u64 = 10_000_000;

const LOOK_1: Point = Point::BeforeLook { line: 1 };

const LOOK_2: Point = Point::BeforeLook { line: 2 };

const POST_1: Point = Point::AfterPost { line: 1 };

const POST_2: Point = Point::AfterPost { line: 2 };

// A gate with these holds: at the first point of each until its second one.
fn gate_of(alloc: Global, pairs: &[(Point, Point)], turns: u64) -> Result<TurnGate, AllocError> {
    let mut holds = Vec::new(alloc);
    for (at, until) in pairs {
        holds.push(Hold {
            at: *at,
            until: *until,
        })?;
    }
    TurnGate::build(alloc, holds, turns)
}

// A gate with one hold, at the look of line 1 until the post of line 2.
fn look_after_post(alloc: Global) -> Result<TurnGate, AllocError> {
    gate_of(alloc, &[(LOOK_1, POST_2)], FEW_TURNS)
}

// Whether a hold has expired once these points have come, one after another.
fn is_expired_after(gate: &TurnGate, points: &[Point]) -> bool {
    for point in points {
        gate.at(*point);
    }
    gate.expired()
}

#[test]
fn a_hold_expires_where_its_until_does_not_come(rt: HostRuntime) -> Result<(), Fail> {
    let gate = look_after_post(rt.alloc())?;
    let ran_out = is_expired_after(&gate, &[LOOK_2, POST_1, LOOK_1]);
    let stays = is_expired_after(&gate, &[POST_2, LOOK_1]);
    assert!(rt; ran_out, "its wait ran out");
    assert!(rt; stays, "a wait that ran out is not forgotten");
    Ok(())
}

#[test]
fn a_hold_does_not_expire_where_its_until_came_first(rt: HostRuntime) -> Result<(), Fail> {
    let gate = look_after_post(rt.alloc())?;
    assert!(rt; !is_expired_after(&gate, &[POST_2, LOOK_1]));
    Ok(())
}

#[test]
fn a_point_is_noted_before_the_wait(rt: HostRuntime) -> Result<(), Fail> {
    let gate = gate_of(rt.alloc(), &[(POST_1, POST_1)], 0)?;
    assert!(rt; !is_expired_after(&gate, &[POST_1]));
    Ok(())
}

#[test]
fn a_hold_whose_at_does_not_come_counts_as_expired(rt: HostRuntime) -> Result<(), Fail> {
    let gate = look_after_post(rt.alloc())?;
    let before = is_expired_after(&gate, &[]);
    let after = is_expired_after(&gate, &[POST_2]);
    assert!(rt; before, "nothing has come");
    assert!(rt; after, "its until alone has come");
    Ok(())
}

#[test]
fn no_hold_does_not_expire(rt: HostRuntime) -> Result<(), Fail> {
    let none = gate_of(rt.alloc(), &[], FEW_TURNS)?;
    assert!(rt; !is_expired_after(&none, &[LOOK_1]));
    NoGate.at(LOOK_1);
    Ok(())
}

// A gate where the looks of lines 1 and 2 wait for one another.
fn looks_at_once(alloc: Global, turns: u64) -> Result<TurnGate, AllocError> {
    gate_of(alloc, &[(LOOK_1, LOOK_2), (LOOK_2, LOOK_1)], turns)
}

#[test]
fn two_threads_wait_for_one_another(rt: HostRuntime) -> Result<(), Fail> {
    let gate = looks_at_once(rt.alloc(), MANY_TURNS)?;
    join(&rt, || gate.at(LOOK_1), || gate.at(LOOK_2));
    assert!(rt; !gate.expired());
    Ok(())
}

#[test]
fn one_thread_waits_in_vain(rt: HostRuntime) -> Result<(), Fail> {
    let gate = looks_at_once(rt.alloc(), FEW_TURNS)?;
    assert!(rt; is_expired_after(&gate, &[LOOK_1, LOOK_2]));
    Ok(())
}
