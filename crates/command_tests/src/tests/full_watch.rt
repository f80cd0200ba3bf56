//! A watch with as many journeys as it can have.

use journey_watch::{AddFault, Watch};
use mt_base::journeys::Query;
use mt_base::numbers::{Day, StopNo, Time};
use std::alloc::Global;
use std::test::*;

/// Whether a watch for one journey takes the first, and says of the second that it is full.
fn is_full_with_one(alloc: Global) -> Result<bool, Fail> {
    let query = Query {
        from_stop: StopNo::new(0),
        to_stop: StopNo::new(0),
        time: Time::new(28_800),
    };
    let mut watch = Watch::build(alloc, 1)?;
    let first = watch.add(alloc, 1, Day::new(0), &query, &[]);
    let second = watch.add(alloc, 2, Day::new(0), &query, &[]);
    Ok(first == Ok(()) && second == Err(AddFault::Full))
}

#[test]
fn a_watch_for_one_journey_is_full_with_it(rt: HostRuntime) -> Result<(), Fail> {
    assert!(rt; is_full_with_one(rt.alloc())?);
    Ok(())
}
