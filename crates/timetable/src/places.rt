//! Places for the numbers of departures: one for each label of each train.

ghost use Rattle.std.specs.Prelude.{◌≡◌, ◌+◌, ◌<◌, ◌≤◌, All, IfOk, IfSome, Some, [], length};
ghost use Rattle.std.specs.Prelude.{slice_get, sum};
ghost use Rattle.delay_model.specs.Valid.{IsTrain};
ghost use Rattle.dep_order.specs.CallNumbering.{labels_of};
ghost use Rattle.timetable.specs.Settled.{next_labels};

use dep_order::CallNumbers;
use mt_base::memory::OutOfMemory;
use mt_base::numbers::TrainNo;
use std::alloc::{AllocError, Global};
use train_nodes::Trains;

/// How many labels a train has used, which is one at least.
fn label_count(trains: &Trains, t: TrainNo) -> u32
    requires trains { All IsTrain trains.now.trains }
    requires there { t < length trains.now.trains }
    ensures count { slice_get (next_labels trains.now) t ≡ Some result }
    ensures some { 1 ≤ result }
{
    let _ = trains.first_call(t);
    trains.next_label(t).get()
}

/// How many labels all trains have used. None for 2^32 or more.
fn count_labels(trains: &Trains) -> Option<u32>
    requires { All IsTrain trains.now.trains }
    ensures { IfSome result (λ n. n ≡ sum (next_labels trains.now)) }
{
    let mut count: u32 = 0;
    for number in 0..trains.count() {
        count = count.checked_add(label_count(trains, TrainNo::new(number)))?;
    }
    Some(count)
}

/// Places for so many trains and calls as there are, and so many more as are spare. `OutOfMemory`
/// also for 2^31 or more.
fn empty_places(alloc: Global, trains: &Trains) -> Result<CallNumbers, OutOfMemory>
    requires { All IsTrain trains.now.trains }
    ensures { IfOk result (λ numbers. numbers ≡ record {
      trains = [];
      spare_trains = length trains.now.trains + trains.now.spare_trains;
      spare_calls = sum (next_labels trains.now) + trains.now.spare_calls;
    }) }
{
    let Some(labels) = count_labels(trains) else {
        return Err(AllocError);
    };
    let Some(calls) = labels.checked_add(trains.spare_calls()) else {
        return Err(AllocError);
    };
    let Some(count) = trains.count().checked_add(trains.spare_trains()) else {
        return Err(AllocError);
    };
    CallNumbers::with_room(alloc, count, calls)
}

/// A place for the number of a departure for each label of each train, none of them set, with room
/// for those of the trains and calls that are spare. `OutOfMemory` also where these are 2^31 or
/// more.
pub(crate) fn places_for(alloc: Global, trains: &Trains) -> Result<CallNumbers, OutOfMemory>
    requires { All IsTrain trains.now.trains }
    ensures labels { IfOk result (λ numbers. labels_of numbers ≡ next_labels trains.now) }
    ensures spare_trains { IfOk result (λ numbers.
        numbers.spare_trains ≡ trains.now.spare_trains) }
    ensures spare_calls { IfOk result (λ numbers. numbers.spare_calls ≡ trains.now.spare_calls) }
{
    let mut numbers = empty_places(alloc, trains)?;
    for number in 0..trains.count() {
        numbers.push_train(label_count(trains, TrainNo::new(number)));
    }
    Ok(numbers)
}
