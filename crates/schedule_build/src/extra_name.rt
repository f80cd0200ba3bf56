//! The name of an extra train that is not there yet.

ghost use Rattle.std.specs.Prelude.{◌≡◌, ◌<◌, IfOk};
ghost use Rattle.schedule_build.specs.StoredExtras.{name_of};

use mt_base::memory::OutOfMemory;
use mt_base::names::Name;
use mt_base::numbers::Day;
use std::alloc::Global;
use std::marker::Model;

/// The name of an extra train: its trip and its service day. It owns its text, so that the train
/// can be added without memory.
#[derive(Drop)]
pub struct ExtraName {
    trip: Name,
    day: Day,
}

impl Model for ExtraName {
    ghost use Rattle.delay_model.specs.Names.{TrainName};

    ghost Value = { TrainName };

    ghost use Rattle.std.specs.Prelude.{◌<◌};
    ghost use Rattle.schedule_build.specs.StoredExtras.{name_of};

    ghost view = { λ n. name_of n.trip n.day };

    ghost invariant = { λ n. n.day < 31 };
}

impl ExtraName {
    /// The name of the train of a trip on a loaded service day.
    pub(crate) fn build(alloc: Global, trip: &str, day: Day) -> Result<ExtraName, OutOfMemory>
        requires loaded { day < 31 }
        ensures { IfOk result (λ n. n ≡ name_of trip.now day) }
    {
        Ok(ExtraName {
            trip: Name::build(alloc, trip)?,
            day,
        })
    }

    /// The `trip_id` of the train.
    pub fn trip(&self) -> &str
        ensures { result.now ≡ self.now.trip }
    {
        self.trip.text()
    }

    /// The service day of the train.
    pub fn day(&self) -> Day
        ensures day { result ≡ self.now.day }
        ensures loaded { result < 31 }
    {
        self.day
    }
}
