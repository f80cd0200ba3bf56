//! Whether nothing but the schedule is known of any event.

ghost use Rattle.std.specs.Prelude.{◌≡◌};
ghost use Rattle.std.specs.List.{list_all};
ghost use Rattle.delay_model.specs.Events.{events, train_events};
ghost use Rattle.timetable.specs.Scheduled.{has_schedule_alone};

use mt_base::numbers::TrainNo;
use train_nodes::Trains;

/// Whether no event of a train has a forecast or a report.
fn train_has_schedule_alone(trains: &Trains, train: TrainNo) -> bool
    ensures { result ≡ list_all has_schedule_alone (train_events trains.now train) }
{
    for event in trains.events(train) {
        if event.forecast.is_some() || event.report.is_some() {
            return false;
        }
    }
    true
}

/// Whether no event of any train has a forecast or a report.
pub(crate) fn have_schedule_alone(trains: &Trains) -> bool
    ensures { result ≡ list_all has_schedule_alone (events trains.now) }
{
    for number in 0..trains.count() {
        if !train_has_schedule_alone(trains, TrainNo::new(number)) {
            return false;
        }
    }
    true
}
