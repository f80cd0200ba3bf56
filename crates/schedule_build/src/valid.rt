//! The schedule is a valid state.

ghost use Rattle.std.specs.Prelude.{◌≡◌, ◌≤◌, None, All};
ghost use Rattle.mt_base.specs.Options.{IsInRange};
ghost use Rattle.delay_model.specs.declared.network.Network.{Network as ANetwork};
ghost use Rattle.delay_model.specs.Events.{events};
ghost use Rattle.delay_model.specs.Valid.{HasRoom, IsValid};
ghost use Rattle.schedule_build.specs.Bases.{AreBases};
ghost use Rattle.schedule_build.specs.Runs.{all_runs};
ghost use Rattle.schedule_build.specs.Schedule.{too_many, schedule};

use feed_tables::FeedTables;
use mt_base::numbers::Time;
use mt_base::options::Opts;
use mt_base::rows::Rows;

/// The trains of so many service days from the date `first` on, which have these bases, are a valid
/// state, whatever the stops, the change times and the waiting rules: along each train the times do
/// not fall, and a planned connection leads to a later departure. No event is reported. Where there
/// are not too many trains and events, their numbers leave room for what the options spare.
pub fn schedules_are_valid(t: &FeedTables, first: u32, days: u32, opts: &Opts, bases: &Rows<Time>)
    requires few_days { days ≤ 31 }
    requires bases { AreBases days bases.now }
    requires options { IsInRange opts.now }
    ensures valid { (nw : ANetwork) → nw.opts ≡ opts.now
        → IsValid nw (schedule t.now first days bases.now opts.now) }
    ensures unreported { All (λ v. v.report ≡ None)
        (events (schedule t.now first days bases.now opts.now)) }
    ensures room { too_many t.now.calls (all_runs t.now first days bases.now) ≡ None
        → HasRoom (schedule t.now first days bases.now opts.now) }
{
    // The tables are read, so that the check knows that they are lawful.
    let _ = t.tables();
}
