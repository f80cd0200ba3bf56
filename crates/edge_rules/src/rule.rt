//! The parts of the rule for the time of an event.

ghost use Rattle.std.specs.Prelude.{◌≡◌, ◌∷◌, ◌<◌, ◌^◌, [], IsTrue, unwrap_or};
ghost use Rattle.mt_base.specs.Order.{node_of};
ghost use Rattle.delay_model.specs.Timing.{capped, counts, floor_of, later_of};
ghost use Rattle.train_nodes.specs.Calls.{has_event};
ghost use Rattle.train_nodes.specs.Reports.{report_after};
ghost use Rattle.edge_rules.specs.Asking.{IsLater, IsReady};

use delay_model::state::{Edge, EdgeKind, Event};
use mt_base::numbers::Time;
use std::sync::ledger::Ledger;
use train_nodes::{NodeTimes, Steps, Trains};

/// The earliest time of an event by schedule and forecast, in seconds from the base of day 0.
#[inline(always)]
pub fn floor(event: &Event) -> u32
    ensures value { result ≡ floor_of event.now }
    ensures small { result < 2 ^ 25 }
{
    let scheduled = event.key.time.seconds();
    match event.forecast {
        None => scheduled,
        Some(forecast) if event.key.dep => scheduled.max(forecast.seconds()),
        Some(forecast) => forecast.seconds(),
    }
}

/// Whether an edge counts that asks for this time, in seconds from the base of day 0: along a train,
/// or kept, always; else not past the schedule and the wait.
#[inline(always)]
pub fn counts(edge: &Edge, asked: u32) -> bool
    ensures { result ≡ counts edge.now.kind edge.now.to.time asked }
{
    match edge.kind {
        EdgeKind::Train | EdgeKind::Kept => true,
        EdgeKind::Planned { wait } => {
            u64::from(asked) <= u64::from(edge.to.time.seconds()) + u64::from(wait)
        }
    }
}

/// The later of a time and of what an edge asks for, if it counts.
#[inline(always)]
fn later(edge: &Edge, so_far: u32, asked: u32) -> u32
    ensures { result ≡ later_of edge.now so_far asked }
{
    if counts(edge, asked) {
        so_far.max(asked)
    } else {
        so_far
    }
}

/// The later of a time and of what an edge asks for by the stored time of the event that it leaves.
/// To read that takes a step.
#[inline(always)]
pub(crate) fn later_by<L: Ledger>(
    edge: &Edge,
    so_far: u32,
    times: &NodeTimes,
    steps: &mut Steps<L>,
) -> u32
    requires ready { IsReady times.now edge.now }
    requires small { so_far < 2 ^ 25 }
    ensures { IsLater times.now so_far steps.old (edge.now ∷ []) result steps.new }
{
    let asked = times.read(edge.from.node(), steps).seconds() + edge.weight;
    later(edge, so_far, asked)
}

/// The time of an event by the reports of its train: its own report, or else what is asked for, but
/// no later than the next report.
#[inline(always)]
pub(crate) fn by_reports(trains: &Trains, event: &Event, asked: u32) -> Time
    requires there { IsTrue (has_event trains.now (node_of event.now.key)) }
    requires small { asked < 2 ^ 25 }
    ensures { result ≡ unwrap_or event.now.report
        (capped (report_after trains.now (node_of event.now.key)) asked) }
{
    if let Some(report) = event.report {
        return report;
    }
    match trains.next_report(event.key.node()) {
        Some(cap) => Time::new(asked.min(cap.seconds())),
        None => Time::new(asked),
    }
}
