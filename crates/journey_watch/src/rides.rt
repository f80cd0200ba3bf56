//! A ride by its name, as it is now.

ghost use Rattle.std.specs.Prelude.{◌≡◌, ◌+◌, ◌≤◌, IsTrue, is_some};
ghost use Rattle.delay_model.specs.Cuts.{after};
ghost use Rattle.delay_model.specs.Effect.{is_call};
ghost use Rattle.delay_model.specs.Events.{calls_of};
ghost use Rattle.delay_model.specs.Valid.{IsValid};
ghost use Rattle.train_nodes.specs.Calls.{has_call};
ghost use Rattle.standing_laws.specs.Standings.{reached_call, ride_now};

use mt_base::certificates::CertRide;
use mt_base::journeys::PlanRide;
use mt_base::keys::Node;
use mt_base::numbers::{Label, TrainNo};
use std::sync::ledger::Ledger;
use timetable::Timetable;
use train_nodes::Steps;

/// Whether a train arrives at the call with the label `alight`, of those after the call with the
/// label `board`, and at each call between them, and departs from each between them.
fn runs_to(t: &Timetable, train: TrainNo, board: Label, alight: Label) -> bool
    requires valid { IsValid t.now.network t.now.state }
    requires there { IsTrue (has_call t.now.state train board) }
    ensures { result ≡ is_some (reached_call alight
        (after (is_call board) (calls_of t.now.state train))) }
{
    let trains = t.graph().trains();
    let mut label = board;
    while let Some(next) = trains.next_call(train, label) {
        if !trains.live(Node::arrival(train, next)) {
            return false;
        }
        if next.get() == alight.get() {
            return true;
        }
        if !trains.live(Node::departure(train, next)) {
            return false;
        }
        label = next;
    }
    false
}

/// The ride of a name, as it is now. None exactly where there is no such train or call, or where
/// the train does not run from the one call to the other. At most two stored times are read.
pub(crate) fn find_ride<L: Ledger>(
    t: &Timetable,
    name: &CertRide,
    steps: &mut Steps<L>,
) -> Option<PlanRide>
    requires { IsValid t.now.network t.now.state }
    ensures ride { result ≡ ride_now t.now.network t.now.state name.now }
    ensures cost { steps.new ≤ steps.old + 2 }
{
    let trains = t.graph().trains();
    let train = name.train;
    if !trains.has(train, name.board) || !runs_to(t, train, name.board, name.alight) {
        return None;
    }
    let board_time = t.time(Node::departure(train, name.board), steps)?;
    let alight_time = t.time(Node::arrival(train, name.alight), steps)?;
    Some(PlanRide {
        train,
        board: name.board,
        board_stop: trains.stop(train, name.board),
        board_time,
        alight: name.alight,
        alight_stop: trains.stop(train, name.alight),
        alight_time,
    })
}
