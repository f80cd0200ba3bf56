//! Connections that are kept or dropped, or left to the waiting rules again.

ghost use Rattle.std.specs.Prelude.{◌≡◌, [], ◌∷◌, None, IsTrue, IfOk, OnOk};
ghost use Rattle.std.specs.Result.{result_err};
ghost use Rattle.delay_model.specs.Effect.{effect};
ghost use Rattle.delay_model.specs.Events.{is_live};
ghost use Rattle.delay_model.specs.Messages.{IsWellFormed};
ghost use Rattle.delay_model.specs.Refusals.{refusal, kept_edge, itself_reported, overrides_short};
ghost use Rattle.train_nodes.specs.Kinds.{message_of_choice};
ghost use Rattle.graph_edit.specs.Values.{Gives};
ghost use Rattle.graph_edit.specs.Choices.{no_edge};

use crate::checks::{check_rank, check_unreported};
use delay_model::messages::{Refusal, Short};
use delay_model::overrides::Override;
use delay_model::state::{Edge, EdgeKind};
use edge_rules::Graph;
use mt_base::keys::Node;
use train_nodes::kinds::Choice;

/// Whether a kept or dropped connection, or one that is left to the waiting rules again, is
/// accepted, or why it is refused.
#[tactic(auto, unfolding(delay_model::specs::Refusals::refusal), using(crate::proofs::ChoiceLemmas::refused_first, crate::proofs::ChoiceLemmas::accepted_first))]
pub fn check_choice(g: &Graph, c: &Choice) -> Result<(), Refusal>
    requires well_formed { IsWellFormed (message_of_choice c.now) }
    ensures { Gives result (refusal g.now.network g.now.state (message_of_choice c.now)) }
{
    let edge = kept_edge(g, c)?;
    match c.choice {
        Some(Override::Keep) => {
            check_departure(g, &c.train)?;
            check_rank(&edge)?;
            check_room(g, c)
        }
        Some(Override::Drop) => {
            check_departure(g, &c.train)?;
            check_room(g, c)
        }
        None => Ok(()),
    }
}

/// Changes the graph as an accepted choice for a connection says.
#[tactic(auto, using(crate::proofs::ChoiceLemmas::spare, crate::proofs::ChoiceLemmas::chosen, crate::proofs::ChoiceLemmas::left))]
pub fn apply_choice(g: &mut Graph, c: &Choice)
    requires accepted { refusal g.old.network g.old.state (message_of_choice c.now) ≡ None }
    ensures effect { g.new ≡ record g.old { state = effect g.old.state (message_of_choice c.now) } }
{
    match c.choice {
        Some(choice) => g.set_override(c.feeder, c.train, choice),
        None => g.clear_override(c.feeder, c.train),
    }
}

/// The edge from the arrival to the departure, as it is if the connection is kept, or why there is
/// no such connection.
fn kept_edge(g: &Graph, c: &Choice) -> Result<Edge, Refusal>
    requires well_formed { IsWellFormed (message_of_choice c.now) }
    ensures refused { result_err result ≡ no_edge g.now.network g.now.state c.now.feeder
        c.now.train }
    ensures live { OnOk result (IsTrue (is_live g.now.state c.now.train)) }
    ensures edge { IfOk result (λ edge. kept_edge g.now.network g.now.state c.now.feeder c.now.train
        ≡ edge ∷ []) }
{
    let trains = g.trains();
    if !trains.live(c.feeder) || !trains.live(c.train) {
        return Err(Refusal::Unknown);
    }
    if c.feeder.train == c.train.train {
        return Err(Refusal::NoConnection);
    }
    let from = trains.event(c.feeder);
    let to = trains.event(c.train);
    match g.changes().change(from.stop, to.stop) {
        None => Err(Refusal::NoConnection),
        Some(weight) => Ok(Edge {
            from: from.key,
            to: to.key,
            weight,
            kind: EdgeKind::Kept,
        }),
    }
}

/// Whether a live departure is not reported.
fn check_departure(g: &Graph, n: &Node) -> Result<(), Refusal>
    requires { IsTrue (is_live g.now.state n.now) }
    ensures { Gives result (itself_reported g.now.state n.now) }
{
    let event = g.trains().event(*n);
    check_unreported(&event)
}

/// Whether there is room for what is chosen for the connection.
fn check_room(g: &Graph, c: &Choice) -> Result<(), Refusal>
    ensures { Gives result (overrides_short g.now.state c.now.feeder c.now.train) }
{
    let trains = g.trains();
    if trains.override_of(c.feeder, c.train).is_none() && trains.spare_overrides() == 0 {
        Err(Refusal::Full {
            what: Short::Overrides,
        })
    } else {
        Ok(())
    }
}
