//! Which messages are against rank.

ghost use Rattle.std.specs.Prelude.{◌≡◌, ◌↔◌, true, false, Some, Contains, is_some};
ghost use Rattle.std.specs.List.{list_any};
ghost use Rattle.delay_model.specs.declared.messages.Message.{Message as AMessage};
ghost use Rattle.delay_model.specs.declared.messages.Refusal.{Refusal as ARefusal};
ghost use Rattle.delay_model.specs.declared.state.Edge.{Edge as AnEdge};
ghost use Rattle.delay_model.specs.Edges.{edges};
ghost use Rattle.delay_model.specs.Effect.{effect};
ghost use Rattle.delay_model.specs.Messages.{IsWellFormed};
ghost use Rattle.delay_model.specs.Refusals.{against_rank, against_rank_by, is_against_rank, ComesToRank};
ghost use Rattle.delay_model.specs.Valid.{IsForward, IsValid};

use delay_model::network::Network;
use delay_model::state::State;

/// A well-formed message that no earlier cause refuses is against rank exactly where some edge of
/// the state after it does not lead to a later event by key, or asks for more time than the
/// schedule leaves, whether or not too little is spare for it. The refusal names the two ends of
/// such an edge.
pub fn a_message_against_rank_makes_such_an_edge(nw: &Network, st: &State)
    requires { IsValid nw.now st.now }
    ensures exactly { (m : AMessage) → IsWellFormed m → ComesToRank nw.now st.now m →
        is_some (against_rank nw.now st.now m)
        ≡ list_any is_against_rank (edges nw.now (effect st.now m)) }
    ensures shown { (m : AMessage) (r : ARefusal) → against_rank nw.now st.now m ≡ Some r →
        (e : AnEdge) × Contains (edges nw.now (effect st.now m)) e
        × (is_against_rank e ≡ true) × (r ≡ against_rank_by e) }
    ensures forward { (e : AnEdge) → (is_against_rank e ≡ false) ↔ IsForward e }
{}
