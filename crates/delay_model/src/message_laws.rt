//! Laws of messages: the state is a function of the list of accepted messages alone.

ghost use Rattle.std.specs.Prelude.{◌≡◌, ◌↔◌, ◌++◌, ℕ, List, true, length, Contains, Err, Ok};
ghost use Rattle.mt_base.specs.declared.new_calls.NewCall.{NewCall as ANewCall};
ghost use Rattle.delay_model.specs.declared.state.State.{State as AState};
ghost use Rattle.delay_model.specs.declared.messages.Message.{Message as AMessage};
ghost use Rattle.delay_model.specs.Refusals.{is_known};
ghost use Rattle.delay_model.specs.After.{after_messages, accepted, known_after, AreAccepted, Reading};
ghost use Rattle.delay_model.specs.Names.{TrainName, IsExtraNumber};

use crate::messages::Message;
use crate::network::Network;
use crate::state::State;

/// The accepted messages of a list of lines are accepted without the other lines too. The accepted
/// messages of more lines begin with those of the first lines, and the rest depends on the first
/// lines only by the state and the names that they left. Lines are of type `X`, and what is known
/// of names is of type `N`.
pub fn accepted_messages_decide<X, N>(nw: &Network, st: &State)
    ensures accepted { (reading : Reading X N) (names : N) (lines : List X) →
        AreAccepted nw.now st.now (accepted nw.now reading st.now names lines) }
    ensures more { (reading : Reading X N) (names : N) (lines others : List X) →
        accepted nw.now reading st.now names (lines ++ others)
        ≡ accepted nw.now reading st.now names lines
        ++ accepted nw.now reading
        (after_messages st.now (accepted nw.now reading st.now names lines))
        (known_after nw.now reading st.now names lines) others }
{}

/// Where the names of all trains stand in the order of their numbers, an extra train is known
/// already exactly where a train has its name.
pub fn extra_trains_are_known_by_name(st: &State)
    ensures { (names : List TrainName) (name : TrainName) (n day route : ℕ) (calls : List ANewCall)
        → length names ≡ length st.now.trains →
        IsExtraNumber names name n → (is_known st.now (Message.Extra n day route calls) ≡ true)
        ↔ Contains names name }
{}
