//! What accepted messages keep.
#![tactic(auto)]

pub mod rank;
pub mod touched;

ghost use Rattle.std.specs.Prelude.{◌≡◌, List, None, All};
ghost use Rattle.delay_model.specs.declared.messages.Message.{Message as AMessage};
ghost use Rattle.delay_model.specs.After.{after_messages, AreAccepted};
ghost use Rattle.delay_model.specs.Effect.{effect};
ghost use Rattle.delay_model.specs.Messages.{IsWellFormed};
ghost use Rattle.delay_model.specs.Refusals.{refusal};
ghost use Rattle.delay_model.specs.Valid.{HasRoom, IsValid};

use delay_model::network::Network;
use delay_model::state::State;

/// A valid state stays valid: whatever a well-formed message says, the state after it is valid if
/// the message is accepted. So is the state after any list of such messages.
pub fn accepted_messages_keep_states_valid(nw: &Network, st: &State)
    requires { IsValid nw.now st.now }
    ensures one { (m : AMessage) → IsWellFormed m → refusal nw.now st.now m ≡ None
        → IsValid nw.now (effect st.now m) }
    ensures all { (ms : List AMessage) → All IsWellFormed ms → AreAccepted nw.now st.now ms
        → IsValid nw.now (after_messages st.now ms) }
{}

/// The numbers of trains, calls and overrides stay numbers of 32 bits, with those that are spare:
/// an accepted message takes no more than was spare.
pub fn accepted_messages_leave_room(nw: &Network, st: &State)
    requires { HasRoom st.now }
    ensures { (m : AMessage) → refusal nw.now st.now m ≡ None → HasRoom (effect st.now m) }
{}
