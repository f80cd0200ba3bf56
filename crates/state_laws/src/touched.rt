//! What accepted messages leave.

ghost use Rattle.std.specs.Prelude.{◌≡◌, true, None, Contains};
ghost use Rattle.delay_model.specs.declared.messages.Message.{Message as AMessage};
ghost use Rattle.delay_model.specs.declared.state.Event.{Event as AnEvent};
ghost use Rattle.delay_model.specs.Effect.{effect};
ghost use Rattle.delay_model.specs.Events.{events};
ghost use Rattle.delay_model.specs.Messages.{IsWellFormed};
ghost use Rattle.delay_model.specs.Refusals.{refusal};
ghost use Rattle.delay_model.specs.Timing.{event_time};
ghost use Rattle.delay_model.specs.Touched.{touched};
ghost use Rattle.delay_model.specs.Valid.{IsValid};

use delay_model::network::Network;
use delay_model::state::State;

/// A live event after an accepted message that the message does not touch was there before it, just
/// as it is, and has the same time: so after a message only the times of touched events need to be
/// found again.
pub fn untouched_events_keep_their_times(nw: &Network, st: &State)
    requires { IsValid nw.now st.now }
    ensures there { (m : AMessage) → IsWellFormed m → refusal nw.now st.now m ≡ None →
        (v : AnEvent) → Contains (events (effect st.now m)) v → v.live ≡ true
        → (Contains (touched nw.now st.now m) v → ⊥) →
        Contains (events st.now) v }
    ensures time { (m : AMessage) → IsWellFormed m → refusal nw.now st.now m ≡ None →
        (v : AnEvent) → Contains (events (effect st.now m)) v → v.live ≡ true
        → (Contains (touched nw.now st.now m) v → ⊥) →
        event_time nw.now (effect st.now m) v.key ≡ event_time nw.now st.now v.key }
{}
