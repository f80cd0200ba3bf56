//! Names and trains stay in step.

ghost use Rattle.std.specs.Prelude.{◌≡◌, ◌<◌, ℕ, List, None, length};
ghost use Rattle.mt_base.specs.declared.new_calls.NewCall.{NewCall};
ghost use Rattle.delay_model.specs.Effect.{effect};
ghost use Rattle.delay_model.specs.Refusals.{refusal};
ghost use Rattle.delay_model.specs.declared.messages.Message.{Message};
ghost use Rattle.delay_model.specs.declared.messages.Message.TheVariants.{Extra};
ghost use Rattle.delay_model.specs.declared.network.Network.{Network};
ghost use Rattle.delay_model.specs.declared.state.State.{State};
ghost use Rattle.schedule_build.specs.Directory.{Names};
ghost use Rattle.schedule_build.specs.InStep.{AreInStep, IsNewTrain, names_after_message};

/// Each message keeps names and trains in step, where the name of a train that it adds is added
/// too. An extra train that is accepted has the next number, and there is room for its name.
pub fn messages_keep_names_in_step()
    ensures kept { (names : Names) (st : State) (trip : List ℕ) (m : Message)
        → AreInStep names st → IsNewTrain trip names m
        → AreInStep (names_after_message trip names m) (effect st m) }
    ensures next { (nw : Network) (names : Names) (st : State)
        (n day route : ℕ) (calls : List NewCall) → AreInStep names st
        → refusal nw st (Extra n day route calls) ≡ None
        → (n ≡ length names.trains) × (0 < names.spare_trains) }
{}
