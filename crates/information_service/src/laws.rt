//! What holds of outputs, and of names and trains after lines.

ghost use Rattle.std.specs.Prelude.{ℕ, List};
ghost use Rattle.delay_model.specs.declared.network.Network.{Network};
ghost use Rattle.delay_model.specs.declared.state.State.{State};
ghost use Rattle.delay_model.specs.After.{after_messages};
ghost use Rattle.mt_io.specs.Lines.{Line};
ghost use Rattle.schedule_build.specs.Directory.{Names};
ghost use Rattle.schedule_build.specs.InStep.{AreInStep};
ghost use Rattle.information_service.specs.Alike.{DifferInJourneysAlone};
ghost use Rattle.information_service.specs.Lines.{accepted_of, names_after};
ghost use Rattle.information_service.specs.Output.{IsOutput};

/// Two outputs of the same lines have the same table, and the same reply to each line, but that for
/// a query the one may show another journey than the other, which arrives at the same time.
pub fn outputs_differ_in_journeys_alone()
    ensures { (nw : Network) (names : Names) (st : State) (lines : List Line) (a b : List ℕ) →
        IsOutput nw names st lines a → IsOutput nw names st lines b
        → DifferInJourneysAlone nw names st lines a b }
{}

/// Names and trains that are in step are in step after any lines.
pub fn lines_keep_names_in_step()
    ensures { (nw : Network) (names : Names) (st : State) (lines : List Line) → AreInStep names st
        → AreInStep (names_after nw names st lines)
        (after_messages st (accepted_of nw names st lines)) }
{}
