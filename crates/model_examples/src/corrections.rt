//! Reports that are corrected or taken back, and forecasts that are withdrawn.

ghost use Rattle.std.specs.Prelude.{◌≡◌, List, [], ◌∷◌, None, Some, map};
ghost use Rattle.delay_model.specs.declared.messages.Message.TheVariants.{Report, Forecast, Correct, Withdraw, Cancel};
ghost use Rattle.delay_model.specs.declared.messages.Refusal.TheVariants.{Unknown, Contradiction};
ghost use Rattle.delay_model.specs.declared.state.Event.{Event as AnEvent};
ghost use Rattle.delay_model.specs.After.{after_messages};
ghost use Rattle.delay_model.specs.Touched.{named, touched};
ghost use Rattle.mt_base.specs.Order.{node_of};
ghost use Rattle.model_examples.specs.TwoTrains.{clock, opts, network, start, times_after, counts_of, Accepts, answer, at_b1, arrival, departure, and_d, left_a, corrected_a, take_back, reported_at_b};

/// Where a report is corrected, the times that follow from it are those of the new time. To correct
/// it to the time that it has changes nothing.
pub fn corrected_report()
    ensures accepted { Accepts opts (left_a (clock 8 5 0) ∷ corrected_a (clock 8 5 0)
        ∷ corrected_a (clock 8 3 0) ∷ []) }
    ensures changed { counts_of opts (left_a (clock 8 5 0) ∷ corrected_a (clock 8 5 0)
        ∷ corrected_a (clock 8 3 0) ∷ []) ≡ 6 ∷ 0 ∷ 6 ∷ [] }
    ensures times { times_after opts (left_a (clock 8 5 0) ∷ corrected_a (clock 8 5 0)
        ∷ corrected_a (clock 8 3 0) ∷ []) ≡ clock 8 3 0 ∷ clock 8 33 0 ∷ clock 8 34 0 ∷ clock 9 2 0
        ∷ clock 8 36 0 ∷ clock 9 10 0 ∷ [] }
{}

/// Where a report is taken back, all is as it was before it: the times, and what is accepted.
pub fn report_taken_back()
    ensures accepted { Accepts opts (left_a (clock 8 5 0) ∷ take_back (departure 0 0) ∷ []) }
    ensures changed { counts_of opts (left_a (clock 8 5 0) ∷ take_back (departure 0 0) ∷ [])
        ≡ 6 ∷ 6 ∷ [] }
    ensures times { times_after opts (left_a (clock 8 5 0) ∷ take_back (departure 0 0) ∷ [])
        ≡ clock 8 0 0 ∷ clock 8 30 0 ∷ clock 8 32 0 ∷ clock 9 0 0 ∷ clock 8 36 0 ∷ clock 9 10 0
        ∷ [] }
    ensures reported { answer opts (left_a (clock 8 5 0) ∷ take_back (departure 0 0) ∷ [])
        (left_a (clock 8 4 0)) ≡ None }
    ensures cancelled { answer opts (left_a (clock 8 5 0) ∷ take_back (departure 0 0) ∷ [])
        (Cancel 0 0 1) ≡ None }
{}

/// A report of the last arrival caps the three events before it. Once it is taken back, they and
/// the arrival are at their times again.
pub fn capped_events_move_back()
    ensures accepted { Accepts opts (Report (arrival 0 2) (clock 7 55 0) ∷ take_back (arrival 0 2)
        ∷ []) }
    ensures changed { counts_of opts (Report (arrival 0 2) (clock 7 55 0) ∷ take_back (arrival 0 2)
        ∷ []) ≡ 4 ∷ 4 ∷ [] }
    ensures capped { times_after opts (Report (arrival 0 2) (clock 7 55 0) ∷ [])
        ≡ clock 7 55 0 ∷ clock 7 55 0 ∷ clock 7 55 0 ∷ clock 7 55 0 ∷ clock 8 36 0 ∷ clock 9 10 0
        ∷ [] }
    ensures times { times_after opts (Report (arrival 0 2) (clock 7 55 0) ∷ take_back (arrival 0 2)
        ∷ []) ≡ clock 8 0 0 ∷ clock 8 30 0 ∷ clock 8 32 0 ∷ clock 9 0 0 ∷ clock 8 36 0
        ∷ clock 9 10 0 ∷ [] }
{}

/// Where a report is taken back that stands before another, that one caps what runs before both.
pub fn next_report_caps()
    ensures accepted { Accepts opts (Report (departure 0 1) (clock 7 50 0) ∷ Report (arrival 0 2)
        (clock 8 10 0) ∷ take_back (departure 0 1) ∷ []) }
    ensures changed { counts_of opts (Report (departure 0 1) (clock 7 50 0) ∷ Report (arrival 0 2)
        (clock 8 10 0) ∷ take_back (departure 0 1) ∷ []) ≡ 3 ∷ 1 ∷ 3 ∷ [] }
    ensures times { times_after opts (Report (departure 0 1) (clock 7 50 0) ∷ Report (arrival 0 2)
        (clock 8 10 0) ∷ take_back (departure 0 1) ∷ []) ≡ clock 8 0 0 ∷ clock 8 10 0
        ∷ clock 8 10 0 ∷ clock 8 10 0 ∷ clock 8 36 0 ∷ clock 9 10 0 ∷ [] }
{}

/// A forecast has no effect beside a report of its event, also where that is corrected, and has its
/// effect again once the report is taken back.
pub fn forecast_holds_again()
    ensures accepted { Accepts opts (Forecast (departure 0 0) (clock 8 10 0) ∷ left_a (clock 8 5 0)
        ∷ corrected_a (clock 8 3 0) ∷ take_back (departure 0 0) ∷ []) }
    ensures changed { counts_of opts (Forecast (departure 0 0) (clock 8 10 0)
        ∷ left_a (clock 8 5 0) ∷ corrected_a (clock 8 3 0) ∷ take_back (departure 0 0) ∷ [])
        ≡ 4 ∷ 6 ∷ 6 ∷ 4 ∷ [] }
    ensures times { times_after opts (Forecast (departure 0 0) (clock 8 10 0)
        ∷ left_a (clock 8 5 0) ∷ corrected_a (clock 8 3 0) ∷ take_back (departure 0 0) ∷ [])
        ≡ clock 8 10 0 ∷ clock 8 40 0 ∷ clock 8 41 0 ∷ clock 9 9 0 ∷ clock 8 36 0 ∷ clock 9 10 0
        ∷ [] }
{}

/// Where a forecast is withdrawn, its event is at its schedule again.
pub fn withdrawn_forecast()
    ensures accepted { Accepts opts (at_b1 (clock 8 36 0) ∷ Withdraw (arrival 0 1) ∷ []) }
    ensures changed { counts_of opts (at_b1 (clock 8 36 0) ∷ Withdraw (arrival 0 1) ∷ [])
        ≡ 5 ∷ 5 ∷ [] }
    ensures times { times_after opts (at_b1 (clock 8 36 0) ∷ Withdraw (arrival 0 1) ∷ [])
        ≡ clock 8 0 0 ∷ clock 8 30 0 ∷ clock 8 32 0 ∷ clock 9 0 0 ∷ clock 8 36 0 ∷ clock 9 10 0
        ∷ [] }
{}

/// A forecast of an event that was reported is withdrawn too. No time changes by that, but it does
/// not hold again once the report is taken back.
pub fn withdrawn_beside_a_report()
    ensures accepted { Accepts opts (Forecast (departure 0 0) (clock 8 10 0) ∷ left_a (clock 8 5 0)
        ∷ Withdraw (departure 0 0) ∷ take_back (departure 0 0) ∷ []) }
    ensures changed { counts_of opts (Forecast (departure 0 0) (clock 8 10 0)
        ∷ left_a (clock 8 5 0) ∷ Withdraw (departure 0 0) ∷ take_back (departure 0 0) ∷ [])
        ≡ 4 ∷ 6 ∷ 0 ∷ 6 ∷ [] }
    ensures times { times_after opts (Forecast (departure 0 0) (clock 8 10 0)
        ∷ left_a (clock 8 5 0) ∷ Withdraw (departure 0 0) ∷ take_back (departure 0 0) ∷ [])
        ≡ clock 8 0 0 ∷ clock 8 30 0 ∷ clock 8 32 0 ∷ clock 9 0 0 ∷ clock 8 36 0 ∷ clock 9 10 0
        ∷ [] }
{}

/// A report is corrected to any time from the report before it to the one behind it, both included,
/// whatever it said itself.
pub fn correction_between_two_reports()
    ensures accepted { Accepts opts reported_at_b }
    ensures at_the_earlier { answer opts reported_at_b
        (Correct (arrival 0 1) (Some (clock 8 5 0))) ≡ None }
    ensures at_the_later { answer opts reported_at_b
        (Correct (arrival 0 1) (Some (clock 8 40 0))) ≡ None }
    ensures before_both { answer opts reported_at_b
        (Correct (arrival 0 1) (Some (clock 8 4 59)))
        ≡ Some (Contradiction (departure 0 0) (clock 8 5 0)) }
    ensures after_both { answer opts reported_at_b
        (Correct (arrival 0 1) (Some (clock 8 40 1)))
        ≡ Some (Contradiction (departure 0 1) (clock 8 40 0)) }
    ensures taken_back { answer opts reported_at_b (take_back (arrival 0 1)) ≡ None }
{}

/// Of several reports that a correction contradicts the first in the train's order is shown, and
/// never the one that it corrects. Those behind a cancelled stretch count too.
pub fn first_contradiction_of_a_correction()
    ensures earlier { answer opts reported_at_b (Correct (departure 0 1) (Some (clock 8 4 0)))
        ≡ Some (Contradiction (departure 0 0) (clock 8 5 0)) }
    ensures later { answer opts reported_at_b (corrected_a (clock 8 45 0))
        ≡ Some (Contradiction (arrival 0 1) (clock 8 36 0)) }
    ensures across_a_gap { answer opts (and_d ∷ Cancel 0 3 1 ∷ left_a (clock 8 0 0)
        ∷ Report (departure 0 1) (clock 8 9 0) ∷ []) (corrected_a (clock 8 10 0))
        ≡ Some (Contradiction (departure 0 1) (clock 8 9 0)) }
{}

/// Nothing is corrected or withdrawn of events that do not take place, also where a forecast of one
/// stands from before it was cancelled.
pub fn correction_of_a_dead_event()
    ensures last_departure { answer opts []
        (Correct (departure 0 2) (Some (clock 9 0 0))) ≡ Some Unknown }
    ensures first_arrival { answer opts [] (Withdraw (arrival 1 0)) ≡ Some Unknown }
    ensures cancelled { answer opts (at_b1 (clock 8 36 0) ∷ Cancel 0 0 1 ∷ [])
        (Withdraw (arrival 0 1)) ≡ Some Unknown }
    ensures no_call { answer opts [] (take_back (arrival 0 3)) ≡ Some Unknown }
    ensures no_train { answer opts [] (Withdraw (arrival 2 0)) ≡ Some Unknown }
{}

/// A correction, with a time or without, names what its report caps and the event; a withdrawal
/// names the event. Both may retime these, and those to which an edge leads from a changed event.
pub fn events_of_corrections()
    ensures corrected { named (after_messages (start opts) reported_at_b)
        (Correct (arrival 0 1) (Some (clock 8 37 0))) ≡ arrival 0 1 ∷ [] }
    ensures first_corrected { named (after_messages (start opts) reported_at_b)
        (corrected_a (clock 8 3 0)) ≡ departure 0 0 ∷ [] }
    ensures taken_back { named (after_messages (start opts) (left_a (clock 8 5 0)
        ∷ Report (arrival 0 2) (clock 8 20 0) ∷ [])) (take_back (arrival 0 2))
        ≡ arrival 0 1 ∷ departure 0 1 ∷ arrival 0 2 ∷ [] }
    ensures across_a_gap { named (after_messages (start opts) (and_d ∷ Cancel 0 3 1
        ∷ Report (departure 0 1) (clock 8 9 0) ∷ [])) (take_back (departure 0 1))
        ≡ departure 0 0 ∷ arrival 0 3 ∷ departure 0 1 ∷ [] }
    ensures withdrawn { named (after_messages (start opts) (at_b1 (clock 8 36 0) ∷ []))
        (Withdraw (arrival 0 1)) ≡ arrival 0 1 ∷ [] }
    ensures retimed { map (λ (v : AnEvent). node_of v.key) (touched (network opts)
        (after_messages (start opts) (left_a (clock 8 5 0)
        ∷ Report (arrival 0 2) (clock 8 20 0) ∷ [])) (take_back (arrival 0 2)))
        ≡ arrival 0 1 ∷ departure 0 1 ∷ arrival 0 2 ∷ departure 1 0 ∷ arrival 1 1 ∷ [] }
    ensures retimed_by_withdrawal { map (λ (v : AnEvent). node_of v.key) (touched (network opts)
        (after_messages (start opts) (at_b1 (clock 8 36 0) ∷ [])) (Withdraw (arrival 0 1)))
        ≡ arrival 0 1 ∷ departure 0 1 ∷ arrival 0 2 ∷ departure 1 0 ∷ arrival 1 1 ∷ [] }
{}
