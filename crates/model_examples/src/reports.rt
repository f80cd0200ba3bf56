//! What took place, and what contradicts it.

ghost use Rattle.std.specs.Prelude.{◌≡◌, List, [], ◌∷◌, None, Some, map};
ghost use Rattle.delay_model.specs.declared.messages.Message.TheVariants.{Forecast, Report, Cancel};
ghost use Rattle.delay_model.specs.declared.messages.Refusal.TheVariants.{Unknown, Contradiction};
ghost use Rattle.delay_model.specs.declared.state.Event.{Event as AnEvent};
ghost use Rattle.delay_model.specs.After.{after_messages, accepted};
ghost use Rattle.delay_model.specs.Touched.{touched};
ghost use Rattle.mt_base.specs.Order.{node_of};
ghost use Rattle.model_examples.specs.TwoTrains.{by_number, clock, opts, network, start, times_after, counts_of, Accepts, answer, at_b1, arrival, departure, and_d, over_d, extra};

/// A train is not reported at a stop before it was reported to have left the one before.
pub fn report_and_contradiction()
    ensures accepted { Accepts opts (Report (departure 0 0) (clock 8 5 0) ∷ []) }
    ensures changed { counts_of opts (Report (departure 0 0) (clock 8 5 0) ∷ []) ≡ 6 ∷ [] }
    ensures refused { answer opts (Report (departure 0 0) (clock 8 5 0) ∷ [])
        (Report (arrival 0 1) (clock 8 4 0)) ≡ Some (Contradiction (departure 0 0) (clock 8 5 0)) }
    ensures same_second { answer opts (Report (departure 0 0) (clock 8 5 0) ∷ [])
        (Report (arrival 0 1) (clock 8 5 0)) ≡ None }
    ensures times { times_after opts (Report (departure 0 0) (clock 8 5 0) ∷ [])
        ≡ clock 8 5 0 ∷ clock 8 35 0 ∷ clock 8 36 0 ∷ clock 9 4 0 ∷ clock 8 38 0 ∷ clock 9 12 0
        ∷ [] }
{}

/// The same report again is accepted and changes nothing.
pub fn same_report_again()
    ensures accepted { Accepts opts (Report (departure 0 0) (clock 8 5 0) ∷ Report (departure 0 0)
        (clock 8 5 0) ∷ []) }
    ensures changed { counts_of opts (Report (departure 0 0) (clock 8 5 0) ∷ Report (departure 0 0)
        (clock 8 5 0) ∷ []) ≡ 6 ∷ 0 ∷ [] }
{}

/// Another report of the event is refused, and a forecast of it too, but for one at just the
/// reported time.
pub fn another_report()
    ensures report { answer opts (Report (departure 0 0) (clock 8 5 0) ∷ [])
        (Report (departure 0 0) (clock 8 5 1))
        ≡ Some (Contradiction (departure 0 0) (clock 8 5 0)) }
    ensures forecast { answer opts (Report (departure 0 0) (clock 8 5 0) ∷ [])
        (Forecast (departure 0 0) (clock 8 4 59))
        ≡ Some (Contradiction (departure 0 0) (clock 8 5 0)) }
    ensures accepted { Accepts opts (Report (departure 0 0) (clock 8 5 0) ∷ Forecast (departure 0 0)
        (clock 8 5 0) ∷ []) }
    ensures changed { counts_of opts (Report (departure 0 0) (clock 8 5 0)
        ∷ Forecast (departure 0 0) (clock 8 5 0) ∷ []) ≡ 6 ∷ 0 ∷ [] }
{}

/// What runs before a reported event is not later than its report, whatever was forecast.
pub fn report_caps_what_runs_before_it()
    ensures accepted { Accepts opts (Forecast (departure 0 0) (clock 8 10 0)
        ∷ Report (arrival 0 1) (clock 8 9 0) ∷ []) }
    ensures changed { counts_of opts (Forecast (departure 0 0) (clock 8 10 0)
        ∷ Report (arrival 0 1) (clock 8 9 0) ∷ []) ≡ 4 ∷ 4 ∷ [] }
    ensures forecast { times_after opts (Forecast (departure 0 0) (clock 8 10 0) ∷ [])
        ≡ clock 8 10 0 ∷ clock 8 40 0 ∷ clock 8 41 0 ∷ clock 9 9 0 ∷ clock 8 36 0 ∷ clock 9 10 0
        ∷ [] }
    ensures reported { times_after opts (Forecast (departure 0 0) (clock 8 10 0)
        ∷ Report (arrival 0 1) (clock 8 9 0) ∷ []) ≡ clock 8 9 0 ∷ clock 8 9 0 ∷ clock 8 32 0
        ∷ clock 9 0 0 ∷ clock 8 36 0 ∷ clock 9 10 0 ∷ [] }
{}

/// Of several reports that a message contradicts the first in the train's order is shown.
pub fn first_contradiction_is_shown()
    ensures accepted { Accepts opts (Report (departure 0 0) (clock 8 5 0) ∷ Report (departure 0 1)
        (clock 8 40 0) ∷ []) }
    ensures earlier { answer opts (Report (departure 0 0) (clock 8 5 0) ∷ Report (departure 0 1)
        (clock 8 40 0) ∷ []) (Report (arrival 0 2) (clock 8 4 0))
        ≡ Some (Contradiction (departure 0 0) (clock 8 5 0)) }
    ensures later { answer opts (Report (departure 0 0) (clock 8 5 0) ∷ Report (departure 0 1)
        (clock 8 40 0) ∷ []) (Report (arrival 0 1) (clock 8 41 0))
        ≡ Some (Contradiction (departure 0 1) (clock 8 40 0)) }
    ensures between { answer opts (Report (departure 0 0) (clock 8 5 0) ∷ Report (departure 0 1)
        (clock 8 40 0) ∷ []) (Report (arrival 0 1) (clock 8 40 0)) ≡ None }
{}

/// Nothing is known of events that do not take place: at the ends of a train's run, after a
/// cancellation, or of no train.
pub fn dead_event_is_unknown()
    ensures last_departure { answer opts [] (Report (departure 0 2) (clock 9 0 0)) ≡ Some Unknown }
    ensures first_arrival { answer opts [] (Forecast (arrival 1 0) (clock 8 36 0)) ≡ Some Unknown }
    ensures cancelled { answer opts (Cancel 0 0 1 ∷ []) (at_b1 (clock 8 36 0)) ≡ Some Unknown }
    ensures no_call { answer opts [] (Report (arrival 0 3) (clock 8 30 0)) ≡ Some Unknown }
    ensures no_train { answer opts [] (Report (arrival 2 0) (clock 8 30 0)) ≡ Some Unknown }
{}

/// A cancelled stretch passes no delay on, so that the part after it can run before a late part
/// before it.
pub fn gap_passes_no_delay()
    ensures accepted { Accepts opts (and_d ∷ Cancel 0 3 1 ∷ Forecast (departure 0 0) (clock 8 30 0)
        ∷ []) }
    ensures changed { counts_of opts (and_d ∷ Cancel 0 3 1 ∷ Forecast (departure 0 0) (clock 8 30 0)
        ∷ []) ≡ 2 ∷ 2 ∷ 2 ∷ [] }
    ensures times { times_after opts (and_d ∷ Cancel 0 3 1 ∷ Forecast (departure 0 0) (clock 8 30 0)
        ∷ []) ≡ clock 8 30 0 ∷ clock 8 40 0 ∷ clock 8 32 0 ∷ clock 9 0 0 ∷ clock 8 36 0
        ∷ clock 9 10 0 ∷ [] }
{}

/// A report behind a cancelled stretch counts before it: as a cap, and against other reports.
pub fn report_counts_across_a_gap()
    ensures accepted { Accepts opts (and_d ∷ Cancel 0 3 1 ∷ Report (departure 0 1) (clock 8 9 0)
        ∷ []) }
    ensures changed { counts_of opts (and_d ∷ Cancel 0 3 1 ∷ Report (departure 0 1) (clock 8 9 0)
        ∷ []) ≡ 2 ∷ 2 ∷ 2 ∷ [] }
    ensures times { times_after opts (and_d ∷ Cancel 0 3 1 ∷ Report (departure 0 1) (clock 8 9 0)
        ∷ []) ≡ clock 8 0 0 ∷ clock 8 9 0 ∷ clock 8 9 0 ∷ clock 9 0 0 ∷ clock 8 36 0 ∷ clock 9 10 0
        ∷ [] }
    ensures refused { answer opts (and_d ∷ Cancel 0 3 1 ∷ Report (departure 0 1) (clock 8 9 0) ∷ [])
        (Report (arrival 0 3) (clock 8 10 0)) ≡ Some (Contradiction (departure 0 1) (clock 8 9 0)) }
{}

/// A report is the time of its event, also where that is before its schedule, and where a
/// connection would hold the train.
pub fn report_is_the_time()
    ensures accepted { Accepts opts (Report (departure 0 0) (clock 7 55 0) ∷ at_b1 (clock 8 36 0)
        ∷ Report (departure 1 0) (clock 8 35 0) ∷ []) }
    ensures changed { counts_of opts (Report (departure 0 0) (clock 7 55 0) ∷ at_b1 (clock 8 36 0)
        ∷ Report (departure 1 0) (clock 8 35 0) ∷ []) ≡ 1 ∷ 5 ∷ 2 ∷ [] }
    ensures times { times_after opts (Report (departure 0 0) (clock 7 55 0) ∷ at_b1 (clock 8 36 0)
        ∷ Report (departure 1 0) (clock 8 35 0) ∷ []) ≡ clock 7 55 0 ∷ clock 8 36 0 ∷ clock 8 37 0
        ∷ clock 9 5 0 ∷ clock 8 35 0 ∷ clock 9 10 0 ∷ [] }
{}

/// A message that is refused changes nothing, and those after it are judged as if it had not come.
pub fn refused_message_changes_nothing()
    ensures { accepted (network opts) by_number (start opts) 0
        (Report (arrival 0 3) (clock 8 30 0) ∷ at_b1 (clock 8 36 0) ∷ [])
        ≡ at_b1 (clock 8 36 0) ∷ [] }
{}

/// The live events that a message may retime: those that it names, and those to which an edge leads
/// from a changed event.
pub fn touched_events()
    ensures within_the_wait { map (λ (v : AnEvent). node_of v.key)
        (touched (network opts) (start opts) (at_b1 (clock 8 36 0))) ≡ arrival 0 1 ∷ departure 0 1
        ∷ arrival 0 2 ∷ departure 1 0 ∷ arrival 1 1 ∷ [] }
    ensures past_the_wait { map (λ (v : AnEvent). node_of v.key)
        (touched (network opts) (start opts) (at_b1 (clock 8 38 1))) ≡ arrival 0 1 ∷ departure 0 1
        ∷ arrival 0 2 ∷ departure 1 0 ∷ [] }
    ensures no_effect { map (λ (v : AnEvent). node_of v.key)
        (touched (network opts) (start opts) (at_b1 (clock 8 30 0))) ≡ arrival 0 1 ∷ [] }
    ensures reported { map (λ (v : AnEvent). node_of v.key)
        (touched (network opts) (start opts) (Report (arrival 0 2) (clock 8 50 0)))
        ≡ departure 0 0 ∷ arrival 0 1 ∷ departure 0 1 ∷ arrival 0 2 ∷ [] }
    ensures after_a_report { map (λ (v : AnEvent). node_of v.key)
        (touched (network opts)
        (after_messages (start opts) (Report (departure 0 0) (clock 8 5 0) ∷ []))
        (Report (arrival 0 2) (clock 9 10 0))) ≡ arrival 0 1 ∷ departure 0 1 ∷ arrival 0 2
        ∷ [] }
    ensures rerouted { map (λ (v : AnEvent). node_of v.key)
        (touched (network opts) (start opts) over_d) ≡ arrival 0 3 ∷ departure 0 3 ∷ arrival 0 2
        ∷ departure 1 0 ∷ [] }
    ensures cancelled { map (λ (v : AnEvent). node_of v.key)
        (touched (network opts) (start opts) (Cancel 0 0 1)) ≡ departure 0 1 ∷ departure 1 0 ∷ [] }
    ensures added { map (λ (v : AnEvent). node_of v.key)
        (touched (network opts) (start opts) (extra 2)) ≡ departure 2 0 ∷ arrival 2 1 ∷ [] }
{}
