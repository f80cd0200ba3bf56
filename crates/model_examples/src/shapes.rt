//! Trains that are cancelled on a stretch, rerouted, or added.

ghost use Rattle.std.specs.Prelude.{◌≡◌, ℕ, List, [], ◌∷◌, None, Some};
ghost use Rattle.delay_model.specs.declared.messages.Message.TheVariants.{Report, Forecast, Cancel, Reroute, Extra};
ghost use Rattle.delay_model.specs.declared.messages.Refusal.TheVariants.{Unknown, Known, Contradiction, AgainstRank, Full};
ghost use Rattle.delay_model.specs.declared.messages.Short.TheVariants.{Trains, Calls};
ghost use Rattle.delay_model.specs.After.{after_messages, accepted};
ghost use Rattle.model_examples.specs.TwoTrains.{clock, opts, start, stop_a, station_b, stop_c, stop_d, times_after, counts_of, Accepts, answer, labels, at_b1, arrival, departure, new, by_d, over_d, extra, network, next_extra};

/// A feeder that does not come is not waited for.
pub fn cancelled_feeder_holds_nobody()
    ensures accepted { Accepts opts (at_b1 (clock 8 36 0) ∷ Cancel 0 0 1 ∷ []) }
    ensures changed { counts_of opts (at_b1 (clock 8 36 0) ∷ Cancel 0 0 1 ∷ []) ≡ 5 ∷ 6 ∷ [] }
    ensures times { times_after opts (at_b1 (clock 8 36 0) ∷ Cancel 0 0 1 ∷ [])
        ≡ clock 8 32 0 ∷ clock 9 0 0 ∷ clock 8 36 0 ∷ clock 9 10 0 ∷ [] }
{}

/// To cancel again what is cancelled is accepted and changes nothing. No train is cancelled against
/// its direction.
pub fn cancelled_again()
    ensures accepted { Accepts opts (Cancel 0 0 2 ∷ Cancel 0 1 2 ∷ []) }
    ensures changed { counts_of opts (Cancel 0 0 2 ∷ Cancel 0 1 2 ∷ []) ≡ 4 ∷ 0 ∷ [] }
    ensures backwards { answer opts [] (Cancel 0 2 1) ≡ Some Unknown }
    ensures one_call { answer opts [] (Cancel 0 1 1) ≡ Some Unknown }
{}

/// What was reported is not cancelled. A train is not rerouted where anything after the first
/// call's departure was reported.
pub fn reported_stays()
    ensures cancelled { answer opts (Report (arrival 0 2) (clock 9 0 0) ∷ []) (Cancel 0 1 2)
        ≡ Some (Contradiction (arrival 0 2) (clock 9 0 0)) }
    ensures before_it { answer opts (Report (arrival 0 2) (clock 9 0 0) ∷ []) (Cancel 0 0 1)
        ≡ None }
    ensures rerouted { answer opts (Report (arrival 0 2) (clock 9 0 0) ∷ []) (Reroute 0 0 1 [])
        ≡ Some (Contradiction (arrival 0 2) (clock 9 0 0)) }
    ensures after_it { answer opts (Report (departure 0 0) (clock 8 0 0) ∷ []) over_d ≡ None }
{}

/// A train that is rerouted calls at the new stop under a new label, and no longer at the old one.
pub fn reroute_over_another_stop()
    ensures accepted { Accepts opts (over_d ∷ Report (arrival 0 3) (clock 8 42 0) ∷ []) }
    ensures changed { counts_of opts (over_d ∷ Report (arrival 0 3) (clock 8 42 0) ∷ [])
        ≡ 4 ∷ 3 ∷ [] }
    ensures old_call { answer opts (over_d ∷ []) (Report (arrival 0 1) (clock 8 30 0))
        ≡ Some Unknown }
    ensures new_labels { labels (after_messages (start opts) (over_d ∷ [])) 0 ≡ 0 ∷ 3 ∷ 2 ∷ [] }
    ensures times { times_after opts (over_d ∷ Report (arrival 0 3) (clock 8 42 0) ∷ [])
        ≡ clock 8 0 0 ∷ clock 8 42 0 ∷ clock 8 43 0 ∷ clock 9 2 0 ∷ clock 8 36 0 ∷ clock 9 10 0
        ∷ [] }
{}

/// A new call gets a label that none had before, also where the call that had the last one was
/// taken out.
pub fn labels_are_never_used_again()
    ensures accepted { Accepts opts (over_d ∷ over_d ∷ Reroute 0 0 2 [] ∷ over_d ∷ []) }
    ensures changed { counts_of opts (over_d ∷ over_d ∷ Reroute 0 0 2 [] ∷ over_d ∷ [])
        ≡ 4 ∷ 4 ∷ 2 ∷ 2 ∷ [] }
    ensures second { labels (after_messages (start opts) (over_d ∷ over_d ∷ [])) 0
        ≡ 0 ∷ 4 ∷ 2 ∷ [] }
    ensures third { labels (after_messages (start opts)
        (over_d ∷ over_d ∷ Reroute 0 0 2 [] ∷ over_d ∷ [])) 0 ≡ 0 ∷ 5 ∷ 2 ∷ [] }
{}

/// A reroute between neighbours with no new call is accepted and changes nothing.
pub fn reroute_without_effect()
    ensures accepted { Accepts opts (Reroute 0 0 1 [] ∷ []) }
    ensures changed { counts_of opts (Reroute 0 0 1 [] ∷ []) ≡ 0 ∷ [] }
{}

/// A new departure in the second of the next arrival is against the order in which events are
/// settled, since its label is greater.
pub fn new_departure_too_late()
    ensures second_before { answer opts [] (by_d (clock 8 40 0) (clock 8 59 59)) ≡ None }
    ensures same_second { answer opts [] (by_d (clock 8 40 0) (clock 9 0 0))
        ≡ Some (AgainstRank (departure 0 3) (arrival 0 2)) }
    ensures after_it { answer opts [] (by_d (clock 9 1 0) (clock 9 2 0))
        ≡ Some (AgainstRank (departure 0 3) (arrival 0 2)) }
    ensures at_once { answer opts [] (by_d (clock 8 0 0) (clock 8 0 0)) ≡ None }
    ensures too_early { answer opts [] (by_d (clock 7 59 0) (clock 8 1 0))
        ≡ Some (AgainstRank (departure 0 0) (arrival 0 3)) }
{}

/// A train is rerouted over stops alone, between calls from and to which it runs, and within the
/// spare calls.
pub fn reroute_refused()
    ensures station { answer opts []
        (Reroute 0 0 2 (new station_b (clock 8 40 0) (clock 8 41 0) ∷ [])) ≡ Some Unknown }
    ensures not_running { answer opts (Cancel 0 0 1 ∷ []) over_d ≡ Some Unknown }
    ensures last_call_spare { answer (record opts { spare_calls = 1 }) [] over_d ≡ None }
    ensures call_taken { answer (record opts { spare_calls = 1 }) (over_d ∷ []) over_d
        ≡ Some (Full Calls) }
    ensures no_call_spare { answer (record opts { spare_calls = 0 }) [] over_d ≡ Some (Full Calls) }
{}

/// An extra train runs once, and takes spare calls and a spare train.
pub fn extra_trains()
    ensures known { answer opts [] (extra 0) ≡ Some Known }
    ensures known_again { answer opts (extra 2 ∷ []) (extra 2) ≡ Some Known }
    ensures accepted { Accepts (record opts { spare_calls = 2 }) (extra 2 ∷ []) }
    ensures changed { counts_of (record opts { spare_calls = 2 }) (extra 2 ∷ []) ≡ 2 ∷ [] }
    ensures times { times_after opts (extra 2 ∷ []) ≡ clock 8 0 0 ∷ clock 8 30 0 ∷ clock 8 32 0
        ∷ clock 9 0 0 ∷ clock 8 36 0 ∷ clock 9 10 0 ∷ clock 9 20 0 ∷ clock 10 0 0 ∷ [] }
    ensures next_label { labels (after_messages (start opts)
        (extra 2 ∷ Reroute 2 0 1 (new stop_c (clock 9 40 0) (clock 9 41 0) ∷ []) ∷ [])) 2
        ≡ 0 ∷ 2 ∷ 1 ∷ [] }
    ensures calls_short { answer (record opts { spare_calls = 2 }) (extra 2 ∷ []) (extra 3)
        ≡ Some (Full Calls) }
    ensures last_train { answer (record opts { spare_trains = 1 }) [] (extra 2) ≡ None }
    ensures train_taken { answer (record opts { spare_trains = 1 }) (extra 2 ∷ []) (extra 3)
        ≡ Some (Full Trains) }
    ensures trains_short { answer (record opts { spare_trains = 0 }) [] (extra 2)
        ≡ Some (Full Trains) }
    ensures trains_first { answer (record opts { spare_trains = 0; spare_calls = 0 }) [] (extra 2)
        ≡ Some (Full Trains) }
    ensures station { answer opts []
        (Extra 2 0 0 (new station_b (clock 9 20 0) (clock 9 20 0) ∷ new stop_a (clock 10 0 0)
        (clock 10 0 0) ∷ [])) ≡ Some Unknown }
    ensures number_skipped { answer opts [] (extra 3) ≡ Some Unknown }
{}

/// A train that is late stands no longer than it is scheduled to, where that is less than the usual
/// minute.
pub fn short_stop()
    ensures accepted { Accepts opts (by_d (clock 8 40 0) (clock 8 40 30) ∷ Forecast (arrival 0 3)
        (clock 8 42 0) ∷ []) }
    ensures changed { counts_of opts (by_d (clock 8 40 0) (clock 8 40 30) ∷ Forecast (arrival 0 3)
        (clock 8 42 0) ∷ []) ≡ 4 ∷ 3 ∷ [] }
    ensures times { times_after opts (by_d (clock 8 40 0) (clock 8 40 30) ∷ Forecast (arrival 0 3)
        (clock 8 42 0) ∷ []) ≡ clock 8 0 0 ∷ clock 8 42 0 ∷ clock 8 42 30 ∷ clock 9 2 0
        ∷ clock 8 36 0 ∷ clock 9 10 0 ∷ [] }
{}

/// The arrival at an extra train's first call and the departure from its last do not take place, so
/// their times do not matter.
pub fn ends_of_an_extra_train()
    ensures at_the_ends { answer opts []
        (Extra 2 0 0 (new stop_d (clock 9 30 0) (clock 9 20 0) ∷ new stop_a (clock 10 0 0)
        (clock 9 50 0) ∷ [])) ≡ None }
    ensures no_time { answer opts []
        (Extra 2 0 0 (new stop_d (clock 9 20 0) (clock 9 20 0) ∷ new stop_a (clock 9 20 0)
        (clock 9 20 0) ∷ [])) ≡ None }
    ensures backwards { answer opts []
        (Extra 2 0 0 (new stop_d (clock 9 20 0) (clock 9 20 0) ∷ new stop_a (clock 9 10 0)
        (clock 9 10 0) ∷ [])) ≡ Some (AgainstRank (departure 2 0) (arrival 2 1)) }
    ensures between { answer opts []
        (Extra 2 0 0 (new stop_d (clock 9 20 0) (clock 9 20 0) ∷ new stop_a (clock 9 20 0)
        (clock 9 19 0) ∷ new stop_d (clock 10 0 0) (clock 10 0 0) ∷ []))
        ≡ Some (AgainstRank (arrival 2 1) (departure 2 1)) }
{}

/// The number of an extra train depends on what was accepted before it: after one that is refused
/// the next has its number.
pub fn extra_after_a_refused_one()
    ensures { accepted (network opts) next_extra (start opts) 2
        ((new stop_d (clock 9 20 0) (clock 9 20 0) ∷ new stop_a (clock 9 10 0) (clock 9 10 0) ∷ [])
        ∷ (new stop_d (clock 9 20 0) (clock 9 20 0) ∷ new stop_a (clock 10 0 0) (clock 10 0 0) ∷ [])
        ∷ [])
        ≡ extra 2 ∷ [] }
{}
