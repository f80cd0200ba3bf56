//! Of several causes to refuse a message the first is the answer.

ghost use Rattle.std.specs.Prelude.{◌≡◌, List, [], ◌∷◌, Some};
ghost use Rattle.delay_model.specs.declared.messages.Message.TheVariants.{Report, Correct, Withdraw, Keep as KeepIt, Extra};
ghost use Rattle.delay_model.specs.declared.messages.Refusal.TheVariants.{Unknown, NoConnection, Contradiction, AgainstRank, Nothing};
ghost use Rattle.model_examples.specs.TwoTrains.{clock, opts, stop_a, station_b, answer, at_b1, arrival, departure, new, by_d, left_a, corrected_a, take_back, keep_at_b};

/// What is not there comes before what is there already, an impossible change before a report, a
/// report before the order of events, and that before want of room. Last of all comes that there is
/// nothing to correct.
pub fn first_refusal()
    ensures unknown_and_known { answer opts []
        (Extra 0 0 0 (new station_b (clock 9 20 0) (clock 9 20 0) ∷ new stop_a (clock 10 0 0)
        (clock 10 0 0) ∷ [])) ≡ Some Unknown }
    ensures change_and_report { answer opts (Report (departure 1 0) (clock 8 36 0) ∷ [])
        (KeepIt (arrival 0 2) (departure 1 0)) ≡ Some NoConnection }
    ensures report_and_rank { answer opts (Report (arrival 0 2) (clock 9 0 0) ∷ [])
        (by_d (clock 8 40 0) (clock 9 0 0)) ≡ Some (Contradiction (arrival 0 2) (clock 9 0 0)) }
    ensures rank_and_calls { answer (record opts { spare_calls = 0 }) []
        (by_d (clock 8 40 0) (clock 9 0 0)) ≡ Some (AgainstRank (departure 0 3) (arrival 0 2)) }
    ensures rank_and_overrides { answer (record opts { change = 361; overrides = 0 }) [] keep_at_b
        ≡ Some (AgainstRank (arrival 0 1) (departure 1 0)) }
    ensures unknown_and_nothing { answer opts [] (take_back (arrival 1 0)) ≡ Some Unknown }
    ensures report_and_nothing { answer opts (left_a (clock 8 5 0) ∷ [])
        (Correct (arrival 0 1) (Some (clock 8 4 59)))
        ≡ Some (Contradiction (departure 0 0) (clock 8 5 0)) }
{}

/// An event without report has none to correct, also where another event has one or the event is
/// forecast; one without forecast has none to withdraw, also where the event was reported. What was
/// taken back is not taken back again.
pub fn nothing_to_take_back()
    ensures corrected { answer opts [] (corrected_a (clock 8 3 0)) ≡ Some Nothing }
    ensures taken_back { answer opts [] (take_back (departure 0 0)) ≡ Some Nothing }
    ensures withdrawn { answer opts [] (Withdraw (departure 0 0)) ≡ Some Nothing }
    ensures another_reported { answer opts (left_a (clock 8 5 0) ∷ [])
        (Correct (arrival 0 1) (Some (clock 8 5 0))) ≡ Some Nothing }
    ensures only_forecast { answer opts (at_b1 (clock 8 36 0) ∷ []) (take_back (arrival 0 1))
        ≡ Some Nothing }
    ensures only_reported { answer opts (left_a (clock 8 5 0) ∷ []) (Withdraw (departure 0 0))
        ≡ Some Nothing }
    ensures taken_back_again { answer opts (left_a (clock 8 5 0) ∷ take_back (departure 0 0) ∷ [])
        (take_back (departure 0 0)) ≡ Some Nothing }
    ensures withdrawn_again { answer opts (at_b1 (clock 8 36 0) ∷ Withdraw (arrival 0 1) ∷ [])
        (Withdraw (arrival 0 1)) ≡ Some Nothing }
{}
