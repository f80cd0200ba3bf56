//! Connections that dispatchers keep or drop.

ghost use Rattle.std.specs.Prelude.{◌≡◌, List, [], ◌∷◌, None, Some};
ghost use Rattle.delay_model.specs.declared.state.EdgeKind.TheVariants.{Planned, Kept};
ghost use Rattle.delay_model.specs.declared.messages.Message.TheVariants.{Keep as KeepIt, Drop as DropIt};
ghost use Rattle.delay_model.specs.declared.messages.Refusal.TheVariants.{AgainstRank, NoConnection, Contradiction, Full};
ghost use Rattle.delay_model.specs.declared.messages.Short.TheVariants.{Overrides as OverridesShort};
ghost use Rattle.delay_model.specs.declared.messages.Message.TheVariants.{Report, Cancel};
ghost use Rattle.delay_model.specs.declared.overrides.Override.TheVariants.{Keep as ToKeep, Drop as ToDrop};
ghost use Rattle.delay_model.specs.Edges.{transfer};
ghost use Rattle.delay_model.specs.After.{after_messages};
ghost use Rattle.model_examples.specs.TwoTrains.{clock, opts, network, network_by, start, times, feeder, fed, edge_at_b, times_after, counts_of, Accepts, answer, at_b1, arrival, departure, keep_at_b, drop_at_b, rule_at_b, over_d, extra};

/// Dispatchers keep a connection past the wait, drop it, and give it back to the rules.
pub fn keep_drop_and_rule()
    ensures accepted { Accepts opts (at_b1 (clock 8 38 0) ∷ at_b1 (clock 8 38 1) ∷ keep_at_b
        ∷ drop_at_b ∷ rule_at_b ∷ []) }
    ensures changed { counts_of opts (at_b1 (clock 8 38 0) ∷ at_b1 (clock 8 38 1) ∷ keep_at_b
        ∷ drop_at_b ∷ rule_at_b ∷ []) ≡ 5 ∷ 5 ∷ 2 ∷ 2 ∷ 0 ∷ [] }
    ensures kept { times_after opts (at_b1 (clock 8 38 0) ∷ at_b1 (clock 8 38 1) ∷ keep_at_b ∷ [])
        ≡ clock 8 0 0 ∷ clock 8 38 1 ∷ clock 8 39 1 ∷ clock 9 7 1 ∷ clock 8 41 1 ∷ clock 9 15 1
        ∷ [] }
    ensures dropped { times_after opts (at_b1 (clock 8 38 0) ∷ at_b1 (clock 8 38 1) ∷ keep_at_b
        ∷ drop_at_b ∷ []) ≡ clock 8 0 0 ∷ clock 8 38 1 ∷ clock 8 39 1 ∷ clock 9 7 1 ∷ clock 8 36 0
        ∷ clock 9 10 0 ∷ [] }
    ensures by_rule { times_after opts (at_b1 (clock 8 38 0) ∷ at_b1 (clock 8 38 1) ∷ keep_at_b
        ∷ drop_at_b ∷ rule_at_b ∷ []) ≡ clock 8 0 0 ∷ clock 8 38 1 ∷ clock 8 39 1 ∷ clock 9 7 1
        ∷ clock 8 36 0 ∷ clock 9 10 0 ∷ [] }
{}

/// A dropped connection holds no train, also within the wait, until the rules hold again.
pub fn dropped_within_the_wait()
    ensures accepted { Accepts opts (at_b1 (clock 8 36 0) ∷ drop_at_b ∷ rule_at_b ∷ []) }
    ensures changed { counts_of opts (at_b1 (clock 8 36 0) ∷ drop_at_b ∷ rule_at_b ∷ [])
        ≡ 5 ∷ 2 ∷ 2 ∷ [] }
    ensures dropped { times_after opts (at_b1 (clock 8 36 0) ∷ drop_at_b ∷ [])
        ≡ clock 8 0 0 ∷ clock 8 36 0 ∷ clock 8 37 0 ∷ clock 9 5 0 ∷ clock 8 36 0 ∷ clock 9 10 0
        ∷ [] }
    ensures by_rule { times_after opts (at_b1 (clock 8 36 0) ∷ drop_at_b ∷ rule_at_b ∷ [])
        ≡ clock 8 0 0 ∷ clock 8 36 0 ∷ clock 8 37 0 ∷ clock 9 5 0 ∷ clock 8 39 0 ∷ clock 9 13 0
        ∷ [] }
{}

/// A kept connection is an edge by the change time alone: without a rule, and outside the window
/// too. A dropped one is none.
pub fn kept_edge()
    ensures planned { transfer (network opts) (Some ToKeep) feeder fed ≡ edge_at_b 180 Kept ∷ [] }
    ensures no_rule { transfer (network_by opts [] []) (Some ToKeep) feeder fed
        ≡ edge_at_b 180 Kept ∷ [] }
    ensures past_the_window { transfer (network (record opts { window = 0 }))
        (Some ToKeep) feeder fed ≡ edge_at_b 180 Kept ∷ [] }
    ensures dropped { transfer (network opts) (Some ToDrop) feeder fed ≡ [] }
    ensures not_back { transfer (network opts) (Some ToKeep) fed feeder ≡ [] }
{}

/// Where no rule makes a train wait, a kept connection does, without limit.
pub fn kept_without_a_rule()
    ensures changed { counts_of (record opts { window = 0 }) (at_b1 (clock 8 50 0) ∷ keep_at_b ∷ [])
        ≡ 3 ∷ 2 ∷ [] }
    ensures kept { times (network_by opts [] [])
        (after_messages (start opts) (at_b1 (clock 8 50 0) ∷ keep_at_b ∷ [])) ≡ clock 8 0 0
        ∷ clock 8 50 0 ∷ clock 8 51 0 ∷ clock 9 19 0 ∷ clock 8 53 0 ∷ clock 9 27 0 ∷ [] }
{}

/// A connection is not kept where the schedule leaves too little time for the change.
pub fn change_too_long_to_keep()
    ensures shortest { answer (record opts { change = 360 }) [] keep_at_b ≡ None }
    ensures too_long { answer (record opts { change = 361 }) [] keep_at_b
        ≡ Some (AgainstRank (arrival 0 1) (departure 1 0)) }
    ensures to_drop { answer (record opts { change = 361 }) [] drop_at_b ≡ None }
{}

/// No override is taken for two calls of one train, or for two stops between which no change is
/// possible.
pub fn no_connection()
    ensures no_change { answer opts [] (KeepIt (arrival 0 2) (departure 1 0)) ≡ Some NoConnection }
    ensures one_train { answer opts [] (DropIt (arrival 0 1) (departure 0 1)) ≡ Some NoConnection }
{}

/// No override is taken for a departure that was reported, but one can be taken back.
pub fn departed_already()
    ensures keep { answer opts (Report (departure 1 0) (clock 8 36 0) ∷ []) keep_at_b
        ≡ Some (Contradiction (departure 1 0) (clock 8 36 0)) }
    ensures dropped { answer opts (Report (departure 1 0) (clock 8 36 0) ∷ []) drop_at_b
        ≡ Some (Contradiction (departure 1 0) (clock 8 36 0)) }
    ensures rule { answer opts (Report (departure 1 0) (clock 8 36 0) ∷ []) rule_at_b ≡ None }
{}

/// An override takes a spare one, but not where the connection has one.
pub fn no_spare_override()
    ensures none_spare { answer (record opts { overrides = 0 }) [] keep_at_b
        ≡ Some (Full OverridesShort) }
    ensures none_spare_to_drop { answer (record opts { overrides = 0 }) [] drop_at_b
        ≡ Some (Full OverridesShort) }
    ensures one_spare { Accepts (record opts { overrides = 1 })
        (keep_at_b ∷ drop_at_b ∷ rule_at_b ∷ rule_at_b ∷ []) }
    ensures another { answer (record opts { overrides = 1 }) (extra 2 ∷ keep_at_b ∷ [])
        (KeepIt (arrival 1 1) (departure 2 0)) ≡ Some (Full OverridesShort) }
    ensures left { (after_messages (start (record opts { overrides = 1 }))
        (keep_at_b ∷ [])).spare_overrides ≡ 0 }
    ensures same { (after_messages (start (record opts { overrides = 1 }))
        (keep_at_b ∷ drop_at_b ∷ [])).spare_overrides ≡ 0 }
    ensures back { (after_messages (start (record opts { overrides = 1 }))
        (keep_at_b ∷ drop_at_b ∷ rule_at_b ∷ rule_at_b ∷ [])).spare_overrides ≡ 1 }
{}

/// A cancellation or a rerouting that takes one of its events away ends an override, which is then
/// spare again. Others leave it.
pub fn override_of_what_is_gone()
    ensures left { (after_messages (start opts) (keep_at_b ∷ [])).spare_overrides ≡ 9999 }
    ensures cancelled { (after_messages (start opts) (keep_at_b ∷ Cancel 0 0 1 ∷ [])).overrides
        ≡ (start opts).overrides }
    ensures cancelled_back { (after_messages (start opts)
        (keep_at_b ∷ Cancel 0 0 1 ∷ [])).spare_overrides ≡ 10000 }
    ensures rerouted { (after_messages (start opts) (keep_at_b ∷ over_d ∷ [])).overrides
        ≡ (start opts).overrides }
    ensures rerouted_back { (after_messages (start opts)
        (keep_at_b ∷ over_d ∷ [])).spare_overrides ≡ 10000 }
    ensures elsewhere { (after_messages (start opts) (keep_at_b ∷ Cancel 0 1 2 ∷ [])).overrides
        ≡ (after_messages (start opts) (keep_at_b ∷ [])).overrides }
{}
