//! Why an event is when it is.

ghost use Rattle.std.specs.Prelude.{◌≡◌, [], ◌∷◌, true, false};
ghost use Rattle.delay_model.specs.declared.messages.Message.TheVariants.{Forecast as Expect, Report as Tell, Keep};
ghost use Rattle.delay_model.specs.After.{after_messages};
ghost use Rattle.cause_laws.specs.declared.causes.Cause.TheVariants.{Report, Capped, Schedule, Forecast, Run, Stop, Hold, Kept};
ghost use Rattle.cause_laws.specs.Chains.{why};
ghost use Rattle.model_examples.specs.TwoTrains.{arrival, at_b1, clock, departure, drop_at_b, keep_at_b, network, opts, over_d, start, Accepts};
ghost use Rattle.cause_examples.specs.Links.{key, link_at, two_feeders, two_routes};

/// The second train comes 3 minutes late to D: it runs there in 34 minutes, it is held at B for the
/// first train, and that is expected at B at 08:36.
pub fn held_for_a_late_feeder()
    ensures accepted { Accepts opts (at_b1 (clock 8 36 0) ∷ []) }
    ensures arrival { why (network opts) (after_messages (start opts) (at_b1 (clock 8 36 0) ∷ []))
        (arrival 1 1) ≡ link_at (key (clock 9 10 0) 1 1 false) (clock 9 13 0)
        (Run (key (clock 8 36 0) 1 0 true))
        ∷ link_at (key (clock 8 36 0) 1 0 true) (clock 8 39 0)
        (Hold (key (clock 8 30 0) 0 1 false))
        ∷ link_at (key (clock 8 30 0) 0 1 false) (clock 8 36 0) Forecast ∷ [] }
    ensures stop { why (network opts) (after_messages (start opts) (at_b1 (clock 8 36 0) ∷ []))
        (departure 0 1) ≡ link_at (key (clock 8 32 0) 0 1 true) (clock 8 37 0)
        (Stop (key (clock 8 30 0) 0 1 false))
        ∷ link_at (key (clock 8 30 0) 0 1 false) (clock 8 36 0) Forecast ∷ [] }
{}

/// The first train was to leave A at 08:10, but was reported at B at 08:09: that is when it left
/// at the latest. Its own report is told before a later one.
pub fn capped_by_a_report()
    ensures departure { why (network opts) (after_messages (start opts)
        (Expect (departure 0 0) (clock 8 10 0) ∷ Tell (arrival 0 1) (clock 8 9 0) ∷ []))
        (departure 0 0) ≡ link_at (key (clock 8 0 0) 0 0 true) (clock 8 9 0)
        (Capped (key (clock 8 30 0) 0 1 false))
        ∷ link_at (key (clock 8 30 0) 0 1 false) (clock 8 9 0) Report ∷ [] }
    ensures after { why (network opts) (after_messages (start opts)
        (Expect (departure 0 0) (clock 8 10 0) ∷ Tell (arrival 0 1) (clock 8 9 0) ∷ []))
        (departure 0 1) ≡ link_at (key (clock 8 32 0) 0 1 true) (clock 8 32 0) Schedule ∷ [] }
    ensures own { why (network opts) (after_messages (start opts)
        (Expect (departure 0 0) (clock 8 10 0) ∷ Tell (departure 0 0) (clock 8 5 0)
        ∷ Tell (arrival 0 1) (clock 8 9 0) ∷ [])) (departure 0 0)
        ≡ link_at (key (clock 8 0 0) 0 0 true) (clock 8 5 0) Report ∷ [] }
{}

/// A report that comes in the second in which an event is due anyway does not cap it: the event has
/// its schedule. A second earlier, it does.
pub fn report_when_due()
    ensures equal { why (network opts) (after_messages (start opts)
        (Tell (arrival 0 1) (clock 8 0 0) ∷ [])) (departure 0 0)
        ≡ link_at (key (clock 8 0 0) 0 0 true) (clock 8 0 0) Schedule ∷ [] }
    ensures earlier { why (network opts) (after_messages (start opts)
        (Tell (arrival 0 1) (clock 7 59 59) ∷ [])) (departure 0 0)
        ≡ link_at (key (clock 8 0 0) 0 0 true) (clock 7 59 59)
        (Capped (key (clock 8 30 0) 0 1 false))
        ∷ link_at (key (clock 8 30 0) 0 1 false) (clock 7 59 59) Report ∷ [] }
{}

/// The first train is expected a second too late, and a dispatcher keeps the connection. Where the
/// rule holds the train as well, the cause is the rule.
pub fn kept_by_a_dispatcher()
    ensures kept { why (network opts) (after_messages (start opts) (at_b1 (clock 8 38 1)
        ∷ keep_at_b ∷ [])) (arrival 1 1) ≡ link_at (key (clock 9 10 0) 1 1 false) (clock 9 15 1)
        (Run (key (clock 8 36 0) 1 0 true))
        ∷ link_at (key (clock 8 36 0) 1 0 true) (clock 8 41 1)
        (Kept (key (clock 8 30 0) 0 1 false))
        ∷ link_at (key (clock 8 30 0) 0 1 false) (clock 8 38 1) Forecast ∷ [] }
    ensures by_rule { why (network opts) (after_messages (start opts) (at_b1 (clock 8 38 0)
        ∷ keep_at_b ∷ [])) (departure 1 0) ≡ link_at (key (clock 8 36 0) 1 0 true) (clock 8 41 0)
        (Hold (key (clock 8 30 0) 0 1 false))
        ∷ link_at (key (clock 8 30 0) 0 1 false) (clock 8 38 0) Forecast ∷ [] }
{}

/// Where the connection is dropped, the late train is no cause, though the rule would hold.
pub fn dropped_by_a_dispatcher()
    ensures { why (network opts) (after_messages (start opts) (at_b1 (clock 8 36 0)
        ∷ drop_at_b ∷ [])) (departure 1 0)
        ≡ link_at (key (clock 8 36 0) 1 0 true) (clock 8 36 0) Schedule ∷ [] }
{}

/// Of two trains that come to B in one second and ask for the same time, the one with the lesser
/// key is named; of two of which one comes later, that one.
pub fn one_of_two_feeders()
    ensures least { why (network opts) (after_messages two_feeders (at_b1 (clock 8 36 0)
        ∷ Expect (arrival 1 1) (clock 8 36 0) ∷ [])) (departure 2 0)
        ≡ link_at (key (clock 8 36 0) 2 0 true) (clock 8 39 0)
        (Hold (key (clock 8 30 0) 0 1 false))
        ∷ link_at (key (clock 8 30 0) 0 1 false) (clock 8 36 0) Forecast ∷ [] }
    ensures later { why (network opts) (after_messages two_feeders (at_b1 (clock 8 36 0)
        ∷ Expect (arrival 1 1) (clock 8 36 1) ∷ [])) (departure 2 0)
        ≡ link_at (key (clock 8 36 0) 2 0 true) (clock 8 39 1)
        (Hold (key (clock 8 30 0) 1 1 false))
        ∷ link_at (key (clock 8 30 0) 1 1 false) (clock 8 36 1) Forecast ∷ [] }
{}

/// For the first feeder no train waits but where a dispatcher keeps the connection; for the second
/// one waits by rule. Where both ask for the same time, the second is named, though its key is the
/// greater; where the first alone asks for it, the first.
pub fn rule_before_a_dispatcher()
    ensures both { why (network opts) (after_messages two_routes (at_b1 (clock 8 36 0)
        ∷ Expect (arrival 1 1) (clock 8 36 0) ∷ Keep (arrival 0 1) (departure 2 0) ∷ []))
        (departure 2 0) ≡ link_at (key (clock 8 36 0) 2 0 true) (clock 8 39 0)
        (Hold (key (clock 8 30 0) 1 1 false))
        ∷ link_at (key (clock 8 30 0) 1 1 false) (clock 8 36 0) Forecast ∷ [] }
    ensures one { why (network opts) (after_messages two_routes (at_b1 (clock 8 36 0)
        ∷ Keep (arrival 0 1) (departure 2 0) ∷ [])) (departure 2 0)
        ≡ link_at (key (clock 8 36 0) 2 0 true) (clock 8 39 0)
        (Kept (key (clock 8 30 0) 0 1 false))
        ∷ link_at (key (clock 8 30 0) 0 1 false) (clock 8 36 0) Forecast ∷ [] }
{}

/// The first train runs to C over D, and is expected there 5 minutes late: the chain goes over the
/// new call.
pub fn late_at_a_new_call()
    ensures { why (network opts) (after_messages (start opts) (over_d
        ∷ Expect (arrival 0 3) (clock 8 45 0) ∷ [])) (arrival 0 2)
        ≡ link_at (key (clock 9 0 0) 0 2 false) (clock 9 5 0) (Run (key (clock 8 41 0) 0 3 true))
        ∷ link_at (key (clock 8 41 0) 0 3 true) (clock 8 46 0) (Stop (key (clock 8 40 0) 0 3 false))
        ∷ link_at (key (clock 8 40 0) 0 3 false) (clock 8 45 0) Forecast ∷ [] }
{}

/// A departure that is expected when it is scheduled, or earlier, has its schedule as its cause, and
/// one that is expected later its forecast. An arrival that is expected has its forecast, also
/// where that is its scheduled time.
pub fn expected_events()
    ensures at_the_schedule { why (network opts) (after_messages (start opts)
        (Expect (departure 1 0) (clock 8 36 0) ∷ [])) (departure 1 0)
        ≡ link_at (key (clock 8 36 0) 1 0 true) (clock 8 36 0) Schedule ∷ [] }
    ensures late { why (network opts) (after_messages (start opts)
        (Expect (departure 1 0) (clock 8 36 1) ∷ [])) (departure 1 0)
        ≡ link_at (key (clock 8 36 0) 1 0 true) (clock 8 36 1) Forecast ∷ [] }
    ensures arrival { why (network opts) (after_messages (start opts) (at_b1 (clock 8 30 0) ∷ []))
        (arrival 0 1) ≡ link_at (key (clock 8 30 0) 0 1 false) (clock 8 30 0) Forecast ∷ [] }
    ensures early { why (network opts) (after_messages (start opts) (at_b1 (clock 8 29 0) ∷ []))
        (arrival 0 1) ≡ link_at (key (clock 8 30 0) 0 1 false) (clock 8 30 0)
        (Run (key (clock 8 0 0) 0 0 true))
        ∷ link_at (key (clock 8 0 0) 0 0 true) (clock 8 0 0) Schedule ∷ [] }
{}

/// Without messages each event has its schedule as its cause, also where an edge asks for the same
/// second. A train that is not held any more has its schedule again. An event that does not take
/// place has no chain.
pub fn on_schedule()
    ensures arrival { why (network opts) (start opts) (arrival 0 1)
        ≡ link_at (key (clock 8 30 0) 0 1 false) (clock 8 30 0) Schedule ∷ [] }
    ensures too_late { why (network opts) (after_messages (start opts) (at_b1 (clock 8 38 1) ∷ []))
        (departure 1 0) ≡ link_at (key (clock 8 36 0) 1 0 true) (clock 8 36 0) Schedule ∷ [] }
    ensures not_live { why (network opts) (start opts) (departure 0 2) ≡ [] }
{}
