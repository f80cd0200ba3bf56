//! The earliest journeys of passengers.

ghost use Rattle.std.specs.Prelude.{◌≡◌, None, Some, true, false, List, [], ◌∷◌};
ghost use Rattle.delay_model.specs.After.{after_messages};
ghost use Rattle.delay_model.specs.Journeys.{IsEarliest, HasNoJourney, IsJourney, IsRide};
ghost use Rattle.model_examples.specs.TwoTrains.{clock, opts, network, start, at_b1, at_eight, ride, stop_a, platform_b1, platform_b2, stop_d, station_b, stop_c, network_by, row, alone, t2_by, and_d, over_d, both_to_d, late_before_a_gap};
ghost use Rattle.delay_model.specs.declared.messages.Message.TheVariants.{Cancel};
ghost use Rattle.mt_base.specs.declared.journeys.PlanRide.{PlanRide as Ride};

/// From A to D the earliest journey changes at B and arrives at 09:10.
pub fn journey_over_a_connection()
    ensures { IsEarliest (network opts) (start opts) (at_eight stop_a stop_d)
        (ride 0 0 stop_a (clock 8 0 0) 1 platform_b1 (clock 8 30 0) ∷ ride 1 0 platform_b2
        (clock 8 36 0) 1 stop_d (clock 9 10 0) ∷ []) (clock 9 10 0) }
{}

/// Where the train from A runs on to D, and comes there in the second in which the other does, to
/// stay on it and to change at B are both earliest journeys: either may be shown.
pub fn two_earliest_journeys()
    ensures stays { IsEarliest (network opts) both_to_d (at_eight stop_a stop_d)
        (ride 0 0 stop_a (clock 8 0 0) 2 stop_d (clock 9 10 0) ∷ []) (clock 9 10 0) }
    ensures changes { IsEarliest (network opts) both_to_d (at_eight stop_a stop_d)
        (ride 0 0 stop_a (clock 8 0 0) 1 platform_b1 (clock 8 30 0) ∷ ride 1 0 platform_b2
        (clock 8 36 0) 1 stop_d (clock 9 10 0) ∷ []) (clock 9 10 0) }
{}

/// Where the second train is held, the journey arrives as late as that train.
pub fn journey_over_a_held_connection()
    ensures { IsEarliest (network opts) (after_messages (start opts) (at_b1 (clock 8 36 0) ∷ []))
        (at_eight stop_a stop_d) (ride 0 0 stop_a (clock 8 0 0) 1 platform_b1 (clock 8 36 0)
        ∷ ride 1 0 platform_b2 (clock 8 39 0) 1 stop_d (clock 9 13 0) ∷ []) (clock 9 13 0) }
{}

/// Where the second train is not held any more, there is no journey.
pub fn journey_over_a_missed_connection()
    ensures { HasNoJourney (network opts) (after_messages (start opts) (at_b1 (clock 8 38 1) ∷ []))
        (at_eight stop_a stop_d) }
{}

/// From one platform of a station to another no ride is needed: the passenger is there at once.
pub fn journey_without_a_ride()
    ensures { IsEarliest (network opts) (start opts) (at_eight platform_b1 platform_b2) []
        (clock 8 0 0) }
{}

/// Passengers ride where they may board and alight alone.
pub fn boarding_and_alighting()
    ensures both { IsJourney (network opts) (alone (t2_by true true)) (at_eight platform_b2 stop_d)
        (ride 0 0 platform_b2 (clock 8 36 0) 1 stop_d (clock 9 10 0) ∷ []) (clock 9 10 0) }
    ensures no_boarding { HasNoJourney (network opts) (alone (t2_by false true))
        (at_eight platform_b2 stop_d) }
    ensures no_alighting { HasNoJourney (network opts) (alone (t2_by true false))
        (at_eight platform_b2 stop_d) }
{}

/// A ride does not cross a cancelled stretch: who boards at A, where the train calls at D and then
/// does not run to B, alights at D.
pub fn no_ride_across_a_gap()
    ensures { (r : Ride)
        → IsRide (network opts) (after_messages (start opts) (and_d ∷ Cancel 0 3 1 ∷ [])) r
        → r.train ≡ 0 → r.board ≡ 0 → r.alight_stop ≡ stop_d }
{}

/// Where a stretch in the middle of a train's run is cancelled and the part before it is late, the
/// part after it departs first. Passengers ride within each part, and not across the stretch.
pub fn second_part_departs_first()
    ensures first_part { IsRide (network opts) (after_messages (start opts) late_before_a_gap)
        (ride 0 0 stop_a (clock 8 33 0) 3 stop_d (clock 8 43 0)) }
    ensures second_part { IsRide (network opts) (after_messages (start opts) late_before_a_gap)
        (ride 0 1 platform_b1 (clock 8 32 0) 2 stop_c (clock 9 0 0)) }
    ensures across { IsRide (network opts) (after_messages (start opts) late_before_a_gap)
        (ride 0 0 stop_a (clock 8 33 0) 2 stop_c (clock 9 0 0)) → ⊥ }
{}

/// Within the origin's station the first departure asks for no change, and within the destination's
/// the last arrival asks for none, also where a row forbids it.
pub fn no_change_at_the_ends()
    ensures first { IsJourney (network_by opts (row platform_b1 platform_b2 3 None ∷ []) [])
        (start opts) (record (at_eight platform_b1 stop_d) { time = clock 8 36 0 })
        (ride 1 0 platform_b2 (clock 8 36 0) 1 stop_d (clock 9 10 0) ∷ []) (clock 9 10 0) }
    ensures last { IsJourney (network_by opts (row platform_b1 platform_b2 3 None ∷ []) [])
        (start opts) (at_eight stop_a platform_b2)
        (ride 0 0 stop_a (clock 8 0 0) 1 platform_b1 (clock 8 30 0) ∷ []) (clock 8 30 0) }
    ensures from_the_station { IsJourney (network opts) (start opts) (at_eight station_b stop_d)
        (ride 1 0 platform_b2 (clock 8 36 0) 1 stop_d (clock 9 10 0) ∷ []) (clock 9 10 0) }
    ensures to_the_station { IsJourney (network opts) (start opts) (at_eight stop_a station_b)
        (ride 0 0 stop_a (clock 8 0 0) 1 platform_b1 (clock 8 30 0) ∷ []) (clock 8 30 0) }
{}

/// From a place outside its station the first departure is reached by a change, which takes its
/// time.
pub fn change_to_the_first_departure()
    ensures in_time { IsJourney (network_by opts (row stop_c platform_b2 2 (Some 60) ∷ []) [])
        (start opts) (record (at_eight stop_c stop_d) { time = clock 8 35 0 })
        (ride 1 0 platform_b2 (clock 8 36 0) 1 stop_d (clock 9 10 0) ∷ []) (clock 9 10 0) }
    ensures too_late { IsJourney (network_by opts (row stop_c platform_b2 2 (Some 60) ∷ []) [])
        (start opts) (record (at_eight stop_c stop_d) { time = clock 8 35 1 })
        (ride 1 0 platform_b2 (clock 8 36 0) 1 stop_d (clock 9 10 0) ∷ []) (clock 9 10 0) → ⊥ }
{}

/// Passengers may alight and board at the calls that a rerouting makes.
pub fn rides_to_and_from_a_new_call()
    ensures to_it { IsJourney (network opts) (after_messages (start opts) (over_d ∷ []))
        (at_eight stop_a stop_d) (ride 0 0 stop_a (clock 8 0 0) 3 stop_d (clock 8 40 0) ∷ [])
        (clock 8 40 0) }
    ensures from_it { IsJourney (network opts) (after_messages (start opts) (over_d ∷ []))
        (at_eight stop_d stop_c) (ride 0 3 stop_d (clock 8 41 0) 2 stop_c (clock 9 0 0) ∷ [])
        (clock 9 0 0) }
{}
