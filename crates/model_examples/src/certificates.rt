//! Certificates of earliest arrivals.

ghost use Rattle.std.specs.Prelude.{◌≡◌, [], ◌∷◌, Some, None, true, false};
ghost use Rattle.delay_model.specs.After.{after_messages};
ghost use Rattle.model_examples.specs.TwoTrains.{at_b1, at_eight, clock, network, opts, platform_b1, platform_b2, start, stop_a, stop_c, stop_d};
ghost use Rattle.journey_laws.specs.Checked.{is_good};
ghost use Rattle.journey_laws.specs.Rides.{all_rides};
ghost use Rattle.model_examples.specs.Claims.{claim, over_b, stop_at};

/// From A to D over B, with an arrival at 09:10: the certificate shows that a passenger can be at B
/// and at C before that, and nowhere else.
pub fn a_good_certificate_of_two_rides()
    ensures { is_good (network opts) (all_rides (network opts) (start opts))
        (at_eight stop_a stop_d) (claim (Some (clock 9 10 0)) over_b
        (stop_at platform_b1 (clock 8 30 0) ∷ stop_at stop_c (clock 9 0 0) ∷ [])) ≡ true }
{}

/// It is not good without C, with an arrival a second later, without an arrival and a ride, or with
/// a later time at B.
pub fn claims_that_are_not_good()
    ensures without_c { is_good (network opts) (all_rides (network opts) (start opts))
        (at_eight stop_a stop_d) (claim (Some (clock 9 10 0)) over_b
        (stop_at platform_b1 (clock 8 30 0) ∷ [])) ≡ false }
    ensures a_second_later { is_good (network opts) (all_rides (network opts) (start opts))
        (at_eight stop_a stop_d) (claim (Some (clock 9 10 1)) over_b
        (stop_at platform_b1 (clock 8 30 0) ∷ stop_at stop_c (clock 9 0 0) ∷ [])) ≡ false }
    ensures no_arrival { is_good (network opts) (all_rides (network opts) (start opts))
        (at_eight stop_a stop_d) (claim None []
        (stop_at platform_b1 (clock 8 30 0) ∷ stop_at stop_c (clock 9 0 0) ∷ [])) ≡ false }
    ensures later_at_b { is_good (network opts) (all_rides (network opts) (start opts))
        (at_eight stop_a stop_d) (claim (Some (clock 9 10 0)) over_b
        (stop_at platform_b1 (clock 8 30 1) ∷ stop_at stop_c (clock 9 0 0) ∷ [])) ≡ false }
{}

/// Once the first train comes so late to B that the second does not wait for it, the certificate is
/// not good, and one without an arrival is.
pub fn a_claim_after_a_late_arrival()
    ensures late { is_good (network opts) (all_rides (network opts) (after_messages (start opts)
        (at_b1 (clock 8 38 1) ∷ []))) (at_eight stop_a stop_d) (claim (Some (clock 9 10 0)) over_b
        (stop_at platform_b1 (clock 8 30 0) ∷ stop_at stop_c (clock 9 0 0) ∷ [])) ≡ false }
    ensures none { is_good (network opts) (all_rides (network opts) (after_messages (start opts)
        (at_b1 (clock 8 38 1) ∷ []))) (at_eight stop_a stop_d) (claim None []
        (stop_at platform_b1 (clock 8 38 1) ∷ stop_at stop_c (clock 9 7 1) ∷ [])) ≡ true }
{}

/// From one platform of a station to another no ride is needed.
pub fn a_claim_without_a_ride()
    ensures { is_good (network opts) (all_rides (network opts) (start opts))
        (at_eight platform_b1 platform_b2) (claim (Some (clock 8 0 0)) [] []) ≡ true }
{}
