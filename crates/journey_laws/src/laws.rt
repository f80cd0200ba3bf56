//! Why an answer is the best one.

ghost use Rattle.std.specs.Prelude.{◌≡◌, ◌↔◌, ◌≤◌, ℕ, List, [], Option, Some, None, true, length, map, Contains};
ghost use Rattle.mt_base.specs.declared.journeys.PlanRide.{PlanRide as APlanRide};
ghost use Rattle.mt_base.specs.declared.journeys.Query.{Query as AQuery};
ghost use Rattle.delay_model.specs.Journeys.{IsJourney, IsRide, IsEarliest, HasNoJourney};
ghost use Rattle.delay_model.specs.Valid.{IsValid};
ghost use Rattle.mt_base.specs.declared.certificates.Cert.{Cert as ACert};
ghost use Rattle.mt_base.specs.declared.journeys.Plan.{Plan as APlan};
ghost use Rattle.delay_model.specs.AtStops.{AreAtStops};
ghost use Rattle.journey_laws.specs.Certificates.{name_of, AreEarlyStops, AreRidesUntil, IsEarlyPart, IsGoodCertificate};
ghost use Rattle.journey_laws.specs.Checked.{is_good};
ghost use Rattle.journey_laws.specs.Fronts.{Round, IsAfterRounds, IsFront, best_of};
ghost use Rattle.journey_laws.specs.Rides.{all_rides};
ghost use Rattle.journey_laws.specs.Reached.{HasArrivals, IsFinished};

use delay_model::network::Network;
use delay_model::state::State;

/// A good certificate is right: its rides are a journey such that none arrives earlier, or there is
/// no journey.
pub fn a_good_certificate_is_right(nw: &Network, st: &State)
    requires { IsValid nw.now st.now }
    ensures found { (q : AQuery) (c : ACert) (at : ℕ) → IsGoodCertificate nw.now st.now q c
        → c.arrives ≡ Some at → (rides : List APlanRide) × (map name_of rides ≡ c.rides)
        × IsEarliest nw.now st.now q rides at }
    ensures none { (q : AQuery) (c : ACert) → IsGoodCertificate nw.now st.now q c
        → c.arrives ≡ None → (c.rides ≡ []) × HasNoJourney nw.now st.now q }
{}

/// A search that has come to its end has the right answer: a journey that arrives at its best
/// arrival is an earliest one, and without a best arrival there is no journey.
pub fn a_finished_search_is_right(nw: &Network, st: &State)
    requires { IsValid nw.now st.now }
    ensures found { (q : AQuery) (reached : ℕ → Option ℕ) (rides : List APlanRide) (at : ℕ)
        → IsFinished nw.now st.now q (Some at) reached → IsJourney nw.now st.now q rides at
        → IsEarliest nw.now st.now q rides at }
    ensures none { (q : AQuery) (reached : ℕ → Option ℕ)
        → IsFinished nw.now st.now q None reached → HasNoJourney nw.now st.now q }
{}

/// What a finished search reached before its best arrival makes a good certificate, with the rides
/// of a journey that arrives then.
pub fn a_finished_search_gives_a_good_certificate(nw: &Network, st: &State)
    ensures { (q : AQuery) (best : Option ℕ) (reached : ℕ → Option ℕ) (c : ACert)
        → IsFinished nw.now st.now q best reached → c.arrives ≡ best
        → AreRidesUntil nw.now st.now q best c.rides → AreEarlyStops nw.now best c.reached
        → IsEarlyPart best reached c.reached → IsGoodCertificate nw.now st.now q c }
{}

/// Every query has a good certificate.
pub fn every_query_has_a_good_certificate(nw: &Network, st: &State)
    requires valid { IsValid nw.now st.now }
    requires at_stops { AreAtStops nw.now.stops st.now }
    ensures { (q : AQuery) → (c : ACert) × IsGoodCertificate nw.now st.now q c }
{}

/// A certificate is good exactly where tests over plain lists say so.
pub fn good_certificates_are_decided(nw: &Network, st: &State)
    requires { IsValid nw.now st.now }
    ensures { (q : AQuery) (c : ACert)
        → (is_good nw.now (all_rides nw.now st.now) q c ≡ true)
        ↔ IsGoodCertificate nw.now st.now q c }
{}

/// A ride is known by its train and the labels of its two calls, so that a certificate which names
/// it so tells its stops and its times.
pub fn rides_are_known_by_their_names(nw: &Network, st: &State)
    requires { IsValid nw.now st.now }
    ensures { (r s : APlanRide) → IsRide nw.now st.now r → IsRide nw.now st.now s
        → r.train ≡ s.train → r.board ≡ s.board → r.alight ≡ s.alight → r ≡ s }
{}

/// The plans of a search in rounds are the best ones: after m rounds they are the front for m
/// rides.
pub fn a_search_in_rounds_finds_the_front(nw: &Network, st: &State)
    requires { IsValid nw.now st.now }
    ensures { (q : AQuery) (m : ℕ) (r : Round) → IsAfterRounds nw.now st.now q m r
        → IsFront nw.now st.now q m r.plans }
{}

/// A search in rounds may end with a round after which one ride more leads nowhere earlier: its
/// plans are the front for any greater number of rides too, and its best plan is an earliest
/// journey.
pub fn a_search_in_rounds_may_end_early(nw: &Network, st: &State)
    requires { IsValid nw.now st.now }
    ensures front { (q : AQuery) (k : ℕ) (r : Round) → IsAfterRounds nw.now st.now q k r
        → HasArrivals nw.now st.now q (best_of r.plans) r.reached r.reached
        → (m : ℕ) → k ≤ m → IsFront nw.now st.now q m r.plans }
    ensures earliest { (q : AQuery) (k : ℕ) (r : Round) → IsAfterRounds nw.now st.now q k r
        → HasArrivals nw.now st.now q (best_of r.plans) r.reached r.reached
        → (p : APlan) → Contains r.plans p → best_of r.plans ≡ Some p.arrives
        → IsEarliest nw.now st.now q p.rides p.arrives }
    ensures none { (q : AQuery) (k : ℕ) (r : Round) → IsAfterRounds nw.now st.now q k r
        → HasArrivals nw.now st.now q (best_of r.plans) r.reached r.reached
        → r.plans ≡ [] → HasNoJourney nw.now st.now q }
{}

/// A front without a plan says that no journey has at most so many rides.
pub fn an_empty_front_means_no_journey(nw: &Network, st: &State)
    ensures { (q : AQuery) (m : ℕ) → IsFront nw.now st.now q m [] → (rides : List APlanRide)
        (at : ℕ) → IsJourney nw.now st.now q rides at → length rides ≤ m → ⊥ }
{}

/// Every query can be searched in any number of rounds, so that it has a front for any number of
/// rides.
pub fn every_query_has_a_front(nw: &Network, st: &State)
    requires valid { IsValid nw.now st.now }
    requires at_stops { AreAtStops nw.now.stops st.now }
    ensures { (q : AQuery) (m : ℕ) → (r : Round) × IsAfterRounds nw.now st.now q m r }
{}
