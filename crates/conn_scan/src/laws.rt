//! Rides, and why every query has an answer.

ghost use Rattle.std.specs.Prelude.{◌≡◌, ◌≤◌, ◌⊎◌, ℕ, List, Option, true, Contains, All};
ghost use Rattle.mt_base.specs.declared.keys.Node.{Node as ANode};
ghost use Rattle.mt_base.specs.declared.journeys.PlanRide.{PlanRide as APlanRide};
ghost use Rattle.mt_base.specs.declared.journeys.Query.{Query as AQuery};
ghost use Rattle.delay_model.specs.AtStops.{AreAtStops};
ghost use Rattle.delay_model.specs.Journeys.{IsRide, IsEarliest, HasNoJourney};
ghost use Rattle.delay_model.specs.Valid.{IsValid};
ghost use Rattle.journey_laws.specs.Rides.{BeginsWith, departure_of_ride, rides_from};
ghost use Rattle.conn_scan.specs.Reached.{Access, AreExplained};
ghost use Rattle.conn_scan.specs.Ways.{LeadsBackwards};

use delay_model::network::Network;
use delay_model::state::State;

/// A train arrives at a stop not before it left the one where the passenger boarded.
pub fn rides_run_forward(nw: &Network, st: &State)
    requires { IsValid nw.now st.now }
    ensures { (r : APlanRide) → IsRide nw.now st.now r → r.board_time ≤ r.alight_time }
{}

/// The rides that are listed for a departure are the rides that begin with it: all of them and no
/// others.
pub fn rides_are_listed_by_departure(nw: &Network, st: &State)
    requires { IsValid nw.now st.now }
    ensures begin { (n : ANode) → n.dep ≡ true → All (BeginsWith nw.now st.now n)
        (rides_from nw.now st.now n) }
    ensures all { (r : APlanRide) → IsRide nw.now st.now r
        → Contains (rides_from nw.now st.now (departure_of_ride r)) r }
{}

/// The way back from a ride along the rides behind which its stops were reached leads to ever
/// earlier departures, so it has an end.
pub fn the_way_back_ends(nw: &Network, st: &State)
    requires { IsValid nw.now st.now }
    ensures { (q : AQuery) (access : ℕ → Option Access) → AreExplained nw.now st.now q access
        → LeadsBackwards nw.now st.now access }
{}

/// Every query has an answer: a journey such that none arrives earlier, or there is none.
pub fn every_query_has_an_answer(nw: &Network, st: &State)
    requires valid { IsValid nw.now st.now }
    requires at_stops { AreAtStops nw.now.stops st.now }
    ensures { (q : AQuery) → ((rides : List APlanRide) × (arrives : ℕ)
        × IsEarliest nw.now st.now q rides arrives) ⊎ HasNoJourney nw.now st.now q }
{}
