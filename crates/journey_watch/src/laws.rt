//! Laws of watched journeys.

ghost use Rattle.std.specs.Prelude.{◌≡◌, ◌<◌, ℕ, List, length};
ghost use Rattle.mt_base.specs.declared.certificates.CertRide.{CertRide as ACertRide};
ghost use Rattle.mt_base.specs.declared.journeys.Query.{Query as AQuery};
ghost use Rattle.delay_model.specs.declared.messages.Message.{Message as AMessage};
ghost use Rattle.delay_model.specs.Valid.{IsValid};
ghost use Rattle.standing_laws.specs.declared.standings.Standing.TheVariants.{Good, Broken};
ghost use Rattle.standing_laws.specs.Standings.{standing};
ghost use Rattle.journey_watch.specs.declared.watched.Watched.{Watched as AWatched};
ghost use Rattle.journey_watch.specs.Holding.{Holds, IsLastArrival};
ghost use Rattle.journey_watch.specs.Runs.{alerts_along, changes_along};
ghost use Rattle.journey_watch.specs.Watching.{AreKept};

use delay_model::network::Network;
use delay_model::state::State;

/// Over any run of messages, what is told behind each is exactly which standings it changes: those
/// of the journeys whose standing in the state after it is another than in the state before it.
pub fn alerts_are_the_changes(nw: &Network, st: &State)
    ensures { (ws : List AWatched) (ms : List AMessage) → AreKept nw.now st.now ws
        → alerts_along nw.now st.now ws ms ≡ changes_along nw.now st.now ws ms }
{}

/// A standing is broken at the first ride that does not hold, and good where all hold, with the
/// arrival of the last.
pub fn the_first_ride_that_does_not_hold_breaks_a_journey(nw: &Network, st: &State)
    requires { IsValid nw.now st.now }
    ensures broken { (q : AQuery) (rides : List ACertRide) (i : ℕ)
        → standing nw.now st.now q rides ≡ Broken i
        → (i < length rides) × (Holds nw.now st.now q rides i → ⊥)
        × ((j : ℕ) → j < i → Holds nw.now st.now q rides j) }
    ensures good { (q : AQuery) (rides : List ACertRide) (at : ℕ)
        → standing nw.now st.now q rides ≡ Good at
        → ((j : ℕ) → j < length rides → Holds nw.now st.now q rides j)
        × IsLastArrival nw.now st.now q rides at }
{}
