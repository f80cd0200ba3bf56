//! Laws of standings.

ghost use Rattle.std.specs.Prelude.{◌≡◌, ℕ, List, None, false, Contains, map};
ghost use Rattle.mt_base.specs.declared.certificates.CertRide.{CertRide as ACertRide};
ghost use Rattle.mt_base.specs.declared.journeys.PlanRide.{PlanRide as APlanRide};
ghost use Rattle.mt_base.specs.declared.journeys.Query.{Query as AQuery};
ghost use Rattle.mt_base.specs.declared.keys.Node.{Node as ANode};
ghost use Rattle.mt_base.specs.Order.{node_of};
ghost use Rattle.standing_laws.specs.declared.standings.Standing.TheVariants.{Good};
ghost use Rattle.delay_model.specs.declared.messages.Message.{Message as AMessage};
ghost use Rattle.delay_model.specs.declared.state.Event.{Event as AnEvent};
ghost use Rattle.delay_model.specs.Effect.{effect};
ghost use Rattle.delay_model.specs.Journeys.{IsJourney};
ghost use Rattle.delay_model.specs.Messages.{IsWellFormed};
ghost use Rattle.delay_model.specs.Refusals.{refusal};
ghost use Rattle.delay_model.specs.Touched.{changed};
ghost use Rattle.delay_model.specs.Valid.{IsValid};
ghost use Rattle.journey_laws.specs.Certificates.{name_of};
ghost use Rattle.standing_laws.specs.Standings.{first_arrival, is_on_one, standing};

use delay_model::network::Network;
use delay_model::state::State;

/// An accepted message leaves the standing of a journey of whose trains it changes no event. So
/// after a message only journeys on the trains of the events that it changes need to be looked at;
/// the events may be any that are at least these.
pub fn standings_change_with_their_trains(nw: &Network, st: &State)
    requires { IsValid nw.now st.now }
    ensures { (m : AMessage) → IsWellFormed m → refusal nw.now st.now m ≡ None
        → (nodes : List ANode) → ((v : AnEvent)
        → Contains (changed nw.now st.now (effect st.now m)) v → Contains nodes (node_of v.key))
        → (q : AQuery) (rides : List ACertRide) → is_on_one nodes rides ≡ false
        → standing nw.now (effect st.now m) q rides ≡ standing nw.now st.now q rides }
{}

/// A journey of a query has a good standing, with its arrival, and begins to be watched with it.
pub fn journeys_have_a_good_standing(nw: &Network, st: &State)
    requires { IsValid nw.now st.now }
    ensures good { (q : AQuery) (rides : List APlanRide) (at : ℕ)
        → IsJourney nw.now st.now q rides at
        → standing nw.now st.now q (map name_of rides) ≡ Good at }
    ensures first { (q : AQuery) (rides : List APlanRide) (at : ℕ)
        → IsJourney nw.now st.now q rides at → first_arrival q.time rides ≡ at }
{}
