//! What a chain of causes tells.

ghost use Rattle.std.specs.Prelude.{◌≡◌, ◌≢◌, ◌≤◌, ℕ, List, [], Option, Some, true, length, Contains, All};
ghost use Rattle.std.specs.List.{AllPairs};
ghost use Rattle.std.specs.FinMap.{get};
ghost use Rattle.mt_base.specs.declared.keys.Key.{Key as AKey};
ghost use Rattle.mt_base.specs.declared.keys.Node.{Node as ANode};
ghost use Rattle.mt_base.specs.Order.{node_of};
ghost use Rattle.delay_model.specs.declared.state.Event.{Event as AnEvent};
ghost use Rattle.delay_model.specs.declared.state.Edge.{Edge as AnEdge};
ghost use Rattle.delay_model.specs.declared.overrides.Override.TheVariants.{Keep};
ghost use Rattle.delay_model.specs.Overrides.{connection};
ghost use Rattle.delay_model.specs.Events.{events};
ghost use Rattle.delay_model.specs.Edges.{edges};
ghost use Rattle.delay_model.specs.Timing.{event_time};
ghost use Rattle.delay_model.specs.Valid.{IsValid};
ghost use Rattle.cause_laws.specs.declared.causes.Cause.{Cause as ACause};
ghost use Rattle.cause_laws.specs.declared.causes.Cause.TheVariants.{Capped, Kept};
ghost use Rattle.cause_laws.specs.declared.causes.Link.{Link as ALink};
ghost use Rattle.cause_laws.specs.Causes.{cause, edges_by_rule, holds_by_rule, waits_by_rule, IsExplained, IsOfItsTrain};
ghost use Rattle.cause_laws.specs.Chains.{chain, why, IsChain, EndsPlainly, AreLinked, IsNotCapped, StandsIn, IsCappedIn};

use delay_model::network::Network;
use delay_model::state::State;

/// Whether the waiting rules alone would hold an edge from an event to another is told by the two
/// events alone.
pub fn rules_are_asked_of_two_events(nw: &Network, st: &State)
    requires { IsValid nw.now st.now }
    ensures { (u v : AnEvent) (e : AnEdge) (time : ℕ) → Contains (events st.now) u
        → Contains (events st.now) v → e.from ≡ u.key → e.to ≡ v.key
        → holds_by_rule (edges_by_rule nw.now st.now) time e ≡ waits_by_rule nw.now u v time }
{}

/// Each live event has a cause, and the cause says how it comes to its time. What says so is the
/// cause and no other.
pub fn every_live_event_has_a_cause(nw: &Network, st: &State)
    requires { IsValid nw.now st.now }
    ensures cause { (v : AnEvent) → Contains (events st.now) v → v.live ≡ true
        → (c : ACause) × (cause nw.now st.now v ≡ Some c) × IsExplained nw.now st.now v c }
    ensures only { (v : AnEvent) (c : ACause) → Contains (events st.now) v → v.live ≡ true
        → IsExplained nw.now st.now v c → cause nw.now st.now v ≡ Some c }
{}

/// A run is from a departure to an arrival of the train, a stop is within one call, a cap is a
/// report of the train, and what a departure is held for is an arrival of another train. What is
/// called kept is a connection that a dispatcher keeps.
pub fn causes_tell_the_train(nw: &Network, st: &State)
    ensures train { (v : AnEvent) (c : ACause) → IsExplained nw.now st.now v c → IsOfItsTrain v c }
    ensures kept { (v : AnEvent) (k : AKey) → IsExplained nw.now st.now v (Kept k)
        → get st.now.overrides (connection (node_of k) (node_of v.key)) ≡ Some Keep }
{}

/// The chain of a live event begins with the event, names at each link the event of the next, and
/// goes on until a cause names none. No other list does.
pub fn every_live_event_has_one_chain(nw: &Network, st: &State)
    requires { IsValid nw.now st.now }
    ensures chain { (v : AnEvent) → Contains (events st.now) v → v.live ≡ true
        → IsChain nw.now st.now v (chain nw.now st.now v) }
    ensures only { (v : AnEvent) (links : List ALink) → Contains (events st.now) v → v.live ≡ true
        → IsChain nw.now st.now v links → links ≡ chain nw.now st.now v }
{}

/// A chain ends with a report, a schedule or a forecast. Each link before it has the time of the
/// next and the weight of an edge, or the very time of a report. No event comes twice, so there are
/// no more links than events.
pub fn a_chain_leads_to_its_end(nw: &Network, st: &State)
    requires { IsValid nw.now st.now }
    ensures ends { (v : AnEvent) → Contains (events st.now) v → v.live ≡ true
        → EndsPlainly (chain nw.now st.now v) }
    ensures linked { (v : AnEvent) → Contains (events st.now) v → v.live ≡ true
        → AreLinked (edges nw.now st.now) (chain nw.now st.now v) }
    ensures once { (v : AnEvent) → Contains (events st.now) v → v.live ≡ true
        → AllPairs (λ l m. l.event ≢ m.event) (chain nw.now st.now v) }
    ensures length { (v : AnEvent) → Contains (events st.now) v → v.live ≡ true
        → length (chain nw.now st.now v) ≤ length (events st.now) }
{}

/// While a chain stands, its event is no earlier: in another state in which its last value is no
/// earlier, each of its edges is there and counts, and none of its events is reported or capped
/// earlier.
pub fn an_event_is_no_earlier_while_its_chain_stands(nw: &Network, st: &State, other: &State)
    requires now { IsValid nw.now st.now }
    requires then { IsValid nw.now other.now }
    ensures { (v : AnEvent) → Contains (events st.now) v → v.live ≡ true
        → StandsIn nw.now other.now (chain nw.now st.now v)
        → event_time nw.now st.now v.key ≤ event_time nw.now other.now v.key }
{}

/// A chain without a cap stands in its own state.
pub fn a_chain_without_a_cap_stands(nw: &Network, st: &State)
    requires { IsValid nw.now st.now }
    ensures { (v : AnEvent) → Contains (events st.now) v → v.live ≡ true
        → All IsNotCapped (chain nw.now st.now v)
        → StandsIn nw.now st.now (chain nw.now st.now v) }
{}

/// A capped event is no later while its cap stands: in another state in which it is not reported
/// either, and a report of its train caps it no later. In its own state that is so.
pub fn a_capped_event_is_no_later_while_its_cap_stands(nw: &Network, st: &State, other: &State)
    requires now { IsValid nw.now st.now }
    requires then { IsValid nw.now other.now }
    ensures most { (v : AnEvent) → IsCappedIn other.now v.key (event_time nw.now st.now v.key)
        → event_time nw.now other.now v.key ≤ event_time nw.now st.now v.key }
    ensures own { (v : AnEvent) (k : AKey) → Contains (events st.now) v
        → cause nw.now st.now v ≡ Some (Capped k)
        → IsCappedIn st.now v.key (event_time nw.now st.now v.key) }
{}

/// An event is asked for by its name: `why` is the chain of the live event of the name, and it is
/// empty where no live event has it.
pub fn a_name_leads_to_the_chain(nw: &Network, st: &State)
    requires { IsValid nw.now st.now }
    ensures live { (v : AnEvent) → Contains (events st.now) v → v.live ≡ true
        → why nw.now st.now (node_of v.key) ≡ chain nw.now st.now v }
    ensures none { (n : ANode) → ((v : AnEvent) → Contains (events st.now) v → v.live ≡ true
        → node_of v.key ≢ n) → why nw.now st.now n ≡ [] }
{}
