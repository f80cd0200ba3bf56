//! The edges between two events of a graph, and what they follow from.

ghost use Rattle.std.specs.Prelude.{◌≡◌, ℕ, [], ◌∷◌, nat_eq, true, false, Some, None, IfSome};
ghost use Rattle.std.specs.Prelude.{is_some, length};
ghost use Rattle.std.specs.Option.{option_to_list};
ghost use Rattle.delay_model.specs.declared.overrides.Override.TheVariants as overrides;
ghost use Rattle.delay_model.specs.declared.state.Event.{Event as AnEvent};
ghost use Rattle.delay_model.specs.Edges.{edge_on, may_connect, override_of, transfer};
ghost use Rattle.delay_model.specs.Edges.{wait_between};
ghost use Rattle.delay_model.specs.Events.{event_named};
ghost use Rattle.delay_model.specs.Waits.{wait};
ghost use Rattle.edge_rules.specs.Found.{planned_between, waits_at};

use crate::along::edge_between;
use crate::connections::{is_planned, may_connect};
use crate::graph::Graph;
use delay_model::state::{Edge, EdgeKind, Event};
use mt_base::keys::Node;
use mt_base::numbers::StopNo;
use waiting_rules::WaitClass;

#[tactic(auto, using(crate::proofs::GraphLemmas::graphs))]
impl Graph {
    /// The edge along a train from an event to the next one, if both are live.
    pub fn edge_along(&self, from: &Event, to: &Event) -> Option<Edge>
        ensures { option_to_list result ≡ edge_on self.now.network.opts from.now (to.now ∷ []) }
    {
        edge_between(&self.opts, from, to)
    }

    /// The edge from one event to another that the waiting rules plan where no dispatcher chose
    /// anything for the connection.
    #[tactic(auto, unfolding(delay_model::specs::Edges::transfer))]
    pub fn edge_by_rule(&self, from: &Event, to: &Event) -> Option<Edge>
        ensures { option_to_list result ≡ transfer self.now.network None from.now to.now }
    {
        if !may_connect(from, to) {
            return None;
        }
        let weight = self.changes.change(from.stop, to.stop)?;
        let wait = self.waits.wait(from.route, to.route, to.stop);
        if !is_planned(&self.opts, weight, wait, from, to) {
            return None;
        }
        Some(Edge {
            from: from.key,
            to: to.key,
            weight,
            kind: EdgeKind::Planned { wait },
        })
    }

    /// Whether there is no waiting rule.
    pub(crate) fn has_no_rules(&self) -> bool
        ensures { result ≡ nat_eq (length self.now.network.rules) 0 }
    {
        self.waits.is_empty()
    }

    /// Whether trains may wait at a stop: false only where none does.
    pub(crate) fn may_wait_at(&self, stop: StopNo) -> bool
        ensures { result ≡ false → (feeder connecting : ℕ) → wait self.now.network.stops
            self.now.network.rules feeder connecting stop ≡ 0 }
    {
        self.waits.may_wait_at(stop)
    }

    /// How long after a change a departure may lie that is planned to be reached, in seconds.
    pub(crate) fn window(&self) -> u32
        ensures { result ≡ self.now.network.opts.window }
    {
        self.opts.window
    }

    /// The event of this name, live or not, if it is there.
    pub(crate) fn find_event(&self, n: Node) -> Option<Event>
        ensures { result ≡ event_named self.now.state n }
    {
        if !self.trains.has(n.train, n.label) {
            return None;
        }
        Some(self.trains.event(n))
    }

    /// How long the train of a departure waits, by the routes of late feeders. None only if it
    /// waits for none.
    pub(crate) fn class(&self, at: &Event) -> Option<WaitClass<'_>>
        ensures class { IfSome result (λ waits. waits ≡ waits_at self.now at.now) }
        ensures none { result ≡ None → (u : AnEvent) → wait_between self.now.network u at.now ≡ 0 }
    {
        self.waits.class(at.route, at.stop)
    }

    /// The edge that is planned to a departure from an event by a change of so many seconds, where
    /// its train waits so, if nothing was chosen for the connection.
    #[inline(always)]
    pub(crate) fn planned_to(
        &self,
        waits: &WaitClass<'_>,
        seconds: u32,
        from: &Event,
        to: &Event,
    ) -> Option<Edge>
        requires { waits.now ≡ waits_at self.now to.now }
        ensures { option_to_list result ≡ planned_between self.now seconds from.now to.now }
    {
        if !may_connect(from, to) {
            return None;
        }
        self.planned(waits.wait(from.route), seconds, from, to)
    }

    /// The edge that is planned from an arrival to an event by a change of so many seconds, if
    /// nothing was chosen for the connection. How long the train of the event waits is looked up
    /// among all rules.
    pub(crate) fn planned_from(&self, seconds: u32, from: &Event, to: &Event) -> Option<Edge>
        ensures { option_to_list result ≡ planned_between self.now seconds from.now to.now }
    {
        if !may_connect(from, to) {
            return None;
        }
        let wait = self.waits.wait(from.route, to.route, to.stop);
        self.planned(wait, seconds, from, to)
    }

    /// The edge that is planned from one event to another by a change of so many seconds and with
    /// a wait of so many, if nothing was chosen for the connection.
    #[inline(always)]
    fn planned(&self, wait: u32, seconds: u32, from: &Event, to: &Event) -> Option<Edge>
        requires connects { may_connect from.now to.now ≡ true }
        requires waits { wait ≡ wait_between self.now.network from.now to.now }
        ensures { option_to_list result ≡ planned_between self.now seconds from.now to.now }
    {
        if !is_planned(&self.opts, seconds, wait, from, to) || self.is_chosen(from, to) {
            return None;
        }
        Some(Edge {
            from: from.key,
            to: to.key,
            weight: seconds,
            kind: EdgeKind::Planned { wait },
        })
    }

    /// Whether a dispatcher keeps or drops the connection between two events.
    fn is_chosen(&self, from: &Event, to: &Event) -> bool
        ensures { result ≡ is_some (override_of self.now.state from.now to.now) }
    {
        !self.trains.has_no_overrides()
            && self
                .trains
                .override_of(from.key.node(), to.key.node())
                .is_some()
    }

    /// The edge from one event to another whose connection is kept, if a change is possible.
    #[tactic(auto, unfolding(delay_model::specs::Edges::transfer))]
    pub(crate) fn kept(&self, from: &Event, to: &Event) -> Option<Edge>
        ensures { option_to_list result ≡ transfer self.now.network (Some overrides.Keep)
            from.now to.now }
    {
        if !may_connect(from, to) {
            return None;
        }
        let weight = self.changes.change(from.stop, to.stop)?;
        Some(Edge {
            from: from.key,
            to: to.key,
            weight,
            kind: EdgeKind::Kept,
        })
    }
}
