//! Forecasts, reports and choices for connections: what is known of single events and connections.

ghost use Rattle.std.specs.Prelude.{◌≡◌, ◌<◌, IsTrue, Some, None, false};
ghost use Rattle.delay_model.specs.Effect.{with_event, with_forecast, with_report, has_override};
ghost use Rattle.delay_model.specs.Effect.{with_override, without_override};
ghost use Rattle.delay_model.specs.Events.{is_live};
ghost use Rattle.delay_model.specs.Overrides.{connection};
ghost use Rattle.edge_rules.specs.GraphState.{with_state};

use crate::graph::Graph;
use delay_model::overrides::Override;
use mt_base::keys::Node;
use mt_base::numbers::Time;

#[tactic(auto, using(crate::proofs::GraphLemmas::graphs))]
impl Graph {
    /// Sets the forecast of an event, in seconds from the base of day 0.
    pub fn set_forecast(&mut self, n: Node, t: Time)
        requires { IsTrue (is_live self.old.state n) }
        ensures { self.new ≡ with_state
            (with_event n (with_forecast (Some t)) self.old.state) self.old }
    {
        self.trains.set_forecast(n, t);
        self.trains.labels_are_distinct();
    }

    /// Takes back the forecast of an event, if it has one.
    pub fn clear_forecast(&mut self, n: Node)
        requires { IsTrue (is_live self.old.state n) }
        ensures { self.new ≡ with_state
            (with_event n (with_forecast None) self.old.state) self.old }
    {
        self.trains.clear_forecast(n);
        self.trains.labels_are_distinct();
    }

    /// Sets the report of an event, in seconds from the base of day 0.
    pub fn set_report(&mut self, n: Node, t: Time)
        requires { IsTrue (is_live self.old.state n) }
        ensures { self.new ≡ with_state
            (with_event n (with_report (Some t)) self.old.state) self.old }
    {
        self.trains.set_report(n, t);
        self.trains.labels_are_distinct();
    }

    /// Takes back the report of an event, if it has one.
    pub fn clear_report(&mut self, n: Node)
        requires { IsTrue (is_live self.old.state n) }
        ensures { self.new ≡ with_state
            (with_event n (with_report None) self.old.state) self.old }
    {
        self.trains.clear_report(n);
        self.trains.labels_are_distinct();
    }

    /// Keeps or drops a connection, in place of what was chosen before. It takes no memory.
    pub fn set_override(&mut self, feeder: Node, train: Node, choice: Override)
        requires spare { has_override self.old.state (connection feeder train) ≡ false
            → 0 < self.old.state.spare_overrides }
        ensures { self.new ≡ with_state
            (with_override (connection feeder train) choice self.old.state) self.old }
    {
        self.trains.set_override(feeder, train, choice);
    }

    /// Takes back what was chosen for a connection.
    pub fn clear_override(&mut self, feeder: Node, train: Node)
        ensures { self.new ≡ with_state
            (without_override (connection feeder train) self.old.state) self.old }
    {
        self.trains.clear_override(feeder, train);
    }
}
