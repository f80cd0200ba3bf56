//! Forecasts and reports of events.

ghost use Rattle.std.specs.Prelude.{◌≡◌, IsTrue, None, Some};
ghost use Rattle.delay_model.specs.Events.{is_live};
ghost use Rattle.delay_model.specs.Effect.{with_event, with_forecast, with_report};

use crate::trains::Trains;
use call_lines::calls::Edit;
use call_lines::line::{current_slot, renew_before};
use mt_base::keys::Node;
use mt_base::numbers::Time;

impl Trains {
    /// Gives an event a forecast, or takes back the one that it has.
    fn put_forecast(&mut self, n: Node, forecast: Option<Time>)
        requires { IsTrue (is_live self.old n) }
        ensures { self.new ≡ with_event n (with_forecast forecast) self.old }
    {
        if let Some(slot) = current_slot(&self.calls, &self.slots, n.train, n.label) {
            self.calls[slot as usize].edit(n.dep, Edit::Forecast(forecast));
        }
    }

    /// Gives an event a report, or takes back the one that it has.
    fn put_report(&mut self, n: Node, report: Option<Time>)
        requires { IsTrue (is_live self.old n) }
        ensures { self.new ≡ with_event n (with_report report) self.old }
    {
        if let Some(slot) = current_slot(&self.calls, &self.slots, n.train, n.label) {
            self.calls[slot as usize].edit(n.dep, Edit::Report(report));
            renew_before(&mut self.calls, slot);
        }
    }

    /// Sets the forecast of an event, in seconds from the base of day 0.
    pub fn set_forecast(&mut self, n: Node, t: Time)
        requires { IsTrue (is_live self.old n) }
        ensures { self.new ≡ with_event n (with_forecast (Some t)) self.old }
    {
        self.put_forecast(n, Some(t));
    }

    /// Takes back the forecast of an event, if it has one.
    pub fn clear_forecast(&mut self, n: Node)
        requires { IsTrue (is_live self.old n) }
        ensures { self.new ≡ with_event n (with_forecast None) self.old }
    {
        self.put_forecast(n, None);
    }

    /// Sets the report of an event, in seconds from the base of day 0.
    pub fn set_report(&mut self, n: Node, t: Time)
        requires { IsTrue (is_live self.old n) }
        ensures { self.new ≡ with_event n (with_report (Some t)) self.old }
    {
        self.put_report(n, Some(t));
    }

    /// Takes back the report of an event, if it has one.
    pub fn clear_report(&mut self, n: Node)
        requires { IsTrue (is_live self.old n) }
        ensures { self.new ≡ with_event n (with_report None) self.old }
    {
        self.put_report(n, None);
    }
}
