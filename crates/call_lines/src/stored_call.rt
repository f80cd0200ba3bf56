//! A call as it is stored: what is known of it, and where the calls beside it are.

ghost use Rattle.std.specs.Prelude.{◌≡◌, None, true, false};
ghost use Rattle.std.specs.Option.{option_or};
ghost use Rattle.delay_model.specs.Effect.{change_event};
ghost use Rattle.call_lines.specs.Calls.{values_of};
ghost use Rattle.call_lines.specs.Edits.{edited};
ghost use Rattle.call_lines.specs.Linked.{IsEdited, IsPlaced, call_of, call_report, live_report, next_report_of, values_by};

use crate::calls::Edit;
use crate::optional_time::OptionalTime;
use delay_model::state::{Call, EventValues};
use mt_base::numbers::{Label, StopNo, Time, TrainNo};

/// What is known of an arrival or a departure.
#[derive(Clone, Copy)]
pub(crate) struct StoredEvent {
    pub(crate) scheduled: Time,
    pub(crate) forecast: OptionalTime,
    pub(crate) report: OptionalTime,
    pub(crate) live: bool,
}

impl StoredEvent {
    fn new(values: &EventValues) -> StoredEvent
        ensures { values_by result ≡ values.now }
    {
        StoredEvent {
            scheduled: values.scheduled,
            forecast: OptionalTime::new(values.forecast),
            report: OptionalTime::new(values.report),
            live: values.live,
        }
    }

    #[inline(always)]
    fn values(&self) -> EventValues
        ensures { result ≡ values_by self.now }
    {
        EventValues {
            scheduled: self.scheduled,
            live: self.live,
            forecast: self.forecast.get(),
            report: self.report.get(),
        }
    }

    fn edit(&mut self, edit: Edit)
        ensures { values_by self.new ≡ edited edit (values_by self.old) }
    {
        match edit {
            Edit::Forecast(time) => self.forecast = OptionalTime::new(time),
            Edit::Report(time) => self.report = OptionalTime::new(time),
            Edit::Kill => self.live = false,
        }
    }
}

/// A call in its slot, with the slots of the calls before and after it along its train. In 64
/// bytes.
#[derive(Clone, Copy)]
pub struct StoredCall {
    pub(crate) label: Label,
    pub(crate) stop: StopNo,
    pub(crate) arrival: StoredEvent,
    pub(crate) departure: StoredEvent,
    pub(crate) train: TrainNo,
    /// The slot of the call before it. Its own, where it is the first of its train.
    pub(crate) before: u32,
    /// The slot of the call after it. Its own, where it is the last of its train.
    pub(crate) after: u32,
    /// Its place among the calls of its train, from 0.
    pub(crate) place: u32,
    /// The first report of a live event of the calls after it.
    pub(crate) next_report: OptionalTime,
    pub(crate) board: bool,
    pub(crate) alight: bool,
    /// Whether it is one of its train's calls, and no rerouting has taken it out.
    pub(crate) current: bool,
}

impl StoredCall {
    /// A call of the train of this number, at a place among its calls, between the calls in two
    /// slots, with nothing reported after it.
    pub fn new(train: TrainNo, place: u32, before: u32, after: u32, call: &Call) -> StoredCall
        ensures call { call_of result ≡ call.now }
        ensures train { result.train ≡ train }
        ensures links { (result.before ≡ before) × (result.after ≡ after) }
        ensures place { (result.place ≡ place) × (result.current ≡ true) }
        ensures report { next_report_of result ≡ None }
    {
        StoredCall {
            label: call.label,
            stop: call.stop,
            arrival: StoredEvent::new(&call.arrival),
            departure: StoredEvent::new(&call.departure),
            train,
            before,
            after,
            place,
            next_report: OptionalTime::none(),
            board: call.board,
            alight: call.alight,
            current: true,
        }
    }

    /// Its label.
    pub fn label(&self) -> Label
        ensures { result ≡ self.now.label }
    {
        self.label
    }

    /// Where the train calls.
    pub fn stop(&self) -> StopNo
        ensures { result ≡ self.now.stop }
    {
        self.stop
    }

    /// Whether passengers may board.
    pub fn boards(&self) -> bool
        ensures { result ≡ self.now.board }
    {
        self.board
    }

    /// Whether passengers may alight.
    pub fn alights(&self) -> bool
        ensures { result ≡ self.now.alight }
    {
        self.alight
    }

    /// What is known of its departure (dep true) or arrival.
    #[inline(always)]
    pub fn values(&self, dep: bool) -> EventValues
        ensures { result ≡ values_of dep (call_of self.now) }
    {
        if dep {
            self.departure.values()
        } else {
            self.arrival.values()
        }
    }

    /// Whether its departure (dep true) or arrival takes place.
    pub fn is_live(&self, dep: bool) -> bool
        ensures { result ≡ (values_of dep (call_of self.now)).live }
    {
        if dep {
            self.departure.live
        } else {
            self.arrival.live
        }
    }

    /// The slot of the call before it.
    pub fn before(&self) -> u32
        ensures { result ≡ self.now.before }
    {
        self.before
    }

    /// The slot of the call after it.
    pub fn after(&self) -> u32
        ensures { result ≡ self.now.after }
    {
        self.after
    }

    /// Its place among the calls of its train.
    pub fn place(&self) -> u32
        ensures { result ≡ self.now.place }
    {
        self.place
    }

    /// Whether it is one of its train's calls still.
    pub fn is_current(&self) -> bool
        ensures { result ≡ self.now.current }
    {
        self.current
    }

    /// The first report of a live event of the calls after it.
    pub fn next_report(&self) -> Option<Time>
        ensures { result ≡ next_report_of self.now }
    {
        self.next_report.get()
    }

    /// The report of its departure, if that is live.
    pub fn departure_report(&self) -> Option<Time>
        ensures { result ≡ live_report (call_of self.now).departure }
    {
        if self.departure.live {
            self.departure.report.get()
        } else {
            None
        }
    }

    /// The report of its arrival, or else of its departure, of those that are live.
    pub fn report(&self) -> Option<Time>
        ensures { result ≡ call_report (call_of self.now) }
    {
        if self.arrival.live
            && let Some(time) = self.arrival.report.get()
        {
            return Some(time);
        }
        self.departure_report()
    }

    /// Changes what is known of its departure (dep true) or arrival.
    pub fn edit(&mut self, dep: bool, edit: Edit)
        ensures call { call_of self.new ≡ change_event dep (edited edit) (call_of self.old) }
        ensures rest { IsEdited self.old self.new }
    {
        if dep {
            self.departure.edit(edit);
        } else {
            self.arrival.edit(edit);
        }
    }

    /// Changes the slot of the call after it.
    pub fn set_after(&mut self, slot: u32)
        ensures { self.new ≡ record self.old { after = slot } }
    {
        self.after = slot;
    }

    /// Changes the slot of the call before it.
    pub fn set_before(&mut self, slot: u32)
        ensures { self.new ≡ record self.old { before = slot } }
    {
        self.before = slot;
    }

    /// Gives it its place among the calls of its train and the first report after it, and answers
    /// its own report, or else that one.
    pub fn renew(&mut self, place: u32, next_report: Option<Time>) -> Option<Time>
        ensures rest { IsPlaced place self.old self.new }
        ensures next { next_report_of self.new ≡ next_report }
        ensures report { result ≡ option_or (call_report (call_of self.old)) next_report }
    {
        self.place = place;
        self.next_report = OptionalTime::new(next_report);
        self.report().or(self.next_report.get())
    }

    /// It is no longer one of its train's calls.
    pub fn take_out(&mut self)
        ensures { self.new ≡ record self.old { current = false } }
    {
        self.current = false;
    }
}
