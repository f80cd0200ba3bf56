//! What messages change, kind by kind.

ghost use Rattle.std.specs.Prelude.{◌≡◌};
ghost use Rattle.delay_model.specs.Messages.{IsWellFormed};
ghost use Rattle.train_nodes.specs.Kinds.{HasFewCalls, changed_train, changed_event, is_of_report, message_of};

use crate::well_formed::Msg;
use delay_model::messages::Message;
use delay_model::overrides::Override;
use mt_base::keys::Node;
use mt_base::new_calls::NewCall;
use mt_base::numbers::{Day, Label, RouteNo, Time, TrainNo};

/// What a message changes.
#[derive(Clone, Copy)]
pub enum Kind<'a> {
    /// A value of an event.
    Value(Value),

    /// What is chosen for a connection.
    Choice(Choice),

    /// The calls of a train, or which of its events take place.
    Shape(Shape<'a>),
}

/// Whether an event took place at a time, or is expected then.
#[derive(Clone, Copy, Debug, PartialEq, Eq)]
pub enum ValueKind {
    /// It took place then.
    Report,
    /// It is expected then.
    Forecast,
}

/// What is said of the report or the forecast of an event.
#[derive(Clone, Copy, Debug, PartialEq, Eq)]
pub enum Value {
    /// It took place or is expected at a time.
    Event {
        /// Which of the two.
        kind: ValueKind,
        /// The event.
        node: Node,
        /// When it took place or is expected.
        time: Time,
    },

    /// It took place at another time than was reported, or the report is taken back.
    Correct {
        /// The event.
        node: Node,
        /// When it took place. None takes the report back.
        time: Option<Time>,
    },

    /// The forecast is taken back.
    Withdraw {
        /// The event.
        node: Node,
    },
}

impl Value {
    /// The event.
    pub fn node(&self) -> Node
        ensures { result ≡ changed_event self.now }
    {
        match self {
            Value::Event { node, .. } => *node,
            Value::Correct { node, .. } => *node,
            Value::Withdraw { node } => *node,
        }
    }

    /// Whether it is the report that is given, corrected or taken back, and not the forecast.
    pub fn is_of_report(&self) -> bool
        ensures { result ≡ is_of_report self.now }
    {
        match self {
            Value::Event { kind, .. } => *kind == ValueKind::Report,
            Value::Correct { .. } => true,
            Value::Withdraw { .. } => false,
        }
    }
}

/// What is chosen for the connection from an arrival to a departure of another train.
#[derive(Clone, Copy, Debug, PartialEq, Eq)]
pub struct Choice {
    /// The arrival.
    pub feeder: Node,
    /// The departure.
    pub train: Node,

    /// Whether it is kept or dropped. None leaves it to the waiting rules again.
    pub choice: Option<Override>,
}

/// Which calls a train makes, or which of its events take place.
#[derive(Clone, Copy)]
pub enum Shape<'a> {
    /// The train does not run from the departure of one call to the arrival of a later one.
    Cancel {
        /// The train.
        train: TrainNo,
        /// The label of the call from whose departure on it does not run.
        from: Label,
        /// The label of the later call, up to whose arrival it does not run.
        to: Label,
    },

    /// Between two of its calls the train makes these calls, and not those that it made so far.
    Reroute {
        /// The train.
        train: TrainNo,
        /// The label of the call before the new ones.
        from: Label,
        /// The label of the call after them.
        to: Label,
        /// The new calls, in their order.
        via: &'a [NewCall],
    },

    /// One more train runs.
    Extra {
        /// The number of the train.
        train: TrainNo,
        /// Its service day.
        day: Day,
        /// Its route.
        route: RouteNo,
        /// Its calls, in their order.
        calls: &'a [NewCall],
    },
}

impl<'a> Shape<'a> {
    /// The train that is changed or added.
    pub fn train(&self) -> TrainNo
        ensures { result ≡ changed_train self.now }
    {
        match self {
            Shape::Cancel { train, .. } => *train,
            Shape::Reroute { train, .. } => *train,
            Shape::Extra { train, .. } => *train,
        }
    }
}

impl Msg {
    /// What it changes.
    pub fn kind(&self) -> Kind<'_>
        ensures says { message_of result ≡ self.now }
        ensures well_formed { IsWellFormed self.now }
        ensures few { HasFewCalls self.now }
    {
        match self.message() {
            Message::Report { node, time } => of_value(ValueKind::Report, node, *time),
            Message::Forecast { node, time } => of_value(ValueKind::Forecast, node, *time),
            Message::Correct { node, time } => Kind::Value(Value::Correct {
                node: *node,
                time: *time,
            }),
            Message::Withdraw { node } => Kind::Value(Value::Withdraw { node: *node }),
            Message::Keep { feeder, train } => of_choice(feeder, train, Some(Override::Keep)),
            Message::Drop { feeder, train } => of_choice(feeder, train, Some(Override::Drop)),
            Message::Rule { feeder, train } => of_choice(feeder, train, None),
            Message::Cancel { train, from, to } => Kind::Shape(Shape::Cancel {
                train: *train,
                from: *from,
                to: *to,
            }),
            Message::Reroute {
                train,
                from,
                to,
                via,
            } => Kind::Shape(Shape::Reroute {
                train: *train,
                from: *from,
                to: *to,
                via: via.as_slice(),
            }),
            Message::Extra {
                train,
                day,
                route,
                calls,
            } => Kind::Shape(Shape::Extra {
                train: *train,
                day: *day,
                route: *route,
                calls: calls.as_slice(),
            }),
        }
    }
}

fn of_value<'a>(kind: ValueKind, node: &Node, time: Time) -> Kind<'a>
    ensures { result ≡ Kind.Value (Value.Event kind node.now time) }
{
    Kind::Value(Value::Event {
        kind,
        node: *node,
        time,
    })
}

fn of_choice<'a>(feeder: &Node, train: &Node, choice: Option<Override>) -> Kind<'a>
    ensures { result ≡ Kind.Choice (record {
      feeder = feeder.now;
      train = train.now;
      choice = choice;
    }) }
{
    Kind::Choice(Choice {
        feeder: *feeder,
        train: *train,
        choice,
    })
}
