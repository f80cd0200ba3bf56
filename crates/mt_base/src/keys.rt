//! Events by name, and the order in which they are settled.

ghost use Rattle.std.specs.Prelude.{◌≡◌, true, false};
ghost use Rattle.std.specs.Cmp.{IsTotalOrder};
ghost use Rattle.std.specs.declared.cmp.Ordering.TheVariants.{Equal};
ghost use Rattle.mt_base.specs.declared.keys.Key.{Key as AKey};
ghost use Rattle.mt_base.specs.declared.keys.Node.{Node as ANode};
ghost use Rattle.mt_base.specs.Order.{key_cmp, node_cmp, is_before, is_same, is_same_node, node_of, key_of};

use crate::numbers::{Label, Time, TrainNo};

/// An event: the arrival or the departure of a train's call.
#[derive(Clone, Copy, Debug, PartialEq, Eq, PartialOrd, Ord, Hash)]
pub struct Node {
    /// The train.
    pub train: TrainNo,

    /// The label of the call.
    pub label: Label,

    /// Whether it is the departure, and not the arrival.
    pub dep: bool,
}

impl Node {
    /// The arrival of a train's call.
    pub fn arrival(train: TrainNo, label: Label) -> Node
        ensures { result ≡ record { train = train; label = label; dep = false } }
    {
        Node {
            train,
            label,
            dep: false,
        }
    }

    /// The departure of a train's call.
    pub fn departure(train: TrainNo, label: Label) -> Node
        ensures { result ≡ record { train = train; label = label; dep = true } }
    {
        Node {
            train,
            label,
            dep: true,
        }
    }

    /// The key of the event where it is scheduled at `time`.
    pub fn key(&self, time: Time) -> Key
        ensures { result ≡ key_of time self.now }
    {
        Key {
            time,
            train: self.train,
            label: self.label,
            dep: self.dep,
        }
    }

    /// Whether the two are one event.
    pub fn is_same(&self, other: &Node) -> bool
        ensures { result ≡ is_same_node self.now other.now }
    {
        self == other
    }
}

/// An event with its scheduled time: events are settled in the order of their keys, which is by
/// scheduled time, train, label, and the arrival before the departure.
#[derive(Clone, Copy, Debug, PartialEq, Eq, PartialOrd, Ord, Hash)]
pub struct Key {
    /// The scheduled time of the event.
    pub time: Time,

    /// The train.
    pub train: TrainNo,

    /// The label of the call.
    pub label: Label,

    /// Whether it is the departure, and not the arrival.
    pub dep: bool,
}

impl Key {
    /// The event whose key it is.
    pub fn node(&self) -> Node
        ensures { result ≡ node_of self.now }
    {
        Node {
            train: self.train,
            label: self.label,
            dep: self.dep,
        }
    }

    /// Whether its event is settled before the other's.
    pub fn is_before(&self, other: &Key) -> bool
        ensures { result ≡ is_before self.now other.now }
    {
        self.cmp(other).is_lt()
    }

    /// Whether the two keys are one: the same event at the same time.
    pub fn is_same(&self, other: &Key) -> bool
        ensures { result ≡ is_same self.now other.now }
    {
        self.time == other.time && self.node().is_same(&other.node())
    }
}

/// The order in which events are settled is total: of any two keys one is before the other, or they
/// are one key.
pub fn key_order_is_total()
    ensures total { IsTotalOrder key_cmp }
    ensures exact { (a b : AKey) → key_cmp a b ≡ Equal → a ≡ b }
{}

/// The order of events by name is total: of any two events one is before the other, or they are one
/// event.
pub fn node_order_is_total()
    ensures total { IsTotalOrder node_cmp }
    ensures exact { (a b : ANode) → node_cmp a b ≡ Equal → a ≡ b }
{}
