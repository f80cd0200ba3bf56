//! What members are looked up in: the value of a line, or an object that was read without one.

ghost use Rattle.std.specs.Prelude.{◌≡◌, ◌<◌, ◌^◌, IfSome, length, option_map};
ghost use Rattle.serde_json.specs.Find.{get};
ghost use Rattle.serde_json.specs.View.{view, items_view};
ghost use Rattle.message_reader.specs.Fields.{text_at, text_or_null_at, number_at, label_at, items_at};
ghost use Rattle.message_reader.specs.Members.{key_name, nested_name};
ghost use Rattle.message_reader.specs.Messages.{HasFewItems};

use crate::fields::{items_at, number_at, text_at, text_or_null_at};
use mt_base::numbers::Label;
use serde_json::Value;

/// The name of a member that is a text, a number or null.
#[derive(Clone, Copy)]
pub(crate) enum Key {
    Call,
    Client,
    Date,
    Event,
    From,
    Route,
    Time,
    To,
    Trip,
    Kind,
    Version,
}

impl Key {
    /// The name as it stands in a line.
    fn name(self) -> &'static str
        ensures { result.now ≡ key_name self }
    {
        match self {
            Key::Call => "call",
            Key::Client => "client",
            Key::Date => "date",
            Key::Event => "event",
            Key::From => "from",
            Key::Route => "route",
            Key::Time => "time",
            Key::To => "to",
            Key::Trip => "trip",
            Key::Kind => "type",
            Key::Version => "v",
        }
    }
}

/// The key of a name, if it is one.
pub(crate) fn key_named(name: &str) -> Option<Key>
    ensures { IfSome result (λ key. key_name key ≡ name.now) }
{
    match name {
        "v" => Some(Key::Version),
        "type" => Some(Key::Kind),
        "trip" => Some(Key::Trip),
        "date" => Some(Key::Date),
        "call" => Some(Key::Call),
        "event" => Some(Key::Event),
        "time" => Some(Key::Time),
        "client" => Some(Key::Client),
        "from" => Some(Key::From),
        "to" => Some(Key::To),
        "route" => Some(Key::Route),
        _ => None,
    }
}

/// The name of a member that is a list or an object.
#[derive(Clone, Copy)]
pub(crate) enum NestedKey {
    Calls,
    Feeder,
    Train,
    Via,
}

impl NestedKey {
    /// The name as it stands in a line.
    fn name(self) -> &'static str
        ensures { result.now ≡ nested_name self }
    {
        match self {
            NestedKey::Calls => "calls",
            NestedKey::Feeder => "feeder",
            NestedKey::Train => "train",
            NestedKey::Via => "via",
        }
    }
}

/// What members are looked up in. It stands for a value of JSON.
pub(crate) trait HasMembers {
    ghost use Rattle.serde_json.specs.Data.{Data};

    /// The value that it stands for.
    ghost stands_for: { Self → Data };

    /// The text of a member. None where it is absent or no text.
    fn text(&self, key: Key) -> Option<&str>
        ensures { option_map (λ s. s.now) result ≡ text_at (key_name key) (stands_for self.now) };

    /// The text of a member that may be null: `Some(None)` where it is. None where it is absent or
    /// neither of the two.
    fn text_or_null(&self, key: Key) -> Option<Option<&str>>
        ensures { option_map (λ text. option_map (λ s. s.now) text) result
            ≡ text_or_null_at (key_name key) (stands_for self.now) };

    /// The whole number of a member, below 2^64. None where it is absent or no such number.
    fn number(&self, key: Key) -> Option<u64>
        ensures { result ≡ number_at (key_name key) (stands_for self.now) };

    /// A member that is a list or an object, if it is there.
    fn nested(&self, key: NestedKey) -> Option<&Value>
        ensures { option_map (λ v. view v.now) result ≡ get (nested_name key) (stands_for self.now) };

    /// The list of a member, which has fewer than 2^31 items. None where it is absent or no list.
    fn items(&self, key: NestedKey) -> Option<&[Value]>
        requires few { HasFewItems (stands_for self.now) }
        ensures exact { option_map (λ s. items_view s.now) result
            ≡ items_at (nested_name key) (stands_for self.now) }
        ensures few { IfSome result (λ s. length s.now < 2 ^ 31) };
}

impl HasMembers for Value {
    ghost use Rattle.serde_json.specs.View.{view};

    ghost stands_for = { view };

    fn text(&self, key: Key) -> Option<&str> {
        text_at(self, key.name())
    }

    fn text_or_null(&self, key: Key) -> Option<Option<&str>> {
        text_or_null_at(self, key.name())
    }

    fn number(&self, key: Key) -> Option<u64> {
        number_at(self, key.name())
    }

    fn nested(&self, key: NestedKey) -> Option<&Value> {
        self.get(key.name())
    }

    fn items(&self, key: NestedKey) -> Option<&[Value]> {
        items_at(self, key.name())
    }
}

/// The label of a member. None where it is absent or no whole number below 2^32.
pub(crate) fn label<M: HasMembers>(object: &M, key: Key) -> Option<Label>
    ensures { result ≡ label_at (key_name key) (M.stands_for object.now) }
{
    let number = object.number(key)?;
    let label = u32::try_from(number).ok()?;
    Some(Label::new(label))
}
