//! Objects without lists and objects in them, read without a tree.

ghost use Rattle.std.specs.Prelude.{◌≡◌, ◌<◌, ◌==◌, Some, IfSome, IsTrue, length, option_map, slice_index};
ghost use Rattle.json.specs.Reads.{token_of};
ghost use Rattle.serde_json.specs.Data.{no_members, put, unsigned};
ghost use Rattle.serde_json.specs.Find.{get};
ghost use Rattle.serde_json.specs.Read.{number_of, read};
ghost use Rattle.message_reader.specs.Flat.{scalar_data, flat_members, flat_data, IsScalar, ReadsMembers};
ghost use Rattle.message_reader.specs.Members.{key_name};

use crate::members::{HasMembers, Key, NestedKey, key_named};
use fast_float::Numeral;
use json::{Reader, Scratch, Token};
use serde_json::Value;

/// A value that is no list and no object.
#[derive(Clone, Copy)]
pub(crate) enum Scalar<'a> {
    Null,
    Text(&'a str),
    Number(u64),
}

/// An object that has no other members than these, and no list and no object among them.
#[derive(Drop)]
pub(crate) struct FlatObject<'a> {
    call: Option<Scalar<'a>>,
    client: Option<Scalar<'a>>,
    date: Option<Scalar<'a>>,
    event: Option<Scalar<'a>>,
    from: Option<Scalar<'a>>,
    route: Option<Scalar<'a>>,
    time: Option<Scalar<'a>>,
    to: Option<Scalar<'a>>,
    trip: Option<Scalar<'a>>,
    kind: Option<Scalar<'a>>,
    version: Option<Scalar<'a>>,
}

impl<'a> FlatObject<'a> {
    /// An object without members.
    #[tactic(auto, unfolding(crate::specs::Flat::flat_members))]
    fn empty() -> FlatObject<'a>
        ensures { flat_members result ≡ no_members }
    {
        FlatObject {
            call: None,
            client: None,
            date: None,
            event: None,
            from: None,
            route: None,
            time: None,
            to: None,
            trip: None,
            kind: None,
            version: None,
        }
    }

    /// Puts a member in. One of the same name that was there goes.
    fn put(&mut self, key: Key, scalar: Scalar<'a>)
        ensures { flat_members self.new
            ≡ put (key_name key) (scalar_data scalar.entry) (flat_members self.old) }
    {
        match key {
            Key::Call => self.call = Some(scalar),
            Key::Client => self.client = Some(scalar),
            Key::Date => self.date = Some(scalar),
            Key::Event => self.event = Some(scalar),
            Key::From => self.from = Some(scalar),
            Key::Route => self.route = Some(scalar),
            Key::Time => self.time = Some(scalar),
            Key::To => self.to = Some(scalar),
            Key::Trip => self.trip = Some(scalar),
            Key::Kind => self.kind = Some(scalar),
            Key::Version => self.version = Some(scalar),
        }
    }

    /// A member, if it is there.
    fn scalar(&self, key: Key) -> Option<Scalar<'a>>
        ensures { option_map scalar_data result ≡ get (key_name key) (flat_data self.now) }
    {
        match key {
            Key::Call => self.call,
            Key::Client => self.client,
            Key::Date => self.date,
            Key::Event => self.event,
            Key::From => self.from,
            Key::Route => self.route,
            Key::Time => self.time,
            Key::To => self.to,
            Key::Trip => self.trip,
            Key::Kind => self.kind,
            Key::Version => self.version,
        }
    }
}

impl<'a> HasMembers for FlatObject<'a> {
    ghost use Rattle.message_reader.specs.Flat.{flat_data};

    ghost stands_for = { flat_data };

    fn text(&self, key: Key) -> Option<&str> {
        match self.scalar(key) {
            Some(Scalar::Text(text)) => Some(text),
            _ => None,
        }
    }

    fn text_or_null(&self, key: Key) -> Option<Option<&str>> {
        match self.scalar(key) {
            Some(Scalar::Null) => Some(None),
            Some(Scalar::Text(text)) => Some(Some(text)),
            _ => None,
        }
    }

    fn number(&self, key: Key) -> Option<u64> {
        match self.scalar(key) {
            Some(Scalar::Number(number)) => Some(number),
            _ => None,
        }
    }

    fn nested(&self, _key: NestedKey) -> Option<&Value> {
        None
    }

    fn items(&self, _key: NestedKey) -> Option<&[Value]> {
        None
    }
}

/// Whether a text begins with a minus.
fn has_minus(bytes: &[u8]) -> bool
    ensures { result ≡ (slice_index bytes.now 0 == 45) }
{
    !bytes.is_empty() && bytes[0] == b'-'
}

/// The whole number of a numeral. None where it has a sign, a point or an exponent, or is not below
/// 2^64.
fn whole(text: &str) -> Option<u64>
    ensures { IfSome result (λ number. number_of text.now ≡ Some (unsigned number)) }
{
    let bytes = text.as_bytes();
    if has_minus(bytes) {
        return None;
    }
    Numeral::scan(bytes).to_u64()
}

/// What a token says by itself. None where it is part of a list or an object, and for what no line
/// needs.
fn scalar_of(token: Token<'_>) -> Option<Scalar<'_>>
    ensures { IfSome result (λ scalar. IsScalar (token_of token.entry) (scalar_data scalar)) }
{
    match token {
        Token::Null => Some(Scalar::Null),
        Token::String(text) => Some(Scalar::Text(text)),
        Token::Number(text) => Some(Scalar::Number(whole(text)?)),
        _ => None,
    }
}

/// The members of an object behind its brace, up to its other brace. None where one is not needed
/// by any line, or is no scalar, and where they are no members.
fn read_members<'a>(reader: &mut Reader<'a>) -> Option<FlatObject<'a>>
    ensures { IfSome result (λ object. ReadsMembers reader.old (flat_members object) reader.new) }
{
    let mut object = FlatObject::empty();
    while let Some(name) = reader.next_key().ok()? {
        let key = key_named(name)?;
        let scalar = scalar_of(reader.next()?)?;
        object.put(key, scalar);
    }
    Some(object)
}

/// The object that a text is, if it has no list and no object in it, and no member that no line
/// needs. None for any other text, and where there is no memory.
pub(crate) fn read_flat<'a>(text: &'a str, scratch: &'a mut Scratch) -> Option<FlatObject<'a>>
    ensures { IfSome result (λ object. read text.now ≡ Some (flat_data object)) }
{
    let mut reader = Reader::new(text, scratch).ok()?;
    let Some(Token::BeginObject) = reader.next() else {
        return None;
    };
    let object = read_members(&mut reader)?;
    match reader.next() {
        Some(_) => None,
        None => Some(object),
    }
}
