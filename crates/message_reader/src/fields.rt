//! Members of an object.

ghost use Rattle.std.specs.Prelude.{◌≡◌, ◌<◌, ◌^◌, IfSome, length, option_map};
ghost use Rattle.serde_json.specs.View.{view, items_view};
ghost use Rattle.message_reader.specs.Fields.{text_at, text_or_null_at, number_at, label_at, items_at, departure_of};
ghost use Rattle.message_reader.specs.Messages.{HasFewItems};

use mt_base::numbers::Label;
use serde_json::Value;

/// The text of a member. None where it is absent or no text.
pub fn text_at<'v>(value: &'v Value, key: &str) -> Option<&'v str>
    ensures { option_map (λ s. s.now) result ≡ text_at key.now (view value.now) }
{
    value.get(key).and_then(Value::as_str)
}

/// The text of a member that may be null: `Some(None)` where it is. None where it is absent or
/// neither of the two.
pub fn text_or_null_at<'v>(value: &'v Value, key: &str) -> Option<Option<&'v str>>
    ensures { option_map (λ text. option_map (λ s. s.now) text) result
        ≡ text_or_null_at key.now (view value.now) }
{
    let member = value.get(key)?;
    if member.is_null() {
        return Some(None);
    }
    match member.as_str() {
        Some(text) => Some(Some(text)),
        None => None,
    }
}

/// The whole number of a member, below 2^64. None where it is absent or no such number.
pub fn number_at(value: &Value, key: &str) -> Option<u64>
    ensures { result ≡ number_at key.now (view value.now) }
{
    value.get(key).and_then(Value::as_u64)
}

/// The label of a member. None where it is absent or no whole number below 2^32.
pub fn label_at(value: &Value, key: &str) -> Option<Label>
    ensures { result ≡ label_at key.now (view value.now) }
{
    let number = number_at(value, key)?;
    let label = u32::try_from(number).ok()?;
    Some(Label::new(label))
}

/// The list of a member, which has fewer than 2^31 items. None where it is absent or no list.
pub fn items_at<'v>(value: &'v Value, key: &str) -> Option<&'v [Value]>
    requires few { HasFewItems (view value.now) }
    ensures exact { option_map (λ s. items_view s.now) result ≡ items_at key.now (view value.now) }
    ensures few { IfSome result (λ s. length s.now < 2 ^ 31) }
{
    let list = value.get(key).and_then(Value::as_array)?;
    Some(list.as_slice())
}

/// Whether an event is a departure, `dep`, and not an arrival, `arr`. None for any other text.
pub fn departure(text: &str) -> Option<bool>
    ensures { result ≡ departure_of text.now }
{
    match text {
        "arr" => Some(false),
        "dep" => Some(true),
        _ => None,
    }
}
