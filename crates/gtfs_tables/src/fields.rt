//! The bytes of a field: numbers and times of day.

ghost use Rattle.std.specs.Prelude.{◌≡◌, ◌<◌, ◌≤◌, ◌+◌, ◌*◌, IfSome};
ghost use Rattle.gtfs_tables.specs.Fields.{is_blank, trim_start, trim_end, trimmed, number_of, number_or_zero, digit_within, location_kind, kind_of_digit, time_of};

use mt_base::places::PlaceKind;
use mt_base::texts::{digit, seconds};

fn is_blank(byte: u8) -> bool
    ensures { result ≡ is_blank byte }
{
    byte == b' ' || byte == b'\t'
}

fn trim_start(mut bytes: &[u8]) -> &[u8]
    ensures { result.now ≡ trim_start bytes.now }
{
    while let [first, behind @ ..] = bytes
        && is_blank(*first)
    {
        bytes = behind;
    }
    bytes
}

fn trim_end(mut bytes: &[u8]) -> &[u8]
    ensures { result.now ≡ trim_end bytes.now }
{
    while let [before @ .., last] = bytes
        && is_blank(*last)
    {
        bytes = before;
    }
    bytes
}

/// The bytes without the spaces and tabs at both ends.
pub fn trimmed(bytes: &[u8]) -> &[u8]
    ensures { result.now ≡ trimmed bytes.now }
{
    trim_end(trim_start(bytes))
}

/// The number of one to nine digits.
#[tactic(auto, unfolding(crate::specs::Fields::digits_after))]
pub fn number(bytes: &[u8]) -> Option<u32>
    ensures value { result ≡ number_of bytes.now }
    ensures small { IfSome result (λ n. n < 1000000000) }
{
    if bytes.is_empty() || bytes.len() > 9 {
        return None;
    }
    let mut value: u32 = 0;
    for byte in bytes {
        value = 10 * value + digit(*byte)?;
    }
    Some(value)
}

/// The number of one to nine digits, 0 where the field is empty.
pub fn number_or_zero(bytes: &[u8]) -> Option<u32>
    ensures value { result ≡ number_or_zero bytes.now }
    ensures small { IfSome result (λ n. n < 1000000000) }
{
    if bytes.is_empty() {
        return Some(0);
    }
    number(bytes)
}

/// The one digit of the field, from the least to the most.
#[tactic(auto, unfolding(crate::specs::Fields::digit_within))]
pub fn digit_within(bytes: &[u8], least: u32, most: u32) -> Option<u32>
    ensures value { result ≡ digit_within least most bytes.now }
    ensures within { IfSome result (λ d. (least ≤ d) × (d ≤ most)) }
{
    match bytes {
        [byte] => digit(*byte).filter(|d| least <= *d && *d <= most),
        _ => None,
    }
}

/// The kind of place that a `location_type` stands for: one digit from 0 to 4, and an empty field
/// for 0.
pub fn location_kind(bytes: &[u8]) -> Option<PlaceKind>
    ensures { result ≡ location_kind bytes.now }
{
    match bytes {
        [] => Some(PlaceKind::Platform),
        [digit] => kind_of_digit(*digit),
        _ => None,
    }
}

fn kind_of_digit(digit: u8) -> Option<PlaceKind>
    ensures { result ≡ kind_of_digit digit }
{
    match digit {
        b'0' => Some(PlaceKind::Platform),
        b'1' => Some(PlaceKind::Station),
        b'2' => Some(PlaceKind::Entrance),
        b'3' => Some(PlaceKind::GenericNode),
        b'4' => Some(PlaceKind::BoardingArea),
        _ => None,
    }
}

/// The time of a field, in seconds from the base of the service day: no time where the field is
/// empty.
pub fn time(bytes: &[u8]) -> Option<Option<u32>>
    ensures value { result ≡ time_of bytes.now }
    ensures small { IfSome result (λ t. IfSome t (λ n. n ≤ 359999)) }
{
    if bytes.is_empty() {
        return Some(None);
    }
    match seconds(bytes) {
        Some(time) => Some(Some(time)),
        None => None,
    }
}
