//! Offsets, changes and summer time as a zone text has them.

ghost use Rattle.std.specs.Prelude.{◌≡◌, ◌<◌, ◌≤◌, IfSome};
ghost use Rattle.std.specs.Option.{option_map};
ghost use Rattle.jiff_core.specs.Calendar.{IsWithin};
ghost use Rattle.service_zones.specs.Zones.{IsChange, IsSummerTime};
ghost use Rattle.service_zones.specs.ZoneTexts.{minutes, minutes_if_any, offset, summer_offset, hours, hours_if_any, change, summer_time};

use crate::changes::{Change, SummerTime};
use crate::parts::{after, after_name, number_in, sign, signed};

#[tactic(auto, unfolding(crate::specs::ZoneTexts::minutes))]
fn minutes(bytes: &[u8]) -> Option<(u8, &[u8])>
    ensures value { option_map (λ r. (r.0, r.1.now)) result ≡ minutes bytes.now }
    ensures small { IfSome result (λ r. r.0 < 60) }
{
    let (tens, bytes) = number_in(1, 0, 5, bytes)?;
    let (ones, rest) = number_in(1, 0, 9, bytes)?;
    Some((10 * tens + ones, rest))
}

#[tactic(auto, unfolding(crate::specs::ZoneTexts::minutes_if_any))]
fn minutes_if_any(bytes: &[u8]) -> Option<(u8, &[u8])>
    ensures value { option_map (λ r. (r.0, r.1.now)) result ≡ minutes_if_any bytes.now }
    ensures small { IfSome result (λ r. r.0 < 60) }
{
    match after(b':', bytes) {
        Some(digits) => minutes(digits),
        None => Some((0, bytes)),
    }
}

/// An offset in seconds west of UTC, and the bytes behind it: an optional sign, one or two digits
/// of hours from 0 to 24, and two digits of minutes behind `:`, if any. None where no offset stands
/// at the front.
#[tactic(auto, unfolding(crate::specs::ZoneTexts::offset))]
pub(crate) fn offset(bytes: &[u8]) -> Option<(i32, &[u8])>
    ensures value { option_map (λ r. (r.0, r.1.now)) result ≡ offset bytes.now }
    ensures range { IfSome result (λ r. IsWithin 89940 r.0) }
{
    let (minus, digits) = sign(bytes);
    let (hours, behind) = number_in(2, 0, 24, digits)?;
    let (minutes, rest) = minutes_if_any(behind)?;
    let seconds = signed(minus, 3_600 * u32::from(hours) + 60 * u32::from(minutes));
    Some((seconds, rest))
}

#[tactic(auto, unfolding(crate::specs::ZoneTexts::summer_offset))]
fn summer_offset(first: i32, bytes: &[u8]) -> Option<(i32, &[u8])>
    requires { IsWithin 89940 first }
    ensures value { option_map (λ r. (r.0, r.1.now)) result ≡ summer_offset first bytes.now }
    ensures range { IfSome result (λ r. IsWithin 93540 r.0) }
{
    if after(b',', bytes).is_some() {
        Some((first - 3_600, bytes))
    } else {
        offset(bytes)
    }
}

#[tactic(auto, unfolding(crate::specs::ZoneTexts::hours))]
fn hours(bytes: &[u8]) -> Option<(i16, &[u8])>
    ensures value { option_map (λ r. (r.0, r.1.now)) result ≡ hours bytes.now }
    ensures range { IfSome result (λ r. IsWithin 167 r.0) }
{
    let (minus, digits) = sign(bytes);
    let (n, rest) = number_in(3, 0, 167, digits)?;
    Some((signed(minus, u32::from(n)) as i16, rest))
}

#[tactic(auto, unfolding(crate::specs::ZoneTexts::hours_if_any))]
fn hours_if_any(bytes: &[u8]) -> Option<(i16, &[u8])>
    ensures value { option_map (λ r. (r.0, r.1.now)) result ≡ hours_if_any bytes.now }
    ensures range { IfSome result (λ r. IsWithin 167 r.0) }
{
    match after(b'/', bytes) {
        Some(behind) => hours(behind),
        None => Some((2, bytes)),
    }
}

#[tactic(auto, unfolding(crate::specs::ZoneTexts::change))]
fn change(bytes: &[u8]) -> Option<(Change, &[u8])>
    ensures value { option_map (λ r. (r.0, r.1.now)) result ≡ change bytes.now }
    ensures range { IfSome result (λ r. IsChange r.0) }
{
    let (month, bytes) = number_in(2, 1, 12, after(b'M', bytes)?)?;
    let (week, bytes) = number_in(1, 1, 5, after(b'.', bytes)?)?;
    let (weekday, bytes) = number_in(1, 0, 6, after(b'.', bytes)?)?;
    let (hours, rest) = hours_if_any(bytes)?;
    let change = Change {
        month,
        week,
        weekday,
        hours,
    };
    Some((change, rest))
}

/// Summer time, and the bytes behind it: a second name, its offset, and its start and its end, each
/// behind a comma. The first offset is given, in seconds west of UTC: where the second is left out,
/// it is one hour less. None where no such parts stand at the front.
#[tactic(auto, unfolding(crate::specs::ZoneTexts::summer_time))]
pub(crate) fn summer_time(first: i32, bytes: &[u8]) -> Option<(SummerTime, &[u8])>
    requires { IsWithin 89940 first }
    ensures value { option_map (λ r. (r.0, r.1.now)) result ≡ summer_time first bytes.now }
    ensures range { IfSome result (λ r. IsSummerTime r.0) }
{
    let (offset, bytes) = summer_offset(first, after_name(bytes)?)?;
    let (start, bytes) = change(after(b',', bytes)?)?;
    let (end, rest) = change(after(b',', bytes)?)?;
    Some((SummerTime { offset, start, end }, rest))
}
