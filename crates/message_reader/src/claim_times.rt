//! The times of claims, which can lie many days behind the base of their service day.

ghost use Rattle.std.specs.Prelude.{◌≡◌, ◌<◌, ◌≤◌, IfSome, option_map};
ghost use Rattle.message_reader.specs.Claims.{few_digits, long_seconds_of, claim_time, claim_time_if_any};

use mt_base::numbers::{Day, Time};
use mt_base::texts::{digit, seconds};
use schedule_build::Directory;

/// The first number of seconds that is no time.
const TIME_LIMIT: u32 = 1 << 25;

/// The number of at most three digits, or 0 where there is none. None where one of them is no
/// digit, and where there are more.
#[tactic(auto, unfolding(crate::specs::Claims::few_digits))]
fn few_digits(bytes: &[u8]) -> Option<u32>
    ensures value { result ≡ few_digits bytes.now }
    ensures small { IfSome result (λ n. n < 1000) }
{
    match bytes {
        [] => Some(0),
        [c] => digit(*c),
        [b, c] => Some(10 * digit(*b)? + digit(*c)?),
        [a, b, c] => Some(100 * digit(*a)? + 10 * digit(*b)? + digit(*c)?),
        _ => None,
    }
}

/// The seconds of a text `H:MM:SS` with one to four digits of hours.
#[tactic(auto, unfolding(crate::specs::Claims::long_seconds_of))]
fn long_seconds(bytes: &[u8]) -> Option<u32>
    ensures value { result ≡ long_seconds_of bytes.now }
    ensures small { IfSome result (λ secs. secs ≤ 36323999) }
{
    let (front, clock) = bytes.split_at(bytes.len().saturating_sub(7));
    let tens = few_digits(front)?;
    let secs = seconds(clock)?;
    Some(36_000 * tens + secs)
}

/// The time that a text names on a service day. None where the text is not `H:MM:SS` with one to
/// four digits of hours, and where it names no time below 2^25.
#[tactic(auto, unfolding(crate::specs::Claims::claim_time))]
pub(crate) fn claim_time(dir: &Directory, day: Day, text: &str) -> Option<Time>
    ensures { result ≡ claim_time dir.now day text.now }
{
    let secs = long_seconds(text.as_bytes())?;
    let sum = dir.base(day).seconds() + secs;
    if sum < TIME_LIMIT {
        Some(Time::new(sum))
    } else {
        None
    }
}

/// The time that a text names on a service day: `Some(None)` where there is no text.
pub(crate) fn claim_time_if_any(
    dir: &Directory,
    day: Day,
    text: Option<&str>,
) -> Option<Option<Time>>
    ensures { result ≡ claim_time_if_any dir.now day (option_map (λ s. s.now) text.entry) }
{
    match text {
        Some(text) => Some(Some(claim_time(dir, day, text)?)),
        None => Some(None),
    }
}
