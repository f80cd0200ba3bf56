//! Texts of digits, times of day and dates.

ghost use Rattle.std.specs.Prelude.{◌≡◌, ◌<◌, ◌≤◌, ◌+◌, ◌*◌, IfSome};
ghost use Rattle.mt_base.specs.Civil.{IsCivil};
ghost use Rattle.mt_base.specs.Texts.{digit, two, clock, seconds_of, eight_digits, date_of};

use crate::calendar::civil;

/// The number of a digit.
pub fn digit(byte: u8) -> Option<u32>
    ensures value { result ≡ digit byte }
    ensures small { IfSome result (λ n. n < 10) }
{
    if byte >= b'0' && byte <= b'9' {
        Some((byte - b'0') as u32)
    } else {
        None
    }
}

fn two(a: u8, b: u8) -> Option<u32>
    ensures value { result ≡ two a b }
    ensures small { IfSome result (λ n. n < 100) }
{
    let tens = digit(a)?;
    let ones = digit(b)?;
    Some(10 * tens + ones)
}

#[tactic(auto, unfolding(crate::specs::Texts::clock))]
fn clock(hours: u32, bytes: &[u8]) -> Option<u32>
    requires { hours < 100 }
    ensures value { result ≡ clock hours bytes.now }
    ensures small { IfSome result (λ n. n < 3600 * hours + 3600) }
{
    match bytes {
        [b':', a, b, b':', c, d] => {
            let minutes = two(*a, *b).filter(|m| *m < 60)?;
            let seconds = two(*c, *d).filter(|s| *s < 60)?;
            Some(3600 * hours + 60 * minutes + seconds)
        }
        _ => None,
    }
}

/// The seconds of a time of day, `H:MM:SS` or `HH:MM:SS`.
#[tactic(auto, unfolding(crate::specs::Texts::seconds_of))]
pub fn seconds(bytes: &[u8]) -> Option<u32>
    ensures value { result ≡ seconds_of bytes.now }
    ensures small { IfSome result (λ n. n ≤ 359999) }
{
    match bytes {
        [g, _, rest @ ..] if rest.len() == 5 => clock(digit(*g)?, &bytes[1..]),
        [g, h, rest @ ..] => clock(two(*g, *h)?, rest),
        _ => None,
    }
}

#[tactic(auto, unfolding(crate::specs::Texts::eight_digits))]
fn eight_digits(bytes: &[u8]) -> Option<u32>
    ensures { result ≡ eight_digits bytes.now }
{
    match bytes {
        [a, b, c, d, e, f, g, h] => {
            let century = two(*a, *b)?;
            let year = two(*c, *d)?;
            let month = two(*e, *f)?;
            let day = two(*g, *h)?;
            Some(1_000_000 * century + 10_000 * year + 100 * month + day)
        }
        _ => None,
    }
}

/// The civil date of eight digits, as the number YYYYMMDD.
#[tactic(auto, unfolding(crate::specs::Texts::date_of))]
pub fn date(bytes: &[u8]) -> Option<u32>
    ensures value { result ≡ date_of bytes.now }
    ensures civil { IfSome result IsCivil }
{
    eight_digits(bytes).filter(|date| civil(*date))
}
