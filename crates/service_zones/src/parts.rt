//! The parts of a zone text: names, numbers and signs.

ghost use Rattle.std.specs.Prelude.{◌≡◌, ◌+◌, ◌<◌, ◌≤◌, ◌^◌, length, IfSome};
ghost use Rattle.std.specs.Option.{option_map};
ghost use Rattle.std.specs.Char.{is_ascii_digit, is_ascii_alphabetic};
ghost use Rattle.std.specs.Int.{IsInRange};
ghost use Rattle.service_zones.specs.ZoneTexts.{after, is_quotable, run_of, after_run, after_letters, after_quoted, after_name, value_of, number, number_in, sign, signed};

/// The bytes behind one that has to stand at the front. None where another one stands there.
#[tactic(auto, unfolding(crate::specs::ZoneTexts::after))]
pub(crate) fn after(byte: u8, bytes: &[u8]) -> Option<&[u8]>
    ensures { option_map (λ rest. rest.now) result ≡ after byte bytes.now }
{
    match bytes {
        [first, rest @ ..] if *first == byte => Some(rest),
        _ => None,
    }
}

fn is_quotable(byte: u8) -> bool
    ensures { result ≡ is_quotable byte }
{
    byte.is_ascii_alphanumeric() || byte == b'+' || byte == b'-'
}

fn letters(bytes: &[u8]) -> usize
    ensures count { result ≡ run_of is_ascii_alphabetic bytes.now }
    ensures within { result ≤ length bytes.now }
{
    bytes
        .iter()
        .take_while(|byte| byte.is_ascii_alphabetic())
        .count()
}

fn quotables(bytes: &[u8]) -> usize
    ensures count { result ≡ run_of is_quotable bytes.now }
    ensures within { result ≤ length bytes.now }
{
    bytes.iter().take_while(|byte| is_quotable(**byte)).count()
}

fn digits(bytes: &[u8]) -> usize
    ensures count { result ≡ run_of is_ascii_digit bytes.now }
    ensures within { result ≤ length bytes.now }
{
    bytes
        .iter()
        .take_while(|byte| byte.is_ascii_digit())
        .count()
}

#[tactic(auto, unfolding(crate::specs::ZoneTexts::after_run))]
fn after_run(run: usize, bytes: &[u8]) -> Option<&[u8]>
    requires { run ≤ length bytes.now }
    ensures { option_map (λ rest. rest.now) result ≡ after_run run bytes.now }
{
    if run >= 3 { Some(&bytes[run..]) } else { None }
}

#[tactic(auto, unfolding(crate::specs::ZoneTexts::after_letters))]
fn after_letters(bytes: &[u8]) -> Option<&[u8]>
    ensures { option_map (λ rest. rest.now) result ≡ after_letters bytes.now }
{
    after_run(letters(bytes), bytes)
}

#[tactic(auto, unfolding(crate::specs::ZoneTexts::after_quoted))]
fn after_quoted(bytes: &[u8]) -> Option<&[u8]>
    ensures { option_map (λ rest. rest.now) result ≡ after_quoted bytes.now }
{
    after(b'>', after_run(quotables(bytes), bytes)?)
}

/// The bytes behind a name: three or more letters, or three or more letters, digits and signs
/// between `<` and `>`. None where no name stands at the front.
#[tactic(auto, unfolding(crate::specs::ZoneTexts::after_name))]
pub(crate) fn after_name(bytes: &[u8]) -> Option<&[u8]>
    ensures { option_map (λ rest. rest.now) result ≡ after_name bytes.now }
{
    match after(b'<', bytes) {
        Some(quoted) => after_quoted(quoted),
        None => after_letters(bytes),
    }
}

fn value(digits: &[u8]) -> u32
    requires { length digits.now ≤ 3 }
    ensures { result ≡ value_of digits.now }
{
    let mut value = 0;
    for digit in digits {
        value = 10 * value + u32::from(digit.saturating_sub(b'0'));
    }
    value
}

#[tactic(auto, unfolding(crate::specs::ZoneTexts::number))]
fn number(most: usize, bytes: &[u8]) -> Option<(u32, &[u8])>
    requires { most ≤ 3 }
    ensures { option_map (λ r. (r.0, r.1.now)) result ≡ number most bytes.now }
{
    let count = digits(bytes).min(most);
    if count == 0 {
        return None;
    }
    let (digits, rest) = bytes.split_at(count);
    Some((value(digits), rest))
}

/// A number of one to so many digits, from the least to the greatest, and the bytes behind it. None
/// where no such number stands at the front.
#[tactic(auto, unfolding(crate::specs::ZoneTexts::number_in))]
pub(crate) fn number_in(most: usize, least: u8, greatest: u8, bytes: &[u8]) -> Option<(u8, &[u8])>
    requires { most ≤ 3 }
    ensures value { option_map (λ r. (r.0, r.1.now)) result
        ≡ number_in most least greatest bytes.now }
    ensures range { IfSome result (λ r. IsInRange least greatest r.0) }
{
    let (n, rest) = number(most, bytes)?;
    if u32::from(least) <= n && n <= u32::from(greatest) {
        Some((n as u8, rest))
    } else {
        None
    }
}

/// Whether a `-` stands at the front, and the bytes behind a sign, if one stands there.
#[tactic(auto, unfolding(crate::specs::ZoneTexts::sign))]
pub(crate) fn sign(bytes: &[u8]) -> (bool, &[u8])
    ensures minus { result.0 ≡ (sign bytes.now).0 }
    ensures rest { result.1.now ≡ (sign bytes.now).1 }
{
    match bytes {
        [b'-', rest @ ..] => (true, rest),
        [b'+', rest @ ..] => (false, rest),
        _ => (false, bytes),
    }
}

/// The number, or less than 0 by as much.
pub(crate) fn signed(minus: bool, n: u32) -> i32
    requires { n < 2 ^ 31 }
    ensures { result ≡ signed minus n }
{
    if minus { -(n as i32) } else { n as i32 }
}
