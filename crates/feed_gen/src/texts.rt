//! Texts of times of day.

ghost use Rattle.std.specs.Prelude.{◌≡◌};
ghost use Rattle.feed_gen.specs.Texts.{clock, two_digits};

// The last two digits of a number.
fn two_digits(n: u32) -> [u8; 2]
    ensures { result ≡ two_digits n }
{
    [b'0' + (n / 10 % 10) as u8, b'0' + (n % 10) as u8]
}

// `HH:MM:SS` of so many seconds, fewer than 100 hours.
#[tactic(auto, unfolding(crate::specs::Texts::clock))]
pub(crate) fn clock(seconds: u32) -> [u8; 8]
    ensures { result ≡ clock seconds }
{
    let [a, b] = two_digits(seconds / 3600);
    let [c, d] = two_digits(seconds / 60 % 60);
    let [e, f] = two_digits(seconds % 60);
    [a, b, b':', c, d, b':', e, f]
}
