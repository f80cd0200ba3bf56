//! Texts of times and dates.

ghost use Rattle.std.specs.Prelude.{◌≡◌, [], ◌∷◌, ◌++◌, OnOk};
ghost use Rattle.delay_report.specs.Clocks.{two_digits, hours_text, clock, date_text};

use itoa::Buffer;
use mt_base::memory::OutOfMemory;

/// The last two digits of a number.
fn two_digits(n: u32) -> [u8; 2]
    ensures { result ≡ two_digits n }
{
    [b'0' + (n / 10 % 10) as u8, b'0' + (n % 10) as u8]
}

/// The eight digits of a date YYYYMMDD.
#[tactic(auto, unfolding(crate::specs::Clocks::date_text))]
pub(crate) fn date_text(date: u32) -> [u8; 8]
    ensures { result ≡ date_text date }
{
    let [a, b] = two_digits(date / 1_000_000);
    let [c, d] = two_digits(date / 10_000);
    let [e, f] = two_digits(date / 100);
    let [g, h] = two_digits(date);
    [a, b, c, d, e, f, g, h]
}

fn push_hours(text: &mut Vec<u8>, hours: u32) -> Result<(), OutOfMemory>
    ensures { OnOk result (text.new.items ≡ text.old.items ++ hours_text hours) }
{
    if hours < 100 {
        text.extend_from_slice(&two_digits(hours))
    } else {
        text.extend_from_slice(Buffer::new().format(hours).as_bytes())
    }
}

/// Makes a text that of a clock which shows so many seconds: `HH:MM:SS`, with more digits of hours
/// where they are needed.
#[tactic(auto, unfolding(crate::specs::Clocks::clock))]
pub(crate) fn write_clock(text: &mut Vec<u8>, seconds: u32) -> Result<(), OutOfMemory>
    ensures { OnOk result (text.new.items ≡ clock seconds) }
{
    text.clear();
    push_hours(text, seconds / 3600)?;
    let [a, b] = two_digits(seconds / 60 % 60);
    let [c, d] = two_digits(seconds % 60);
    text.extend_from_slice(&[b':', a, b, b':', c, d])
}
