//! Civil dates as numbers YYYYMMDD.

ghost use Rattle.std.specs.Prelude.{◌≡◌, ◌↔◌, ◌/◌, ◌%◌, pos, IsTrue, IfSome, IsSome};
ghost use Rattle.jiff_core.specs.Date.{IsYmd};
ghost use Rattle.mt_base.specs.Civil.{IsCivil, is_civil};

use jiff_core::civil::Date;

/// The date that the number YYYYMMDD names.
pub fn date_of(date: u32) -> Option<Date>
    ensures some { IsSome result ↔ IsCivil date }
    ensures value { IfSome result (IsYmd (pos (date / 10000)) (pos (date / 100 % 100))
        (pos (date % 100))) }
{
    if date >= 100_000_000 {
        return None;
    }
    let year = (date / 10_000) as i16;
    let month = (date / 100 % 100) as i8;
    let day = (date % 100) as i8;
    Date::new(year, month, day).ok()
}

/// Whether the number YYYYMMDD names a date of the calendar, of the years 0 to 9999.
pub fn civil(date: u32) -> bool
    ensures calendar { IsTrue result ↔ IsCivil date }
    ensures digits { result ≡ is_civil date }
{
    date_of(date).is_some()
}
