//! Laws of zones.

ghost use Rattle.std.specs.Prelude.{◌≡◌, ℕ, ◌*◌, true, pos, None, map, ◌↔◌};
ghost use Rattle.service_zones.specs.Changes.{is_summer, HasLastStart};
ghost use Rattle.service_zones.specs.Bases.{base, base_seconds, bases, day_of_wrong_length};

use crate::changes::SummerTime;
use crate::zone::Zone;

/// The last change up to the noon of a date decides: summer time holds exactly where it is a start.
/// The changes are those of the year of the date, of the year before and of the year after; where a
/// start and an end come at one hour, the end counts. The call does nothing.
pub fn the_last_change_decides(summer: &SummerTime, date: u32)
    ensures { (is_summer summer.now date ≡ true) ↔ HasLastStart summer.now date }
{}

/// In a zone without summer time the bases of service days are those of universal time, 86,400
/// seconds apart. The call does nothing.
#[tactic(auto, unfolding(crate::specs::Bases::west))]
pub fn days_are_equal_without_summer_time(zone: &Zone, first: u32)
    ensures { zone.now.summer ≡ None → (day : ℕ) → base zone.now first day ≡ pos (86400 * day) }
{}

/// Where no service day is too short or too long, no base lies before that of day 0: the bases as
/// numbers of seconds are the bases. The call does nothing.
pub fn no_base_is_before_the_first(zone: &Zone, first: u32)
    ensures { (days : ℕ) → day_of_wrong_length zone.now first days ≡ None
        → map pos (base_seconds zone.now first days) ≡ bases zone.now first days }
{}
