//! A zone: when service days begin there.

ghost use Rattle.std.specs.Prelude.{◌≡◌, ◌+◌, ◌*◌, ◌<◌, ◌≤◌, ◌^◌, pos, map, is_some, IfOk, IfErr, OnOk, None, IfSome};
ghost use Rattle.jiff_core.specs.Calendar.{IsWithin};
ghost use Rattle.mt_base.specs.Civil.{IsCivil};
ghost use Rattle.service_zones.specs.ZoneTexts.{zone_of};
ghost use Rattle.service_zones.specs.Zones.{utc, AreInRange};
ghost use Rattle.schedule_build.specs.Bases.{AreBases};
ghost use Rattle.service_zones.specs.Bases.{west, base, bases, base_seconds, is_of_wrong_length, day_of_wrong_length};
ghost use Rattle.service_zones.specs.Faults.{IsBaseFault};

use crate::changes::SummerTime;
use crate::faults::BaseFault;
use crate::parts::after_name;
use crate::texts::{offset, summer_time};
use mt_base::numbers::{Day, Time};
use mt_base::rows::Rows;
use schedule_build::date_after;
use std::alloc::Global;
use std::marker::Model;

/// The offsets of a place from UTC, as a zone text tells them.
#[derive(Clone, Copy, Debug, PartialEq, Eq)]
pub struct Zone {
    offset: i32,
    summer: Option<SummerTime>,
}

impl Model for Zone {
    ghost use Rattle.service_zones.specs.Zones.{ZoneRules, AreInRange};

    ghost Value = { ZoneRules };

    ghost view = { λ z. record { offset = z.offset; summer = z.summer } };

    ghost invariant = { λ z. AreInRange (record { offset = z.offset; summer = z.summer }) };

    ghost inverse = { λ rules. record { offset = rules.offset; summer = rules.summer } };
}

impl Zone {
    /// Universal time, which has no summer time.
    pub fn utc() -> Zone
        ensures { result ≡ utc }
    {
        Zone {
            offset: 0,
            summer: None,
        }
    }

    /// The zone of a zone text, a profile of the rule form of the variable TZ (POSIX.1, Base
    /// Definitions, 8.3): a name and an offset, and either nothing more or a second name, an
    /// optional second offset, and the start and the end of summer time, each behind a comma. Days
    /// without `M`, a second name without start and end, seconds, and minutes of a change are left
    /// out. None exactly where the text is no zone text.
    #[tactic(auto, unfolding(crate::specs::ZoneTexts::zone_of))]
    pub fn read(text: &str) -> Option<Zone>
        ensures { result ≡ zone_of text.now }
    {
        let (offset, rest) = offset(after_name(text.as_bytes())?)?;
        if rest.is_empty() {
            return Some(Zone {
                offset,
                summer: None,
            });
        }
        let (summer, rest) = summer_time(offset, rest)?;
        if !rest.is_empty() {
            return None;
        }
        Some(Zone {
            offset,
            summer: Some(summer),
        })
    }

    #[tactic(auto, unfolding(crate::specs::Bases::west))]
    fn west(&self, date: u32) -> i32
        requires civil { IsCivil date }
        requires year { date < 99990000 }
        ensures value { result ≡ west self.now date }
        ensures range { IsWithin 93540 result }
    {
        match &self.summer {
            Some(summer) if summer.holds_on(date) => summer.offset,
            _ => self.offset,
        }
    }

    fn base(&self, first: u32, day: u32) -> i32
        requires civil { IsCivil first }
        requires year { first < 21010000 }
        requires few { day ≤ 31 }
        ensures value { result ≡ base self.now first day }
        ensures range { IsWithin 3000000 result }
    {
        86_400 * day as i32 + self.west(date_after(first, day)) - self.west(first)
    }

    fn is_of_wrong_length(&self, first: u32, day: u32) -> bool
        requires civil { IsCivil first }
        requires year { first < 21010000 }
        requires few { day ≤ 31 }
        requires second { 0 < day }
        ensures { result ≡ is_of_wrong_length self.now first day }
    {
        let step = self.base(first, day) - self.base(first, day - 1);
        step < 79_200 || step > 93_600
    }

    fn day_of_wrong_length(&self, first: u32, days: u32) -> Option<u32>
        requires civil { IsCivil first }
        requires year { first < 21010000 }
        requires few { days ≤ 31 }
        ensures { result ≡ day_of_wrong_length self.now first days }
    {
        (1..days).find(|day| self.is_of_wrong_length(first, *day))
    }

    /// Whether a service day, of so many, begins less than 22 or more than 26 hours after the one
    /// before, so that there are no bases.
    pub fn has_day_of_wrong_length(&self, first: u32, days: u32) -> bool
        requires civil { IsCivil first }
        requires year { first < 21010000 }
        requires few_days { days ≤ 31 }
        ensures { result ≡ is_some (day_of_wrong_length self.now first days) }
    {
        self.day_of_wrong_length(first, days).is_some()
    }

    /// The bases of so many service days, in seconds from the base of day 0. GTFS Schedule measures
    /// times from noon minus 12 hours of the service day, so the bases of two days are 23 or 25
    /// hours apart where the clock changes by an hour between their noons. The date of day 0 is a
    /// number YYYYMMDD of a year up to 2100. `DayLength` exactly where a base is less than 79,200
    /// or more than 93,600 seconds after the one before, with the first such day, and else
    /// `OutOfMemory` where there is no memory.
    pub fn bases(&self, alloc: Global, first: u32, days: u32) -> Result<Rows<Time>, BaseFault>
        requires civil { IsCivil first }
        requires year { first < 21010000 }
        requires few_days { days ≤ 31 }

        ensures bases { IfOk result (λ found. map pos found ≡ bases self.now first days) }
        ensures seconds { IfOk result (λ found. found ≡ base_seconds self.now first days) }
        ensures steps { IfOk result (AreBases days) }
        ensures lengths { OnOk result (day_of_wrong_length self.now first days ≡ None) }
        ensures fault { IfErr result (IsBaseFault (day_of_wrong_length self.now first days)) }
    {
        if let Some(day) = self.day_of_wrong_length(first, days) {
            return Err(BaseFault::DayLength { day: Day::new(day) });
        }
        let mut bases = Vec::with_capacity(alloc, days as usize)?;
        for day in 0..days {
            bases.push(Time::new(self.base(first, day) as u32))?;
        }
        Ok(Rows::build(bases))
    }
}
