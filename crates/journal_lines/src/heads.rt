//! The header of a journal.

ghost use Rattle.std.specs.Prelude.{◌≡◌, IfOk};
ghost use Rattle.serde_json.specs.View.{view};
ghost use Rattle.mt_base.specs.Civil.{IsCivil};
ghost use Rattle.journal_lines.specs.Lines.{head_object, text_of_head, zone_or_null};

use crate::values::date_value;
use delay_report::object_text;
use mt_base::Opts;
use mt_base::memory::OutOfMemory;
use mt_base::names::Name;
use serde_json::{Value, json};
use std::alloc::Global;

/// Of which feed and with which options the messages of a journal were accepted.
#[derive(Drop)]
pub struct Head {
    /// The first loaded day as the number YYYYMMDD.
    pub first: u32,

    /// How many days are loaded.
    pub days: u32,

    /// The options.
    pub opts: Opts,

    /// The text of the zone in which service days begin. None where no zone was given.
    pub zone: Option<Name>,
}

/// The text of a zone, or null where there is none.
fn zone_value(alloc: Global, zone: &Option<Name>) -> Result<Value, OutOfMemory>
    ensures { IfOk result (λ v. view v ≡ zone_or_null zone.now) }
{
    match zone {
        Some(zone) => json!(in alloc; zone.text()),
        None => Ok(Value::Null),
    }
}

/// The object of a header.
fn head_value(alloc: Global, head: &Head) -> Result<Value, OutOfMemory>
    requires { IsCivil head.now.first }
    ensures { IfOk result (λ v. view v ≡ head_object head.now) }
{
    let from = date_value(alloc, head.first)?;
    let zone = zone_value(alloc, &head.zone)?;
    let opts = &head.opts;
    json!(in alloc; {
        "change": u64::from(opts.change),
        "days": u64::from(head.days),
        "from": from,
        "journal": 1u64,
        "overrides": u64::from(opts.overrides),
        "slack": u64::from(opts.slack),
        "spare_calls": u64::from(opts.spare_calls),
        "spare_trains": u64::from(opts.spare_trains),
        "stop": u64::from(opts.stop),
        "window": u64::from(opts.window),
        "zone": zone
    })
}

/// The header of a journal: an object with its members in the order of their names and without
/// blanks, and an LF. `OutOfMemory` where there is no memory.
#[tactic(auto, using(crate::proofs::Whole::heads_are_whole), unfolding(crate::specs::Lines::text_of_head))]
pub fn header_line(alloc: Global, head: &Head) -> Result<Vec<u8>, OutOfMemory>
    requires { IsCivil head.now.first }
    ensures { IfOk result (λ b. b.items ≡ text_of_head head.now) }
{
    object_text(alloc, &head_value(alloc, head)?)
}
