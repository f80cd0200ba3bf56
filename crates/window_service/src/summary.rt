//! The line that shows the sums.

ghost use Rattle.std.specs.Prelude.{◌≡◌, IfOk};
ghost use Rattle.serde_json.specs.View.{view};
ghost use Rattle.window_service.specs.Summary.{summary_line, summary_object};

use crate::sums::ReplySums;
use delay_report::object_text;
use mt_base::memory::OutOfMemory;
use serde_json::{Value, json};
use std::alloc::Global;

/// The object of the sums and the number of trains.
fn summary_value(alloc: Global, sums: &ReplySums, trains: u32) -> Result<Value, OutOfMemory>
    ensures { IfOk result (λ v. view v ≡ summary_object sums.now trains) }
{
    json!(in alloc; {
        "accepted": sums.accepted,
        "arrivals": sums.arrivals,
        "bad": sums.bad,
        "changed": sums.changed,
        "found": sums.found,
        "lines": sums.lines,
        "queries": sums.queries,
        "refused": sums.refused,
        "trains": u64::from(trains)
    })
}

/// The line of the sums and of the number of trains that were loaded: a JSON object without blanks,
/// and an LF. `OutOfMemory` where there is no memory.
#[tactic(auto, unfolding(crate::specs::Summary::summary_line))]
pub fn summary_text(alloc: Global, sums: &ReplySums, trains: u32) -> Result<Vec<u8>, OutOfMemory>
    ensures { IfOk result (λ b. b.items ≡ summary_line sums.now trains) }
{
    object_text(alloc, &summary_value(alloc, sums, trains)?)
}
