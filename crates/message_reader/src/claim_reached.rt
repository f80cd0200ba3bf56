//! The stops that a claim says are reached.

ghost use Rattle.std.specs.Prelude.{◌≡◌};
ghost use Rattle.std.specs.Result.{result_map_both};
ghost use Rattle.serde_json.specs.View.{view, items_view};
ghost use Rattle.message_reader.specs.Claims.{reach_texts, reach_stop, reach_of};
ghost use Rattle.message_reader.specs.Errors.{Gives, bad_in};
ghost use Rattle.message_reader.specs.Items.{items_shape, items_read};

use crate::bad_line::{BadLine, LineError};
use crate::claim_times::claim_time;
use crate::fields::text_at;
use crate::numbers::stop;
use mt_base::certificates::Reach;
use mt_base::numbers::{Day, StopNo};
use mt_base::rows::Rows;
use schedule_build::Directory;
use serde_json::Value;
use std::alloc::Global;

/// A reached stop as an object names it.
#[derive(Clone, Copy)]
struct ReachTexts<'v> {
    stop: &'v str,
    time: &'v str,
}

#[tactic(auto, unfolding(crate::specs::Claims::reach_texts))]
fn texts_at<'v>(value: &'v Value) -> Result<ReachTexts<'v>, BadLine>
    ensures { result_map_both (λ r. record { stop = r.stop.now; time = r.time.now }) (λ bad. bad)
        result
        ≡ reach_texts (view value.now) }
{
    let stop = text_at(value, "stop").ok_or(BadLine::Shape)?;
    let time = text_at(value, "time").ok_or(BadLine::Shape)?;
    Ok(ReachTexts { stop, time })
}

/// The stop of a reached stop: `Stop` where its text is no id of a stop.
#[tactic(auto, unfolding(crate::specs::Claims::reach_stop))]
fn stop_at(dir: &Directory, value: &Value) -> Result<StopNo, BadLine>
    ensures { result ≡ reach_stop dir.now (view value.now) }
{
    let texts = texts_at(value)?;
    stop(dir, texts.stop).ok_or(BadLine::Stop)
}

#[tactic(auto, unfolding(crate::specs::Claims::reach_of))]
fn reach_at(dir: &Directory, day: Day, value: &Value) -> Result<Reach, BadLine>
    ensures { result ≡ reach_of dir.now day (view value.now) }
{
    let texts = texts_at(value)?;
    let stop = stop(dir, texts.stop).ok_or(BadLine::Stop)?;
    let time = claim_time(dir, day, texts.time).ok_or(BadLine::Time)?;
    Ok(Reach { stop, time })
}

/// Whether each value names a reached stop: `Shape` where one does not have its members.
pub(crate) fn check_reached(values: &[Value]) -> Result<(), BadLine>
    ensures { result ≡ items_shape reach_texts (items_view values.now) }
{
    for value in values {
        let _texts = texts_at(value)?;
    }
    Ok(())
}

/// Whether each value names a reached stop that is there: `Stop` where one does not.
pub(crate) fn check_stops(dir: &Directory, values: &[Value]) -> Result<(), BadLine>
    ensures { result ≡ items_shape (reach_stop dir.now) (items_view values.now) }
{
    for value in values {
        let _stop = stop_at(dir, value)?;
    }
    Ok(())
}

/// The stops and times that the values name on a service day, or the first fault in them.
/// `OutOfMemory` where there is no memory.
pub(crate) fn read_reached(
    alloc: Global,
    dir: &Directory,
    day: Day,
    values: &[Value],
) -> Result<Rows<Reach>, LineError>
    ensures { Gives bad_in result (items_read (reach_of dir.now day) (items_view values.now)) }
{
    let mut reached = Vec::new(alloc);
    for value in values {
        let reach = reach_at(dir, day, value)?;
        reached.push(reach)?;
    }
    Ok(Rows::build(reached))
}
