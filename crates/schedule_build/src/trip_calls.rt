//! The calls of a trip on a service day.

ghost use Rattle.std.specs.Prelude.{◌≡◌, ℕ, ◌<◌, ◌≤◌, ◌^◌, All, IfOk, IfSome, length};
ghost use Rattle.feed_tables.specs.Calls.{in_order, is_rising, sequence, both_times};
ghost use Rattle.schedule_build.specs.TripCalls.{IsTimely, call_at, timed_call, timed_calls, trip_calls};

use mt_base::memory::OutOfMemory;
use mt_base::numbers::Time;
use mt_base::tables::CallRow;
use std::alloc::Global;
use train_nodes::TableCall;

/// The arrival and the departure of a call in seconds of its service day, if it has a time.
fn both_times(row: &CallRow) -> Option<(u32, u32)>
    requires { IsTimely row.now }
    ensures times { result ≡ both_times row.now.arr row.now.dep }
    ensures small { IfSome result (λ times. (times.0 ≤ 359999) × (times.1 ≤ 359999)) }
{
    match (row.arr, row.dep) {
        (None, None) => None,
        (None, Some(dep)) => Some((dep, dep)),
        (Some(arr), None) => Some((arr, arr)),
        (Some(arr), Some(dep)) => Some((arr, dep)),
    }
}

fn call_at(base: Time, row: &CallRow, arr: u32, dep: u32) -> TableCall
    requires base { base ≤ 2808000 }
    requires arr { arr ≤ 359999 }
    requires dep { dep ≤ 359999 }
    ensures { result ≡ call_at base row.now (arr, dep) }
{
    TableCall {
        stop: row.stop,
        arr: Time::new(base.seconds() + arr),
        dep: Time::new(base.seconds() + dep),
        board: row.board,
        alight: row.alight,
    }
}

fn timed_call(base: Time, row: &CallRow) -> Option<TableCall>
    requires base { base ≤ 2808000 }
    requires timely { IsTimely row.now }
    ensures { result ≡ timed_call base row.now }
{
    match both_times(row) {
        None => None,
        Some((arr, dep)) => Some(call_at(base, row, arr, dep)),
    }
}

/// The calls of the rows that have a time, in their order.
fn timed_calls(alloc: Global, base: Time, rows: &[CallRow]) -> Result<Vec<TableCall>, OutOfMemory>
    requires base { base ≤ 2808000 }
    requires timely { All IsTimely rows.now }
    ensures { IfOk result (λ calls. calls.items ≡ timed_calls base rows.now) }
{
    let mut calls = Vec::new(alloc);
    for row in rows {
        if let Some(call) = timed_call(base, row) {
            calls.push(call)?;
        }
    }
    Ok(calls)
}

/// Whether the rows stand in the order of `stop_sequence`.
fn is_in_sequence(rows: &[CallRow]) -> bool
    ensures { result ≡ is_rising sequence 0 rows.now }
{
    let mut last = 0;
    for row in rows {
        if row.seq < last {
            return false;
        }
        last = row.seq;
    }
    true
}

/// The rows in the order of `stop_sequence`.
fn sorted(alloc: Global, rows: &[CallRow]) -> Result<Vec<CallRow>, OutOfMemory>
    requires few { length rows.now < 2 ^ 32 }
    requires timely { All IsTimely rows.now }
    ensures order { IfOk result (λ all. all.items ≡ in_order sequence rows.now) }
    ensures timely { IfOk result (λ all. All IsTimely all.items) }
{
    let mut all = Vec::with_capacity(alloc, rows.len())?;
    all.extend_from_slice(rows)?;
    all.sort_by_key(|row| row.seq)?;
    Ok(all)
}

/// The calls of a trip on a service day with this base, from the trip's rows of `stop_times.txt` in
/// any order: those with a time, by `stop_sequence`. Their times are in seconds from the base of
/// day 0, as the base is, which is at most 30 days of 26 hours. `OutOfMemory` where there is no
/// memory.
pub fn trip_calls(
    alloc: Global,
    base: Time,
    rows: &[CallRow],
) -> Result<Vec<TableCall>, OutOfMemory>
    requires base { base ≤ 2808000 }
    requires few { length rows.now < 2 ^ 32 }
    requires timely { All IsTimely rows.now }
    ensures { IfOk result (λ calls. calls.items ≡ trip_calls base rows.now) }
{
    if is_in_sequence(rows) {
        return timed_calls(alloc, base, rows);
    }
    let all = sorted(alloc, rows)?;
    timed_calls(alloc, base, all.as_slice())
}
