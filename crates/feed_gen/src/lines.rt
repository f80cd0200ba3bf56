//! The lines, made in room that was taken before.

ghost use Rattle.std.specs.Prelude.{◌≡◌, ◌+◌, ◌<◌, ◌≤◌, ◌++◌, codes, decimal, length, vec_len, vec_capacity};
ghost use Rattle.feed_gen.specs.Lines.{flush, forecast, joined, lines_with, query, text_of};

use crate::texts::clock;
use crate::trains::{forecast_time, stop_of};
use itoa::Buffer;

// Appends bytes for which there is room.
fn push_bytes(held: &mut Vec<u8>, bytes: &[u8])
    requires { vec_len held.old + length bytes.now ≤ vec_capacity held.old }
    ensures items { held.new.items ≡ held.old.items ++ bytes.now }
    ensures len { vec_len held.new ≡ vec_len held.old + length bytes.now }
    ensures capacity { vec_capacity held.old ≤ vec_capacity held.new }
{
    let _ = held.extend_from_slice(bytes);
}

// Appends the digits of a number.
fn push_number(held: &mut Vec<u8>, n: u32)
    requires { vec_len held.old + 40 ≤ vec_capacity held.old }
    ensures items { held.new.items ≡ held.old.items ++ decimal n }
    ensures more { vec_len held.old ≤ vec_len held.new }
    ensures len { vec_len held.new ≤ vec_len held.old + 40 }
    ensures capacity { vec_capacity held.old ≤ vec_capacity held.new }
{
    push_bytes(held, Buffer::new().format(n).as_bytes());
}

// Appends the forecast for a train.
#[tactic(auto, unfolding(crate::specs::Lines::text_of))]
fn push_forecast(held: &mut Vec<u8>, train: u32)
    requires train { train < 100000 }
    requires room { vec_len held.old + 150 ≤ vec_capacity held.old }
    ensures items { held.new.items ≡ held.old.items ++ (text_of (forecast train) ++ codes "\n") }
    ensures some { vec_len held.old < vec_len held.new }
    ensures len { vec_len held.new ≤ vec_len held.old + 150 }
    ensures capacity { vec_capacity held.old ≤ vec_capacity held.new }
{
    push_bytes(held, b"{\"v\":1,\"type\":\"forecast\",\"trip\":\"G");
    push_number(held, train);
    push_bytes(
        held,
        b"\",\"date\":\"20260105\",\"call\":1,\"event\":\"arr\",\"time\":\"",
    );
    push_bytes(held, &clock(forecast_time(train)));
    push_bytes(held, b"\"}\n");
}

// Appends the query for a way along a train.
#[tactic(auto, unfolding(crate::specs::Lines::text_of))]
fn push_query(held: &mut Vec<u8>, train: u32)
    requires train { train < 100000 }
    requires room { vec_len held.old + 200 ≤ vec_capacity held.old }
    ensures items { held.new.items ≡ held.old.items ++ (text_of (query train) ++ codes "\n") }
    ensures more { vec_len held.old ≤ vec_len held.new }
    ensures len { vec_len held.new ≤ vec_len held.old + 200 }
    ensures capacity { vec_capacity held.old ≤ vec_capacity held.new }
{
    push_bytes(
        held,
        b"{\"v\":1,\"type\":\"query\",\"client\":\"q\",\"from\":\"S",
    );
    push_number(held, stop_of(train, 0));
    push_bytes(held, b"\",\"to\":\"S");
    push_number(held, stop_of(train, 3));
    push_bytes(held, b"\",\"date\":\"20260105\",\"time\":\"04:00:00\"}\n");
}

// Appends a flush.
#[tactic(auto, unfolding(crate::specs::Lines::text_of))]
fn push_flush(held: &mut Vec<u8>)
    requires { vec_len held.old + 30 ≤ vec_capacity held.old }
    ensures items { held.new.items ≡ held.old.items ++ (text_of flush ++ codes "\n") }
    ensures more { vec_len held.old ≤ vec_len held.new }
    ensures len { vec_len held.new ≤ vec_len held.old + 30 }
    ensures capacity { vec_capacity held.old ≤ vec_capacity held.new }
{
    push_bytes(held, b"{\"v\":1,\"type\":\"flush\"}\n");
}

// Puts the lines with a train, one of so many, in place of what is held.
pub(crate) fn make_lines(held: &mut Vec<u8>, trains: u32, train: u32)
    requires train { train < 100000 }
    requires room { 512 ≤ vec_capacity held.old }
    ensures items { held.new.items ≡ joined (lines_with trains train) }
    ensures some { 0 < vec_len held.new }
    ensures capacity { vec_capacity held.old ≤ vec_capacity held.new }
{
    held.clear();
    push_forecast(held, train);
    if train % 100 == 99 || train + 1 == trains {
        push_flush(held);
        push_query(held, train);
        push_flush(held);
    }
}
