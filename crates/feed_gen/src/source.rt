//! The lines of so many trains as a source that never fails.

ghost use Rattle.std.specs.Prelude.{◌≡◌, ◌≤◌, ◌+◌, ◌-◌, ◌++◌, length, drop, take, min, IfOk, IsOk, Some, vec_len, vec_capacity};
ghost use Rattle.std.specs.Io.{ReadsAtMost};
ghost use Rattle.std.specs.Io.KnownBytes.{ReadConsumes};
ghost use Rattle.feed_gen.specs.Lines.{bytes_left, input};
ghost use Rattle.mt_io.specs.Causes.{no_faults};

use crate::lines::make_lines;
use mt_base::OutOfMemory;
use mt_io::{Failed, Source};
use std::alloc::Global;
use std::marker::Model;

// No train's lines have more bytes than this.
const ROOM: usize = 512;

/// The lines of a number of trains. They are made while they are read: no more lines are held than
/// those with one train.
#[derive(Drop)]
pub struct GenLines {
    trains: u32,
    // the train whose lines are made next
    next: u32,
    // the lines that are being given
    held: Vec<u8>,
    // which byte of what is held is given next
    at: usize,
}

impl Model for GenLines {
    ghost use Rattle.std.specs.Prelude.{ℕ, List, ◌≤◌, vec_len, vec_capacity};
    ghost use Rattle.feed_gen.specs.Lines.{bytes_left};

    ghost Value = { List ℕ };

    ghost view = { λ g. bytes_left g.held.items g.at g.trains g.next };

    ghost invariant = { λ g. (g.trains ≤ 100000) × (g.next ≤ g.trains) × (g.at ≤ vec_len g.held)
        × (512 ≤ vec_capacity g.held) };
}

impl GenLines {
    /// The input of so many trains. What room it needs is taken here: `OutOfMemory` where there is
    /// no memory.
    pub fn build(alloc: Global, trains: u32) -> Result<GenLines, OutOfMemory>
        requires { trains ≤ 100000 }
        ensures { IfOk result (λ g. g ≡ input trains) }
    {
        Ok(GenLines {
            trains,
            next: 0,
            held: Vec::with_capacity(alloc, ROOM)?,
            at: 0,
        })
    }
}

impl Source for GenLines {
    ghost left = { λ g. Some g };

    ghost faults = { λ _. no_faults };

    fn read(&mut self, buf: &mut [u8]) -> Result<usize, Failed>
        ensures bound { ReadsAtMost result buf.new }
        ensures bytes { ReadConsumes (Some self.old) (Some self.new) result buf.new }
        ensures never { IsOk result }
    {
        let (at, next) = refill(&mut self.held, self.at, self.trains, self.next);
        self.next = next;
        let count = give(&self.held, at, buf);
        self.at = at + count;
        Ok(count)
    }
}

// Holds lines of which not all bytes were given, unless no train is left. `at` is the byte that is
// given next, and `next` the train whose lines are made next. Answers what these are then.
fn refill(held: &mut Vec<u8>, at: usize, trains: u32, next: u32) -> (usize, u32)
    // what is held, and the trains that are left
    requires at { at ≤ vec_len held.old }
    requires trains { trains ≤ 100000 }
    requires next { next ≤ trains }
    requires room { 512 ≤ vec_capacity held.old }

    // the same bytes are left
    ensures left { bytes_left held.new.items result.0 trains result.1
        ≡ bytes_left held.old.items at trains next }
    ensures more { result.0 ≡ vec_len held.new → result.1 ≡ trains }

    // as before
    ensures at { result.0 ≤ vec_len held.new }
    ensures next { result.1 ≤ trains }
    ensures room { 512 ≤ vec_capacity held.new }
{
    if at == held.len() && next < trains {
        make_lines(held, trains, next);
        (0, next + 1)
    } else {
        (at, next)
    }
}

// Moves the bytes from a place on to the front of `buf`, as many as there is room for.
fn give(bytes: &[u8], at: usize, buf: &mut [u8]) -> usize
    requires { at ≤ length bytes.now }

    // how many bytes are moved
    ensures count { result ≡ min (length bytes.now - at) (length buf.old) }
    ensures within { at + result ≤ length bytes.now }

    // which bytes they are
    ensures len { length buf.new ≡ length buf.old }
    ensures moved { drop at bytes.now ≡ take result buf.new ++ drop (at + result) bytes.now }
{
    let count = (bytes.len() - at).min(buf.len());
    buf[..count].copy_from_slice(&bytes[at..at + count]);
    count
}
