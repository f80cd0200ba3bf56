//! The lines of a source, one at a time, whatever the pieces in which its bytes come.
ghost use Rattle.std.specs.Prelude.{◌≡◌, ◌≢◌, ◌<◌, ◌≤◌, ◌+◌, ◌-◌, ◌++◌, ◌∷◌, [], List, ℕ, Bool, true, false, length, take, drop, Some, IfSome, IfNone, IfOk, OnOk, OnErr, MatchOption, MatchResult, slice_range, vec_len};
ghost use Rattle.std.specs.Io.KnownBytes.{Consumes, IsAtEnd, Keeps};
ghost use Rattle.mt_io.specs.Causes.{HasCause, counted};
ghost use Rattle.mt_io.specs.Lines.{lines_of};
ghost use Rattle.mt_io.specs.Reader.{Reader, HoldsNoLine, Gives, GivesNext, ahead, work};
ghost use Rattle.mt_io.specs.Steps.{Buffer, HasNoLf, Waits, SameCounts, Takes, TookNothing};

use crate::traits::{Failed, Source};
use memchr::memchr;
use mt_base::OutOfMemory;
use std::alloc::Global;
use std::marker::Model;

// A line of so many bytes before its LF is long.
const LONG: usize = 65_536;

// The buffer's length.
const ROOM: usize = 131_072;

// Behind this place too little room is left for a read.
const NARROW: usize = 98_304;

// What a call found.
#[derive(Clone, Copy, Debug, PartialEq, Eq)]
enum Found {
    Line,
    LongLine,
    End,
    ReadFault,
    Budget,
}

/// What a call answers.
#[derive(Clone, Copy, Debug)]
pub enum Next<'a> {
    /// The bytes before an LF, or the last bytes before the end.
    Line(&'a [u8]),
    /// The first 65,536 bytes of the line hold no LF. The next call passes over the rest.
    LongLine,
    /// The input is at its end, and no line is left.
    End,
    /// The source failed. What was taken is kept, and the next call reads on.
    ReadFault,
    /// As many bytes as may be were taken, no end was read, and no whole line is left.
    Budget,
}

/// Takes bytes from a source and cuts them at LFs.
#[derive(Drop)]
pub struct LineReader {
    buf: Vec<u8>,
    from: usize,
    to: usize,
    start: usize,
    searched: usize,
    end: usize,
    inside_long: bool,
    ended: bool,
    taken: u64,
    budget: u64,
}

impl Model for LineReader {
    ghost Value = { Reader };

    ghost view = { λ r. record {
      held = slice_range r.buf.items r.start r.end;
      inside_long = r.inside_long;
      ended = r.ended;
      taken = r.taken;
      budget = r.budget;
      line = slice_range r.buf.items r.from r.to;
    } };

    ghost invariant = { λ r. Buffer r.buf.items r.start r.searched r.end × (r.from ≤ r.to)
        × (r.to ≤ 131072) × (vec_len r.buf ≡ 131072) × (r.taken ≤ r.budget) };
}

impl LineReader {
    ghost use Rattle.std.specs.Borrow.{sem};
    ghost use Rattle.std.specs.Io.BufRead.{Rests};
    ghost use Rattle.mt_io.specs.Answers.{answers, next_lines, IsLine, Leaves, LeavesNext};
    ghost use Rattle.mt_io.specs.contracts.lines.LineReader.{the_row};

    /// A reader that takes at most `budget` bytes in all. Its buffer is taken here. `OutOfMemory`
    /// where there is no memory.
    pub fn build(alloc: Global, budget: u64) -> Result<LineReader, OutOfMemory>
        ensures { IfOk result (λ r. r ≡ record {
          held = [];
          inside_long = false;
          ended = false;
          taken = 0;
          budget = budget;
          line = [];
        }) }
    {
        Ok(LineReader {
            buf: vec![in alloc; 0; ROOM]?,
            from: 0,
            to: 0,
            start: 0,
            searched: 0,
            end: 0,
            inside_long: false,
            ended: false,
            taken: 0,
            budget,
        })
    }

    /// The next line. It reads only where no whole line is held, the end was not read, and more
    /// bytes may be taken.
    pub fn next<S: Source>(&mut self, source: &mut S) -> Next<'_>
        ensures* gives { sem 𝓛 (Rests the_row self.entry (λ new.
            GivesNext self.old new (S.left source.old) (S.left source.new) (next_lines result)
            × LeavesNext result self.old new)) }
        ensures read_fault { result ≡ Next.ReadFault
            → Some (S.faults source.new) ≡ counted (S.faults source.old) }
        ensures answered { result ≢ Next.ReadFault → S.faults source.new ≡ S.faults source.old }
        ensures holds { ¬ (HoldsNoLine self.old) → source.new ≡ source.old }
        ensures ended { self.old.ended ≡ true → source.new ≡ source.old }
        ensures spent { self.old.taken ≡ self.old.budget → source.new ≡ source.old }
    {
        match self.advance(source) {
            Found::Line => Next::Line(self.line()),
            Found::LongLine => Next::LongLine,
            Found::End => Next::End,
            Found::ReadFault => Next::ReadFault,
            Found::Budget => Next::Budget,
        }
    }

    /// Whether a whole line is held, so that the next call answers it and reads nothing.
    pub fn holds_line(&self) -> bool
        ensures held { result ≡ true → ¬ (HoldsNoLine self.now) }
        ensures none { result ≡ false → HoldsNoLine self.now }
    {
        let held = &self.buf[self.start..self.end];
        if !self.inside_long {
            return has_line(held, self.searched - self.start);
        }
        match next_lf(held, 0) {
            None => false,
            Some(i) => has_line(&held[i + 1..], 0),
        }
    }

    // The line last found.
    fn line(&self) -> &[u8]
        ensures { result.now ≡ self.now.line }
    {
        &self.buf[self.from..self.to]
    }

    // Finds the next line, and reads only where none is held.
    fn advance<S: Source>(&mut self, source: &mut S) -> Found
        // what is read, and what is left to do
        ensures gives { GivesNext self.old self.new (S.left source.old) (S.left source.new)
            (answers result self.new.line) }
        ensures leaves { Leaves result self.old self.new }

        // the faults of the source
        ensures read_fault { result ≡ Found.ReadFault
            → Some (S.faults source.new) ≡ counted (S.faults source.old) }
        ensures answered { result ≢ Found.ReadFault → S.faults source.new ≡ S.faults source.old }

        // when the source is not read
        ensures holds { ¬ (HoldsNoLine self.old) → source.new ≡ source.old }
        ensures ended { self.old.ended ≡ true → source.new ≡ source.old }
        ensures spent { self.old.taken ≡ self.old.budget → source.new ≡ source.old }
    {
        match self.take_held() {
            Some(found) => found,
            None => self.read_on(source),
        }
    }

    // Reads until a line is found.
    fn read_on<S: Source>(&mut self, source: &mut S) -> Found
        // the reader needs more bytes
        requires { Waits self.old }

        // what is read, and what is left to do
        ensures gives { GivesNext self.old self.new (S.left source.old) (S.left source.new)
            (answers result self.new.line) }
        ensures leaves { Leaves result self.old self.new }

        // the faults of the source
        ensures read_fault { result ≡ Found.ReadFault
            → Some (S.faults source.new) ≡ counted (S.faults source.old) }
        ensures answered { result ≢ Found.ReadFault → S.faults source.new ≡ S.faults source.old }

        // when the source is not read
        ensures ended { self.old.ended ≡ true → source.new ≡ source.old }
        ensures spent { self.old.taken ≡ self.old.budget → source.new ≡ source.old }
    {
        loop {
            if self.ended {
                return self.finish();
            }
            if self.taken == self.budget {
                return Found::Budget;
            }
            let Ok(()) = self.fill(source) else {
                return Found::ReadFault;
            };
            if let Some(found) = self.take_held() {
                return found;
            }
        }
    }

    // Finds a line that is held.
    fn take_held(&mut self) -> Option<Found>
        ensures found { IfSome result (λ f. IsLine f × ((rest : List ℕ) (ended : Bool)
            → ahead self.old rest ended ≡ answers f self.new.line ++ ahead self.new rest ended)) }
        ensures none { IfNone result (Waits self.new × ((rest : List ℕ) (ended : Bool)
            → ahead self.old rest ended ≡ ahead self.new rest ended)) }
        ensures less { IfSome result (λ _. work self.new < work self.old) }
        ensures work { work self.new ≤ work self.old }
        ensures counts { SameCounts self.old self.new }
    {
        self.pass();
        if self.inside_long {
            return None;
        }
        self.cut()
    }

    // Passes over the rest of a long line, as far as it is held.
    fn pass(&mut self)
        ensures ahead { (rest : List ℕ) (ended : Bool) → ahead self.old rest ended
            ≡ ahead self.new rest ended }
        ensures work { work self.new ≤ work self.old }
        ensures passed { self.new.inside_long ≡ true → self.new.held ≡ [] }
        ensures counts { SameCounts self.old self.new }
    {
        if self.inside_long {
            match next_lf(&self.buf[self.start..self.end], 0) {
                None => {
                    self.start = self.end;
                    self.searched = self.end;
                }
                Some(i) => {
                    self.start += i + 1;
                    self.searched = self.start;
                    self.inside_long = false;
                }
            }
        }
    }

    // Finds a line that is held, or sees that a long one begins.
    fn cut(&mut self) -> Option<Found>
        requires { self.old.inside_long ≡ false }
        ensures found { IfSome result (λ f. IsLine f × ((rest : List ℕ) (ended : Bool)
            → ahead self.old rest ended ≡ answers f self.new.line ++ ahead self.new rest ended)) }
        ensures less { IfSome result (λ _. work self.new < work self.old) }
        ensures none { IfNone result ((self.new ≡ self.old) × HasNoLf self.new.held
            × (length self.new.held < 65536)) }
        ensures counts { SameCounts self.old self.new }
    {
        let limit = self.end.min(self.start + LONG);
        match next_lf(&self.buf[self.start..limit], self.searched - self.start) {
            Some(i) => {
                self.from = self.start;
                self.to = self.start + i;
                self.start += i + 1;
                self.searched = self.start;
                Some(Found::Line)
            }
            None if limit - self.start == LONG => {
                self.start = limit;
                self.searched = limit;
                self.inside_long = true;
                Some(Found::LongLine)
            }
            None => None,
        }
    }

    // At the end: the last bytes are a line, if there are any.
    fn finish(&mut self) -> Found
        requires ended { self.old.ended ≡ true }
        requires waits { Waits self.old }
        ensures ahead { ahead self.old [] true ≡ answers result self.new.line
            ++ ahead self.new [] true }
        ensures leaves { Leaves result self.old self.new }
        ensures counts { SameCounts self.old self.new }
    {
        if self.start == self.end {
            return Found::End;
        }
        self.from = self.start;
        self.to = self.end;
        self.start = self.end;
        self.searched = self.end;
        Found::Line
    }

    // Takes the next bytes.
    fn fill<S: Source>(&mut self, source: &mut S) -> Result<(), Failed>
        requires open { self.old.ended ≡ false }
        requires waits { Waits self.old }
        requires budget { self.old.taken < self.old.budget }
        ensures ok { OnOk result ((bytes : List ℕ)
            × Takes self.old self.new (S.left source.old) (S.left source.new) bytes) }
        ensures err { OnErr result (TookNothing self.old self.new (S.left source.old)
            (S.left source.new)) }
        ensures cause { HasCause (S.faults source.old) (S.faults source.new) result }
    {
        let held = self.end - self.start;
        let start = make_room(&mut self.buf, self.start, self.end);
        let at = start + held;
        self.from = 0;
        self.to = 0;
        self.start = start;
        self.searched = at;
        self.end = at;
        let room = (self.budget - self.taken).min((ROOM - at) as u64) as usize;
        let Ok(count) = read_at(source, &mut self.buf, at, room) else {
            return Err(Failed);
        };
        self.end = at + count;
        self.taken += count as u64;
        self.ended = count == 0;
        Ok(())
    }
}

// Moves the bytes in a range to the front, where little room is left behind them.
// Answers where they begin then.
fn make_room(bytes: &mut Vec<u8>, start: usize, end: usize) -> usize
    requires order { (start ≤ end) × (end ≤ 131072) }
    requires len { vec_len bytes.old ≡ 131072 }
    requires small { end - start < 65536 }
    ensures room { result + (end - start) < 131072 }
    ensures len { vec_len bytes.new ≡ 131072 }
    ensures held { slice_range bytes.new.items result (result + (end - start))
        ≡ slice_range bytes.old.items start end }
{
    if start < end && end <= NARROW {
        return start;
    }
    bytes.copy_within(start..end, 0);
    0
}

// Moves the source's next bytes to a place of `bytes`, `room` of them at most.
fn read_at<S: Source>(
    source: &mut S,
    bytes: &mut Vec<u8>,
    at: usize,
    room: usize,
) -> Result<usize, Failed>
    requires { at + room ≤ vec_len bytes.old }
    ensures len { vec_len bytes.new ≡ vec_len bytes.old }
    ensures front { take at bytes.new.items ≡ take at bytes.old.items }
    ensures bound { IfOk result (λ n. n ≤ room) }
    ensures moved { MatchResult result
        (λ n. Consumes (S.left source.old) (S.left source.new)
        (slice_range bytes.new.items at (at + n))
        × (n ≡ 0 → 0 < room → IsAtEnd (S.left source.new)))
        (λ _. Keeps (S.left source.old) (S.left source.new)) }
    ensures cause { HasCause (S.faults source.old) (S.faults source.new) result }
{
    source.read(&mut bytes[at..at + room])
}

// Whether bytes begin with a whole line, if no LF stands before the place `from`.
fn has_line(bytes: &[u8], from: usize) -> bool
    requires within { from ≤ length bytes.now }
    requires searched { HasNoLf (take from bytes.now) }
    ensures held { result ≡ true → ¬ (lines_of false bytes.now ≡ []) }
    ensures none { result ≡ false → lines_of false bytes.now ≡ [] }
{
    bytes.len() >= LONG || next_lf(bytes, from).is_some()
}

// Where the first LF stands, if none stands before the place `from`.
fn next_lf(bytes: &[u8], from: usize) -> Option<usize>
    requires within { from ≤ length bytes.now }
    requires searched { HasNoLf (take from bytes.now) }
    ensures { MatchOption result (HasNoLf bytes.now) (λ i. (i < length bytes.now)
        × HasNoLf (take i bytes.now)
        × (bytes.now ≡ take i bytes.now ++ 10 ∷ drop (i + 1) bytes.now)) }
{
    match memchr(b'\n', &bytes[from..]) {
        Some(i) => Some(from + i),
        None => None,
    }
}
