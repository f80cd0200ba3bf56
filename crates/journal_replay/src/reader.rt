//! The reader of a journal, which takes its bytes in pieces.

ghost use Rattle.std.specs.Prelude.{◌≡◌, ◌≢◌, ℕ, ◌+◌, ◌-◌, ◌<◌, ◌≤◌, ◌^◌, ◌++◌, ◌∷◌, [], List, None, Some, Err, IfOk, IfErr, MatchOption, OnOk, drop, length, nat_eq, not, take};
ghost use Rattle.delay_model.specs.declared.messages.Message.{Message};
ghost use Rattle.information_service.specs.ServiceState.{ServiceState};
ghost use Rattle.mt_base.specs.Civil.{IsCivil};
ghost use Rattle.mt_io.specs.Steps.{HasNoLf};
ghost use Rattle.journal_lines.specs.Lines.{text_of_head};
ghost use Rattle.journal_replay.specs.Reading.{long_from};
ghost use Rattle.journal_replay.specs.ReaderStates.{answer, BreaksOff, HasRead, IsHeld, IsNotHeld, StopsIn};
ghost use Rattle.journal_replay.specs.Taking.{IsJudged, IsReadyFor};
ghost use Rattle.journal_replay.specs.declared.refusal.JournalRefusal.{JournalRefusal as AJournalRefusal};
ghost use Rattle.journal_replay.specs.declared.refusal.JournalRefusal.TheVariants.{OutOfMemory};

use crate::lines::judge;
use crate::refusal::JournalRefusal;
use crate::taking::TakeJournal;
use journal_lines::{Head, header_line};
use memchr::memchr;
use message_reader::LineRoom;
use mt_base::memory::OutOfMemory;
use std::alloc::Global;
use std::marker::Model;

/// So many bytes before its end, or more, make a line too long.
const LONG: usize = 1_048_576;

/// Reads a journal, however its bytes are cut into pieces.
#[derive(Drop)]
pub struct JournalReader {
    header: Vec<u8>,
    held: Vec<u8>,
    lines: u64,
    refusal: Option<JournalRefusal>,
    room: LineRoom,
}

impl Model for JournalReader {
    ghost use Rattle.journal_replay.specs.ReaderStates.{ReaderState};

    ghost Value = { ReaderState };

    ghost use Rattle.journal_replay.specs.Inside.{seen, IsConsistent};

    ghost view = { seen };

    ghost invariant = { IsConsistent };
}

/// Where the first LF stands, if there is one.
fn first_lf(bytes: &[u8]) -> Option<usize>
    ensures { MatchOption result (HasNoLf bytes.now) (λ i. (i < length bytes.now)
        × HasNoLf (take i bytes.now)
        × (bytes.now ≡ take i bytes.now ++ 10 ∷ drop (i + 1) bytes.now)) }
{
    match memchr(b'\n', bytes) {
        Some(i) => Some(i),
        None => None,
    }
}

impl JournalReader {
    /// A reader that has read nothing of a journal with this header. `OutOfMemory` where there is
    /// no memory.
    pub fn build(alloc: Global, head: &Head) -> Result<JournalReader, OutOfMemory>
        requires { IsCivil head.now.first }
        ensures { IfOk result (λ r. r ≡ record {
          header = text_of_head head.now;
          lines = 0;
          held = [];
          refusal = None;
        }) }
    {
        Ok(JournalReader {
            header: header_line(alloc, head)?,
            held: Vec::new(alloc),
            lines: 0,
            refusal: None,
            room: LineRoom::build(alloc)?,
        })
    }

    /// How many lines were taken, the header among them.
    pub fn lines(&self) -> u64
        ensures { result ≡ self.now.lines }
    {
        self.lines
    }

    /// Whether bytes stand behind the last whole line. Where the journal is refused, none do.
    pub fn is_torn(&self) -> bool
        ensures { result ≡ not (nat_eq (length self.now.held) 0) }
    {
        !self.held.is_empty()
    }

    /// Holds bytes that end no line. It fails with `Line` where the line gets too long, and with
    /// `OutOfMemory` where there is no memory.
    fn hold(&mut self, bytes: &[u8]) -> Result<(), JournalRefusal>
        requires lines { self.old.lines < 2 ^ 64 - 1 }
        ensures short { length self.old.held < long_from }
        ensures held { OnOk result (IsHeld self.old bytes.now self.new) }
        ensures not_held { IfErr result (IsNotHeld self.old bytes.now) }
        ensures header { self.new.header ≡ self.old.header }
        ensures lines { self.new.lines ≡ self.old.lines }
        ensures refusal { self.new.refusal ≡ self.old.refusal }
    {
        if bytes.len() >= LONG - self.held.len() {
            return Err(JournalRefusal::Line {
                line: self.lines + 1,
            });
        }
        self.held.extend_from_slice(bytes)?;
        Ok(())
    }

    /// Ends the line that is held, which is judged; its message is taken.
    fn end_line<T: TakeJournal<R>, R>(
        &mut self,
        alloc: Global,
        rt: &R,
        taker: &mut T,
    ) -> Result<(), JournalRefusal>
        requires lines { self.old.lines < 2 ^ 64 - 1 }
        requires ready { IsReadyFor T.stands taker.old 1 }
        ensures judged { (s : ServiceState) (before : List Message) → T.stands taker.old s before
            → IsJudged T.stands self.old.header self.old.lines s before
            (self.old.held ++ 10 ∷ []) taker.new result }
        ensures ended { OnOk result (self.new ≡ record {
          header = self.old.header;
          lines = self.old.lines + 1;
          held = [];
          refusal = self.old.refusal;
        }) }
        ensures header { self.new.header ≡ self.old.header }
        ensures lines { IfErr result (λ _. self.new.lines ≡ self.old.lines) }
        ensures refusal { self.new.refusal ≡ self.old.refusal }
    {
        let Ok(()) = self.held.push(b'\n') else {
            return Err(JournalRefusal::OutOfMemory);
        };
        let judged = judge::<T, R>(
            alloc,
            rt,
            taker,
            &mut self.room,
            self.header.as_slice(),
            self.lines,
            self.held.as_slice(),
        );
        self.held.clear();
        judged?;
        self.lines += 1;
        Ok(())
    }

    /// Reads the next bytes, up to the first line that is refused.
    fn read_piece<T: TakeJournal<R>, R>(
        &mut self,
        alloc: Global,
        rt: &R,
        taker: &mut T,
        piece: &[u8],
    ) -> Result<(), JournalRefusal>
        requires not_refused { self.old.refusal ≡ None }
        requires lines { self.old.lines < 2 ^ 63 }
        requires ready { IsReadyFor T.stands taker.old (length piece.now) }
        ensures read { OnOk result (HasRead T.stands taker.old self.old piece.now taker.new
            self.new) }
        ensures stops { IfErr result (StopsIn T.stands taker.old self.old piece.now taker.new
            self.new) }
        ensures not_refused { self.new.refusal ≡ None }
        ensures header { self.new.header ≡ self.old.header }
    {
        let mut rest = piece;
        while let Some(end) = first_lf(rest) {
            self.hold(&rest[..end])?;
            self.end_line::<T, R>(alloc, rt, taker)?;
            rest = &rest[end + 1..];
        }
        self.hold(rest)
    }

    /// Reads the next bytes of the journal, and gives the messages of its whole lines to `taker`,
    /// who took those before. It answers how many messages were read so far. It fails with `Line`
    /// at the first line that is too long, whether it is whole or not, or, behind the header, is
    /// not the line of a message that is accepted there, and with `Header` where the first whole
    /// line is not too long and is not the header; the messages before that line are taken. It
    /// fails with `OutOfMemory` where there is no memory; then the messages of a beginning of the
    /// bytes are taken. After it has failed it reads nothing more, and fails in the same way.
    pub fn feed<T: TakeJournal<R>, R>(
        &mut self,
        alloc: Global,
        rt: &R,
        taker: &mut T,
        piece: &[u8],
    ) -> Result<u64, JournalRefusal>
        requires lines { self.old.lines < 2 ^ 63 }
        requires ready { self.old.refusal ≡ None
            → IsReadyFor T.stands taker.old (length piece.now) }
        ensures read { result ≢ Err OutOfMemory → HasRead T.stands taker.old self.old piece.now
            taker.new self.new }
        ensures answer { result ≡ answer self.new }
        ensures memory { result ≡ Err OutOfMemory → self.old.refusal ≡ None → BreaksOff T.stands
            taker.old self.old piece.now taker.new self.new.lines }
        ensures refused { (why : AJournalRefusal) → self.old.refusal ≡ Some why
            → (result ≡ Err why) × (self.new ≡ self.old) × (taker.new ≡ taker.old) }
        ensures header { self.new.header ≡ self.old.header }
    {
        if let Some(refusal) = self.refusal {
            return Err(refusal);
        }
        match self.read_piece::<T, R>(alloc, rt, taker, piece) {
            Ok(()) => Ok(self.lines.saturating_sub(1)),
            Err(refusal) => {
                self.held.clear();
                self.refusal = Some(refusal);
                Err(refusal)
            }
        }
    }
}
