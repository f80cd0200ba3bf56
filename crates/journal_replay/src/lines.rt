//! The lines of a journal, with their ends.

ghost use Rattle.std.specs.Prelude.{◌≡◌, ℕ, ◌-◌, ◌<◌, ◌≤◌, ◌^◌, List, bytes_eq, length, IfErr, IfOk, IfSome, OnOk};
ghost use Rattle.delay_model.specs.declared.messages.Message.{Message};
ghost use Rattle.information_service.specs.ServiceState.{ServiceState};
ghost use Rattle.journal_lines.specs.Lines.{text_of_message};
ghost use Rattle.message_reader.specs.Wires.{IsProper, IsWire};
ghost use Rattle.journal_replay.specs.Reading.{message_if, wire_of_line};
ghost use Rattle.journal_replay.specs.Taking.{IsJudged, IsLineTaken, IsReadyFor};

use crate::refusal::JournalRefusal;
use crate::taking::TakeJournal;
use journal_lines::append_line;
use message_reader::{Line, LineError, LineRoom, Wire, read_line};
use mt_base::memory::OutOfMemory;
use std::alloc::{AllocError, Global};

/// Whether this is the line of a message, byte for byte.
fn is_line_of(alloc: Global, message: &Wire, ended: &[u8]) -> Result<bool, OutOfMemory>
    requires { IsProper message.now }
    ensures { IfOk result (λ is. is ≡ bytes_eq (text_of_message message.now) ended.now) }
{
    let text = append_line(alloc, message)?;
    Ok(text.as_slice() == ended)
}

/// This message, if this is its line.
fn message_if(alloc: Global, message: Wire, ended: &[u8]) -> Result<Option<Wire>, OutOfMemory>
    requires { IsWire message }
    ensures message { IfOk result (λ found. found ≡ message_if ended.now message) }
    ensures wire { IfOk result (λ found. IfSome found IsWire) }
{
    if is_line_of(alloc, &message, ended)? {
        Ok(Some(message))
    } else {
        Ok(None)
    }
}

/// The message whose line this is, if it is the line of a message.
fn wire_of_line(
    alloc: Global,
    room: &mut LineRoom,
    ended: &[u8],
) -> Result<Option<Wire>, OutOfMemory>
    requires some { 1 ≤ length ended.now }
    requires few { length ended.now < 2 ^ 31 }
    ensures message { IfOk result (λ found. found ≡ wire_of_line ended.now) }
    ensures wire { IfOk result (λ found. IfSome found IsWire) }
{
    match read_line(alloc, room, &ended[..ended.len() - 1]) {
        Ok(Line::Message(message)) => message_if(alloc, message, ended),
        Ok(_) | Err(LineError::Bad(_)) => Ok(None),
        Err(LineError::OutOfMemory) => Err(AllocError),
    }
}

/// Takes the message whose line this is, if it is the line of a message that is accepted, and says
/// whether it is.
fn take_line<T: TakeJournal<R>, R>(
    alloc: Global,
    rt: &R,
    taker: &mut T,
    room: &mut LineRoom,
    ended: &[u8],
) -> Result<bool, OutOfMemory>
    requires some { 1 ≤ length ended.now }
    requires few { length ended.now < 2 ^ 31 }
    requires ready { IsReadyFor T.stands taker.old 1 }
    ensures taken { IfOk result (λ taken. (s : ServiceState) (before : List Message)
        → T.stands taker.old s before
        → IsLineTaken T.stands s before (wire_of_line ended.now) taker.new taken) }
    ensures unchanged { IfErr result (λ _. taker.new ≡ taker.old) }
{
    match wire_of_line(alloc, room, ended)? {
        Some(message) => taker.take(alloc, rt, message),
        None => Ok(false),
    }
}

/// Judges the line behind so many others: the first has to be the header, and any other the line of
/// a message that is accepted, which is taken.
pub(crate) fn judge<T: TakeJournal<R>, R>(
    alloc: Global,
    rt: &R,
    taker: &mut T,
    room: &mut LineRoom,
    header: &[u8],
    lines: u64,
    ended: &[u8],
) -> Result<(), JournalRefusal>
    requires lines { lines < 2 ^ 64 - 1 }
    requires some { 1 ≤ length ended.now }
    requires few { length ended.now < 2 ^ 31 }
    requires ready { IsReadyFor T.stands taker.old 1 }
    ensures judged { (s : ServiceState) (before : List Message) → T.stands taker.old s before
        → IsJudged T.stands header.now lines s before ended.now taker.new result }
{
    if lines == 0 {
        if ended == header {
            return Ok(());
        }
        return Err(JournalRefusal::Header);
    }
    if take_line::<T, R>(alloc, rt, taker, room, ended)? {
        return Ok(());
    }
    Err(JournalRefusal::Line { line: lines + 1 })
}
