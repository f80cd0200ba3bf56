//! The replies to a window as texts, written at once.

ghost use Rattle.std.specs.Prelude.{◌≡◌, Some, OnOk, IfErr, IfOk, IsErrOf};
ghost use Rattle.std.specs.Io.KnownBytes.{Appends};
ghost use Rattle.information_service.specs.Causes.{IsNotOfInput, writes_failed};
ghost use Rattle.information_service.specs.Fronts.{AppendsFront};
ghost use Rattle.mt_io.specs.Causes.{IsFull};
ghost use Rattle.query_crew.specs.Served.{text_of_replies};

use crate::receiving::ReceiveReplies;
use delay_report::{Reply, reply_text};
use information_service::LinesFault;
use mt_base::memory::OutOfMemory;
use mt_io::{Sink, put};
use schedule_build::Directory;
use std::alloc::Global;

/// The texts of replies, one behind the other. `OutOfMemory` where there is no memory.
fn text_of_replies(
    alloc: Global,
    directory: &Directory,
    replies: &[Reply],
) -> Result<Vec<u8>, OutOfMemory>
    ensures { IfOk result (λ text. text.items ≡ text_of_replies directory.now replies.now) }
{
    let mut text = Vec::new(alloc);
    for reply in replies {
        text.extend_from_slice(reply_text(alloc, reply, directory)?.as_slice())?;
    }
    Ok(text)
}

/// Writes replies. It fails with `WriteFault` where a write of the output failed, and with
/// `OutOfMemory` where there was no memory, before anything is written.
fn write_replies<K: Sink>(
    alloc: Global,
    directory: &Directory,
    replies: &[Reply],
    out: &mut K,
) -> Result<(), LinesFault>
    ensures ok { OnOk result (Appends (K.written out.old) (K.written out.new)
        (text_of_replies directory.now replies.now)) }
    ensures front { IfErr result (λ f. AppendsFront (f ≡ LinesFault.WriteFault)
        (K.written out.old) (K.written out.new) (text_of_replies directory.now replies.now)) }
    ensures fault { IfErr result IsNotOfInput }
    ensures writes { Some (K.faults out.new) ≡ writes_failed result (K.faults out.old) }
    ensures full { IsErrOf result LinesFault.WriteFault
        → IsFull (K.faults out.new) (K.written out.new) }
{
    let text = text_of_replies(alloc, directory, replies)?;
    put(out, text.as_slice())?;
    Ok(())
}

/// Writes the text of each reply.
pub(crate) struct WriteTexts;

impl<K: Sink> ReceiveReplies<K> for WriteTexts {
    ghost use Rattle.mt_io.specs.Causes.{IsFull};
    ghost use Rattle.window_service.specs.Received.{ReceivesTexts, BeginsTexts};

    ghost receives = { ReceivesTexts K.written };

    ghost begins = { BeginsTexts K.written };

    ghost faults = { K.faults };

    ghost is_full = { λ out. IsFull (K.faults out) (K.written out) };

    fn receive(
        alloc: Global,
        directory: &Directory,
        replies: &[Reply],
        out: &mut K,
    ) -> Result<(), LinesFault> {
        write_replies(alloc, directory, replies, out)
    }
}
