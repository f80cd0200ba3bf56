//! Bytes that are gathered, so that many are written by one call.

ghost use Rattle.std.specs.Prelude.{◌≡◌, ◌++◌, [], Some, OnOk, IfErr, IsErrOf, vec_capacity};
ghost use Rattle.std.specs.Io.KnownBytes.{Appends};
ghost use Rattle.mt_io.specs.Causes.{IsFull};
ghost use Rattle.mt_io.specs.Reader.{HoldsNoLine};
ghost use Rattle.information_service.specs.Causes.{IsNotOfInput, writes_failed};
ghost use Rattle.information_service.specs.Fronts.{AppendsFront, Gathers};

use crate::fault::LinesFault;
use crate::writing::write_bytes;
use mt_io::{LineReader, Sink};

/// So many bytes are gathered at most.
pub(crate) const GATHERED: usize = 65_536;

/// Writes what is gathered. Then nothing is. It fails with `WriteFault` where a write of the output
/// failed; then a part of it is written.
pub(crate) fn write_gathered<K: Sink>(gathered: &mut Vec<u8>, out: &mut K) -> Result<(), LinesFault>
    // what is written and gathered then
    ensures ok { OnOk result (Appends (K.written out.old) (K.written out.new) gathered.old.items) }
    ensures front { IfErr result (λ f. AppendsFront (f ≡ LinesFault.WriteFault)
        (K.written out.old) (K.written out.new) gathered.old.items) }
    ensures empty { OnOk result (gathered.new.items ≡ []) }
    ensures capacity { vec_capacity gathered.new ≡ vec_capacity gathered.old }

    // the faults
    ensures fault { IfErr result IsNotOfInput }
    ensures writes { Some (K.faults out.new) ≡ writes_failed result (K.faults out.old) }
    ensures full { IsErrOf result LinesFault.WriteFault
        → IsFull (K.faults out.new) (K.written out.new) }
{
    write_bytes(gathered.as_slice(), out)?;
    gathered.clear();
    Ok(())
}

/// Gathers a text behind what is gathered. Where there is no room left for it, it first writes what
/// is gathered, and a text that is longer than all room is written behind that. It takes no memory,
/// and fails with `WriteFault` where a write of the output failed; then a part of both is written.
pub(crate) fn gather<K: Sink>(
    text: &[u8],
    gathered: &mut Vec<u8>,
    out: &mut K,
) -> Result<(), LinesFault>
    // what is written and gathered then
    ensures ok { OnOk result (Gathers (K.written out.old) (K.written out.new)
        (gathered.old.items ++ text.now) gathered.new.items) }
    ensures front { IfErr result (λ f. AppendsFront (f ≡ LinesFault.WriteFault)
        (K.written out.old) (K.written out.new) (gathered.old.items ++ text.now)) }

    // the faults
    ensures fault { IfErr result IsNotOfInput }
    ensures writes { Some (K.faults out.new) ≡ writes_failed result (K.faults out.old) }
    ensures full { IsErrOf result LinesFault.WriteFault
        → IsFull (K.faults out.new) (K.written out.new) }
{
    if text.len() <= gathered.capacity() - gathered.len() {
        let _ = gathered.extend_from_slice(text);
        return Ok(());
    }
    write_gathered(gathered, out)?;
    if text.len() <= gathered.capacity() {
        let _ = gathered.extend_from_slice(text);
        return Ok(());
    }
    write_bytes(text, out)
}

/// Writes what is gathered, unless a whole line is held, before which nothing is read. So all of it
/// is written before more of the input is read.
pub(crate) fn write_before_read<K: Sink>(
    reader: &LineReader,
    gathered: &mut Vec<u8>,
    out: &mut K,
) -> Result<(), LinesFault>
    // what is written and gathered then
    ensures ok { OnOk result (Gathers (K.written out.old) (K.written out.new) gathered.old.items
        gathered.new.items) }
    ensures front { IfErr result (λ f. AppendsFront (f ≡ LinesFault.WriteFault)
        (K.written out.old) (K.written out.new) gathered.old.items) }
    ensures empty { OnOk result (HoldsNoLine reader.now → gathered.new.items ≡ []) }

    // the faults
    ensures fault { IfErr result IsNotOfInput }
    ensures writes { Some (K.faults out.new) ≡ writes_failed result (K.faults out.old) }
    ensures full { IsErrOf result LinesFault.WriteFault
        → IsFull (K.faults out.new) (K.written out.new) }
{
    if reader.holds_line() {
        return Ok(());
    }
    write_gathered(gathered, out)
}
