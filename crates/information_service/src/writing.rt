//! Bytes that are written to an output.

ghost use Rattle.std.specs.Prelude.{◌≡◌, Some, OnOk, IfErr, IsErrOf};
ghost use Rattle.std.specs.Io.KnownBytes.{Appends};
ghost use Rattle.mt_io.specs.Causes.{IsFull};
ghost use Rattle.information_service.specs.Causes.{IsNotOfInput, writes_failed};
ghost use Rattle.information_service.specs.Fronts.{AppendsFront};

use crate::fault::LinesFault;
use mt_io::{Sink, put};

/// Writes bytes. It fails with `WriteFault` where a write of the output failed; then a part of them
/// is written.
pub fn write_bytes<K: Sink>(bytes: &[u8], out: &mut K) -> Result<(), LinesFault>
    ensures ok { OnOk result (Appends (K.written out.old) (K.written out.new) bytes.now) }
    ensures front { IfErr result (λ f. AppendsFront (f ≡ LinesFault.WriteFault)
        (K.written out.old) (K.written out.new) bytes.now) }
    ensures fault { IfErr result IsNotOfInput }
    ensures writes { Some (K.faults out.new) ≡ writes_failed result (K.faults out.old) }
    ensures full { IsErrOf result LinesFault.WriteFault
        → IsFull (K.faults out.new) (K.written out.new) }
{
    put(out, bytes)?;
    Ok(())
}
