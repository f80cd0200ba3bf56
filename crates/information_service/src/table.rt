//! The table of all times.

ghost use Rattle.std.specs.Prelude.{◌≡◌, Some, OnOk, IfErr, IsErrOf};
ghost use Rattle.std.specs.Io.KnownBytes.{Appends};
ghost use Rattle.delay_report.specs.Table.{table};
ghost use Rattle.mt_io.specs.Causes.{IsFull};
ghost use Rattle.information_service.specs.Causes.{IsNotOfInput, writes_failed};
ghost use Rattle.information_service.specs.Fronts.{AppendsFront};

use crate::fault::LinesFault;
use crate::gathered::{GATHERED, gather, write_gathered};
use delay_report::{times_header, times_rows};
use mt_base::numbers::TrainNo;
use mt_io::Sink;
use schedule_build::Directory;
use std::alloc::Global;
use timetable::Timetable;

/// Writes the table of all times of a timetable, whose names these are: its header, and the rows of
/// each train in the order of their numbers. It fails with `WriteFault` where the output failed, or
/// with `OutOfMemory`; then a part of the table may be written.
pub fn write_table<K: Sink>(
    alloc: Global,
    timetable: &Timetable,
    directory: &Directory,
    out: &mut K,
) -> Result<(), LinesFault>
    ensures ok { OnOk result (Appends (K.written out.old) (K.written out.new)
        (table timetable.now.network directory.now timetable.now.state)) }
    ensures front { IfErr result (λ f. AppendsFront (f ≡ LinesFault.WriteFault)
        (K.written out.old) (K.written out.new)
        (table timetable.now.network directory.now timetable.now.state)) }
    ensures fault { IfErr result IsNotOfInput }
    ensures writes { Some (K.faults out.new) ≡ writes_failed result (K.faults out.old) }
    ensures full { IsErrOf result LinesFault.WriteFault
        → IsFull (K.faults out.new) (K.written out.new) }
{
    let mut gathered = Vec::with_capacity(alloc, GATHERED)?;
    gather(times_header(), &mut gathered, out)?;
    for train in 0..timetable.graph().trains().count() {
        let rows = times_rows(alloc, timetable, directory, TrainNo::new(train))?;
        gather(rows.as_slice(), &mut gathered, out)?;
    }
    write_gathered(&mut gathered, out)
}
