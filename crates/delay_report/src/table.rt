//! The table of times.

ghost use Rattle.std.specs.Prelude.{◌≡◌, ◌+◌, ◌<◌, [], ◌∷◌, ◌++◌, Some, All, IfOk, OnOk};
ghost use Rattle.mt_base.specs.Order.{node_of};
ghost use Rattle.delay_model.specs.Events.{event_named};
ghost use Rattle.delay_model.specs.Timing.{event_time};
ghost use Rattle.csv.specs.Writing.{default_writer, writer_setup, fields_written, next_sep, field_text, end_text};
ghost use Rattle.edge_rules.specs.Inside.{HasOwnLabels};
ghost use Rattle.delay_report.specs.Clocks.{clock};
ghost use Rattle.delay_report.specs.Table.{row, header, fields, rows_of_events, rows_of_train};
ghost use Rattle.delay_report.specs.Written.{bytes_of, IsBetweenRows};

use crate::clocks::write_clock;
use crate::objects::{date_of_train, event_word, seconds_on_day};
use csv::{Writer, WriterBuilder};
use delay_model::state::Event;
use itoa::Buffer;
use mt_base::memory::OutOfMemory;
use mt_base::numbers::{Time, TrainNo};
use schedule_build::Directory;
use std::alloc::{AllocError, Global};
use std::marker::Brand;
use std::sync::ledger::{Blank, Ledger};
use timetable::Timetable;
use train_nodes::Steps;

/// The header of the table of times.
#[tactic(auto, unfolding(crate::specs::Table::header))]
pub fn times_header() -> &'static [u8]
    ensures { result.now ≡ header }
{
    b"trip,date,call,stop,event,scheduled,time\n"
}

/// The rows so far, and the text of the clock that was shown last.
#[derive(Drop)]
struct RowWriter {
    writer: Writer<Vec<u8>>,
    clock: Vec<u8>,
}

impl RowWriter {
    fn new(alloc: Global) -> RowWriter
        ensures between { IsBetweenRows result.writer }
        ensures empty { bytes_of result.writer ≡ [] }
    {
        RowWriter {
            writer: WriterBuilder::new().from_writer(Vec::new(alloc)),
            clock: Vec::new(alloc),
        }
    }

    /// The rows.
    fn finish(self) -> Result<Vec<u8>, OutOfMemory>
        ensures { IfOk result (λ b. b.items ≡ bytes_of self.writer) }
    {
        let RowWriter { writer, clock: _ } = self;
        match writer.into_inner() {
            Ok(bytes) => Ok(bytes),
            Err(_) => Err(AllocError),
        }
    }

    /// Writes the next field of a row.
    fn push(&mut self, field: &[u8]) -> Result<(), OutOfMemory>
        requires setup { writer_setup self.old.writer ≡ default_writer }
        requires few { fields_written self.old.writer < 7 }
        ensures setup { OnOk result (writer_setup self.new.writer ≡ default_writer) }
        ensures count { OnOk result (fields_written self.new.writer
            ≡ fields_written self.old.writer + 1) }
        ensures bytes { OnOk result (bytes_of self.new.writer ≡ bytes_of self.old.writer
            ++ (next_sep default_writer (fields_written self.old.writer)
            ++ field_text default_writer field.now)) }
    {
        match self.writer.write_field(field) {
            Ok(()) => Ok(()),
            Err(_) => Err(AllocError),
        }
    }

    /// Writes the next field of a row, which is a time of so many seconds.
    fn push_clock(&mut self, seconds: u32) -> Result<(), OutOfMemory>
        requires setup { writer_setup self.old.writer ≡ default_writer }
        requires few { fields_written self.old.writer < 7 }
        ensures setup { OnOk result (writer_setup self.new.writer ≡ default_writer) }
        ensures count { OnOk result (fields_written self.new.writer
            ≡ fields_written self.old.writer + 1) }
        ensures bytes { OnOk result (bytes_of self.new.writer ≡ bytes_of self.old.writer
            ++ (next_sep default_writer (fields_written self.old.writer)
            ++ field_text default_writer (clock seconds))) }
    {
        write_clock(&mut self.clock, seconds)?;
        match self.writer.write_field(&self.clock) {
            Ok(()) => Ok(()),
            Err(_) => Err(AllocError),
        }
    }

    /// Ends a row.
    fn end(&mut self) -> Result<(), OutOfMemory>
        requires setup { writer_setup self.old.writer ≡ default_writer }
        requires full { fields_written self.old.writer ≡ 7 }
        ensures between { OnOk result (IsBetweenRows self.new.writer) }
        ensures bytes { OnOk result (bytes_of self.new.writer ≡ bytes_of self.old.writer
            ++ end_text default_writer.terminator) }
    {
        match self.writer.end_record() {
            Ok(()) => Ok(()),
            Err(_) => Err(AllocError),
        }
    }
}

/// Writes the row of an event that takes place at a time.
fn push_event(
    out: &mut RowWriter,
    dir: &Directory,
    event: &Event,
    time: Time,
) -> Result<(), OutOfMemory>
    requires between { IsBetweenRows out.old.writer }
    ensures between { OnOk result (IsBetweenRows out.new.writer) }
    ensures row { OnOk result (bytes_of out.new.writer ≡ bytes_of out.old.writer
        ++ row (fields dir.now (λ _. time) event.now)) }
{
    let key = &event.key;
    out.push(dir.trip_name(key.train).as_bytes())?;
    out.push(&date_of_train(dir, key.train))?;
    out.push(Buffer::new().format(key.label.get()).as_bytes())?;
    out.push(dir.stop_name(event.stop).as_bytes())?;
    out.push(event_word(key.dep).as_bytes())?;
    out.push_clock(seconds_on_day(dir, key.train, key.time))?;
    out.push_clock(seconds_on_day(dir, key.train, time))?;
    out.end()
}

/// Writes the row of an event of the timetable, if it is live.
fn push_live<L: Ledger>(
    out: &mut RowWriter,
    t: &Timetable,
    dir: &Directory,
    event: &Event,
    steps: &mut Steps<L>,
) -> Result<(), OutOfMemory>
    requires labels { All HasOwnLabels t.now.state.trains }
    requires there { event_named t.now.state (node_of event.now.key) ≡ Some event.now }
    requires between { IsBetweenRows out.old.writer }
    ensures between { OnOk result (IsBetweenRows out.new.writer) }
    ensures rows { OnOk result (bytes_of out.new.writer ≡ bytes_of out.old.writer
        ++ rows_of_events dir.now (event_time t.now.network t.now.state) (event.now ∷ [])) }
{
    match t.time(event.key.node(), steps) {
        Some(time) => push_event(out, dir, event, time),
        None => Ok(()),
    }
}

/// Writes the rows of a train.
fn push_train<L: Ledger>(
    out: &mut RowWriter,
    t: &Timetable,
    dir: &Directory,
    train: TrainNo,
    blank: Blank,
) -> Result<(), OutOfMemory>
    requires name { blank.name ≡ L.name }
    requires parts { blank.parts ≡ L.parts }
    requires some { 0 < blank.parts }
    requires between { IsBetweenRows out.old.writer }
    ensures { OnOk result (bytes_of out.new.writer ≡ bytes_of out.old.writer
        ++ rows_of_train dir.now t.now.network t.now.state train) }
{
    let mut steps = Steps::<L>::open(blank);
    for event in t.graph().trains().events(train) {
        push_live(out, t, dir, &event, &mut steps)?;
    }
    Ok(())
}

/// The rows of a train in the table of times: one for each live event, in the train's order. None
/// where there is no such train. `OutOfMemory` where there is no memory.
pub fn times_rows(
    alloc: Global,
    t: &Timetable,
    dir: &Directory,
    train: TrainNo,
) -> Result<Vec<u8>, OutOfMemory>
    ensures { IfOk result (λ b. b.items ≡ rows_of_train dir.now t.now.network t.now.state train) }
{
    let mut out = RowWriter::new(alloc);
    push_train::<Brand>(&mut out, t, dir, train, Blank::new(1))?;
    out.finish()
}
