//! A command that says how many messages were accepted.

ghost use Rattle.std.specs.Prelude.{◌≡◌, ◌++◌, IfOk, codes, decimal};

use delay_report::reply_text;
use information_service::{AnswerLines, InformationService, InputLine, LinesFault, write_bytes};
use mt_base::memory::OutOfMemory;
use mt_io::Sink;
use std::alloc::Global;

/// Replies to each line, and writes the number of accepted messages behind the last.
pub struct CountAccepted;

/// The number, and the end of its line.
fn count_text(alloc: Global, count: u64) -> Result<Vec<u8>, OutOfMemory>
    ensures { IfOk result (λ text. text.items ≡ decimal count ++ codes "\n") }
{
    Ok(format!(in alloc; "{count}\n")?.into_bytes())
}

impl AnswerLines<()> for CountAccepted {
    ghost use Rattle.small_commands.specs.SmallCommands.{counted_output};

    ghost output = { counted_output };

    fn begin(
        alloc: Global,
        _service: &InformationService,
        _kept: &(),
    ) -> Result<Vec<u8>, OutOfMemory> {
        Ok(Vec::new(alloc))
    }

    fn answer(
        alloc: Global,
        service: &mut InformationService,
        _kept: &mut (),
        number: u64,
        line: &InputLine<'_>,
    ) -> Result<Vec<u8>, OutOfMemory> {
        let reply = service.answer(alloc, number, line)?;
        reply_text(alloc, &reply, service.directory())
    }

    fn end<K: Sink>(
        alloc: Global,
        service: &InformationService,
        _kept: &(),
        out: &mut K,
    ) -> Result<(), LinesFault> {
        let text = count_text(alloc, service.count())?;
        write_bytes(text.as_slice(), out)
    }

    fn networks_are_written_alike() {}
}
