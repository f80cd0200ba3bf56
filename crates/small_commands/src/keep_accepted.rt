//! A command that keeps the lines whose messages are accepted, each behind a mark that it loads.

ghost use Rattle.std.specs.Prelude.{◌≡◌, IfOk, option_map};
ghost use Rattle.information_service.specs.Answering.{given_line};
ghost use Rattle.small_commands.specs.SmallCommands.{mark_of, text_of_line};

use command_words::Asked;
use commands::{LoadBehind, LoadFault};
use information_service::{AnswerLines, InformationService, InputLine, LinesFault};
use mt_base::memory::OutOfMemory;
use mt_io::Sink;
use std::alloc::Global;

/// Writes a header, and behind it the lines whose messages are accepted, each behind a mark.
pub struct KeepAccepted;

/// The mark, the line and its end, if the line is not long.
fn line_text(alloc: Global, mark: u8, line: &InputLine<'_>) -> Result<Vec<u8>, OutOfMemory>
    ensures { IfOk result (λ text. text.items ≡ text_of_line mark (given_line line.now)) }
{
    let mut text = Vec::new(alloc);
    if let InputLine::Short(bytes) = line {
        text.push(mark)?;
        text.extend_from_slice(bytes)?;
        text.push(b'\n')?;
    }
    Ok(text)
}

impl AnswerLines<u8> for KeepAccepted {
    ghost use Rattle.small_commands.specs.SmallCommands.{accepted_output};

    ghost output = { accepted_output };

    fn begin(
        alloc: Global,
        _service: &InformationService,
        _mark: &u8,
    ) -> Result<Vec<u8>, OutOfMemory> {
        Vec::from_slice(alloc, b"accepted\n")
    }

    fn answer(
        alloc: Global,
        service: &mut InformationService,
        mark: &mut u8,
        number: u64,
        line: &InputLine<'_>,
    ) -> Result<Vec<u8>, OutOfMemory> {
        let before = service.count();
        service.answer(alloc, number, line)?;
        if service.count() == before {
            return Ok(Vec::new(alloc));
        }
        line_text(alloc, *mark, line)
    }

    fn end<K: Sink>(
        _alloc: Global,
        _service: &InformationService,
        _mark: &u8,
        _out: &mut K,
    ) -> Result<(), LinesFault> {
        Ok(())
    }

    fn networks_are_written_alike() {}
}

/// Takes the mark of `mark.txt`.
pub struct TakeMark;

/// The mark of a table: its only byte, if that is no line end; a plus where there is no table.
fn mark_of(table: Option<Vec<u8>>) -> Option<u8>
    ensures { result ≡ mark_of (option_map (λ bytes. bytes.items) table) }
{
    let Some(bytes) = table else {
        return Some(b'+');
    };
    match bytes.as_slice() {
        [mark] if *mark != b'\n' => Some(*mark),
        _ => None,
    }
}

impl LoadBehind<u8> for TakeMark {
    ghost use Rattle.small_commands.specs.SmallCommands.{mark_behind};

    ghost behind = { mark_behind };

    fn table() -> Option<&'static str> {
        Some("mark.txt")
    }

    fn load(
        alloc: Global,
        _asked: &Asked<'_>,
        table: Option<Vec<u8>>,
        _service: &mut InformationService,
    ) -> Result<u8, LoadFault> {
        match mark_of(table) {
            Some(mark) => Ok(mark),
            None => Err(LoadFault::Refused(Vec::from_slice(alloc, b"traind: no mark\n")?)),
        }
    }

    fn networks_are_begun_alike() {}
}
