//! A whole journal that is read again.

ghost use Rattle.std.specs.Prelude.{◌<◌, ◌+◌, ◌^◌, length};
ghost use Rattle.mt_base.specs.Civil.{IsCivil};
ghost use Rattle.journal_lines.specs.Lines.{text_of_head};
ghost use Rattle.journal_replay.specs.Replayed.{IsReplayed};

use crate::reader::JournalReader;
use crate::refusal::JournalRefusal;
use information_service::InformationService;
use journal_lines::Head;
use std::alloc::Global;

/// What was read of a journal.
#[derive(Clone, Copy, Debug, PartialEq, Eq)]
pub struct Replayed {
    /// How many messages the journal has.
    pub count: u64,

    /// Whether bytes stand behind its last whole line. They are passed over.
    pub torn: bool,
}

/// Reads a journal with this header, and gives its messages to a service. It fails with `Line` at
/// the first line that is too long, whether it is whole or not, or, behind the header, is not the
/// line of a message that is accepted there, and with `Header` where the first whole line is not
/// too long and is not the header, or there is no whole line and no line is too long; the service
/// takes the messages before that line. It fails with `OutOfMemory` where there is no memory; then
/// the service takes the messages of a beginning of the bytes.
pub fn replay(
    alloc: Global,
    head: &Head,
    bytes: &[u8],
    service: &mut InformationService,
) -> Result<Replayed, JournalRefusal>
    requires head { IsCivil head.now.first }
    requires room { service.old.count + length bytes.now < 2 ^ 64 }
    ensures { IsReplayed (text_of_head head.now) service.old bytes.now service.new result }
{
    let mut reader = JournalReader::build(alloc, head)?;
    let count = reader.feed::<InformationService, ()>(alloc, &(), service, bytes)?;
    if reader.lines() == 0 {
        return Err(JournalRefusal::Header);
    }
    Ok(Replayed {
        count,
        torn: reader.is_torn(),
    })
}
