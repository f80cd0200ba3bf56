//! A journal that is read again: its header is compared, and its messages are taken one after the
//! other, however its bytes are cut into pieces.
#![tactic(auto)]

mod laws;
mod lines;
mod reader;
mod refusal;
mod replaying;
mod taking;

pub use laws::{
    beginnings_of_journals_are_read, journals_are_read_line_by_line, lines_are_those_of_messages,
    pieces_are_read_as_one,
};
pub use reader::JournalReader;
pub use refusal::JournalRefusal;
pub use replaying::{Replayed, replay};
pub use taking::TakeJournal;
