//! What `journal` writes: the header of a journal, and the line of each message that is accepted.
#![tactic(auto)]

mod header;
mod lines;

pub use header::HeaderText;
pub use lines::JournalLines;
