//! Laws of whole journals: what is read is the journal of messages and nothing else, and what
//! `journal` writes is read again.
#![tactic(auto)]

mod laws;

pub use laws::{
    headers_with_short_zones_are_short, journal_messages_are_accepted_in_turn,
    journals_have_the_accepted_messages, lines_of_inputs_are_input_lines, messages_are_counted,
    read_messages_can_be_written, what_is_read_is_a_journal, what_journal_writes_is_read_again,
};
