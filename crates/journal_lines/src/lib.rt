//! The lines of a journal: its header, and one for each accepted message.
#![tactic(auto)]

mod heads;
mod laws;
mod messages;
mod values;

pub use heads::{Head, header_line};
pub use laws::{
    header_lines_have_no_other_line_end, message_lines_are_read_back,
    message_lines_have_no_other_line_end, worked_lines_are_as_they_stand,
};
pub use messages::append_line;
