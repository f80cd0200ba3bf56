//! A timetable with its names as a service: it answers lines, and writes the table of all times.
#![tactic(auto)]

mod answer;
mod answering;
mod asking;
mod fault;
mod following;
mod gathered;
mod laws;
mod lines;
mod output;
mod replies;
mod service;
mod table;
mod taking;
mod times;
mod writing;

pub use answering::{AnswerLines, InputLine};
pub use asking::AskTimetable;
pub use fault::LinesFault;
pub use following::{FollowMessages, Followed};
pub use laws::{lines_keep_names_in_step, outputs_differ_in_journeys_alone};
pub use output::answer_input;
pub use replies::{reply_to_asked, reply_to_found};
pub use service::InformationService;
pub use table::write_table;
pub use taking::{TakeMessages, take_wire};
pub use times::{WriteReplies, write_output};
pub use writing::write_bytes;
