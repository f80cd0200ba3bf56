//! The windows of `serve`: reading them, what is to be written for them, and the crew that answers
//! them, a publisher of messages and workers that answer queries beside it.
#![tactic(auto)]

mod answering;
mod clients;
mod crew;
mod joining;
mod laws;
mod posting;
mod reading;
mod served_laws;
mod setting;
mod window;
mod window_line;
mod window_run;
mod worker;

pub use clients::Client;
pub use crew::{Crew, CrewPlan};
pub use laws::windows_are_those_of_the_input;
pub use posting::OnBoard;
pub use reading::{WindowEnd, read_window};
pub use served_laws::{
    counts_do_not_fall_along_all_lines, first_messages_are_those_of_the_input,
    one_window_more_is_served, queries_are_resolved_by_the_names_of_the_feed,
    queries_show_the_count_of_their_state, replies_in_order_are_those_of_a_window,
    single_windows_are_answered_line_by_line,
};
pub use setting::Setting;
pub use window::{LINES_PER_WINDOW, NumberedLines, Window};
pub use window_line::{ClientQuery, WindowLine};
