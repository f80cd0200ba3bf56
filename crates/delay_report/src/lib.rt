//! The bytes of the replies to lines and of the table of times.
#![tactic(auto)]

mod checks;
mod clocks;
mod journeys;
mod objects;
mod plans;
mod replies;
mod table;
mod watches;

pub use checks::{checked_text, claim_text};
pub use objects::{clock_value, date_value, event_word, seconds_on_day};
pub use plans::plans_text;
pub use replies::{Reply, object_text, reply_text};
pub use table::{times_header, times_rows};
pub use watches::{alert_text, watched_text};
