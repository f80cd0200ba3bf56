//! The program as a call: its commands, each over any feed, input and outputs.
#![tactic(auto)]

mod beginning;
mod feed;
mod following;
mod generated;
mod loading;
mod own_loads;
mod refusal;
mod run;
mod status;
mod telling;

pub use feed::{LoadedTimetable, load_timetable};
pub use loading::{LoadBehind, LoadFault, LoadNothing};
pub use own_loads::{LoadHeader, LoadJournal, LoadPlans, LoadWatch};
pub use run::{run_lines, run_times, traind, traind_within};
pub use status::Status;
