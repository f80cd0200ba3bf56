//! From the tables of a feed to the trains of the loaded service days.
#![tactic(auto)]

mod buckets;
pub mod dates;
pub mod directory;
mod directory_of;
pub mod extra_name;
mod extra_trains;
pub mod faults;
mod groups;
pub mod in_step;
mod name_hash;
mod name_list;
mod name_numbers;
mod places;
mod run_names;
mod running;
pub mod runs;
pub mod schedule;
pub mod service_day;
pub mod services;
mod train_names;
pub mod trip_calls;
pub mod valid;

pub use dates::date_after;
pub use directory::Directory;
pub use extra_name::ExtraName;
pub use faults::ExpandFault;
pub use in_step::messages_keep_names_in_step;
pub use schedule::expand;
pub use service_day::{ServiceDay, days_have_the_bases_that_are_given};
pub use services::active;
pub use valid::schedules_are_valid;
