//! Zone texts, and the bases of service days in a zone.
#![tactic(auto)]

pub mod changes;
pub mod faults;
pub mod laws;
mod parts;
mod texts;
pub mod zone;

pub use changes::{Change, SummerTime};
pub use faults::BaseFault;
pub use laws::{
    days_are_equal_without_summer_time, no_base_is_before_the_first, the_last_change_decides,
};
pub use zone::Zone;
