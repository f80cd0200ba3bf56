//! What a feed and an input that are made from a number of trains are to those who read them.
#![tactic(auto)]

pub mod lines;
pub mod tables;

pub use lines::made_lines_are_read;
pub use tables::made_tables_hold_a_timetable;
