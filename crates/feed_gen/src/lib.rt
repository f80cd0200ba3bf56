//! A feed and its input, made from a number of trains.
#![tactic(auto)]

pub mod feed;
pub mod laws;
mod lines;
pub mod source;
mod tables;
mod texts;
mod trains;

pub use feed::GenFeed;
pub use laws::{
    input_is_its_lines, input_is_short, queries_stand_between_flushes, tables_are_short,
};
pub use source::GenLines;
