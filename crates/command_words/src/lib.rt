//! The words of the command line: from the words after the program's name to what they ask for.
#![tactic(auto)]

mod arguments;
mod command;
mod gen_words;
mod laws;
mod values;
mod words;

pub use gen_words::{AskedGen, default_options, is_gen, read_gen_words};
pub use laws::defaults_are_asked;
pub use words::{Asked, Command, WordsFault, read_words};
