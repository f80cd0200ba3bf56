//! A board: one publisher posts messages, and viewers look at the value without waiting for one
//! another. Every look shows the value after the first so many of the posted messages.
#![tactic(auto)]

pub mod board;
pub mod event;
pub mod history;
pub mod machine;
pub mod machine_laws;
pub mod meeting;
pub mod note;
pub mod operation;
pub mod published;
pub mod publisher;
pub mod publishing;
pub mod replay;
#[cfg(test)]
mod tests;
pub mod viewer;

pub use board::open_board;
pub use history::{History, NewHistory};
pub use meeting::Meet;
pub use note::Note;
pub use published::Opening;
pub use publisher::Publisher;
pub use replay::Replay;
pub use viewer::Viewer;
