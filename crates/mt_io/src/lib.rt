//! The outside as traits, objects in memory that stand for it, the lines of an input, gates for
//! tests of threads, and the adapters of the operating system.
#![tactic(auto)]

pub mod gates;
pub mod laws;
pub mod lines;
pub mod memory;
mod moves;
mod shelf;
pub mod sure;
pub mod system;
pub mod traits;
pub mod turn_gate;

pub use gates::{Gate, NoGate, Point};
pub use laws::{answers_are_the_lines, ends_are_exact};
pub use lines::{LineReader, Next};
pub use memory::{MemFeed, MemSink, MemSource};
pub use sure::{SureFeed, SureSink, SureSource};
pub use system::{FolderFeed, StdSink, StdSource};
pub use traits::{Failed, Feed, FeedFault, Sink, Source, put};
pub use turn_gate::{Hold, TurnGate};
