//! From a feed to the trains of the loaded service days and their names.
#![tactic(auto)]

pub mod load;

pub use load::{Loaded, load_feed};
