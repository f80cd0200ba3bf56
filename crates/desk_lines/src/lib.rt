//! What a line says to `desk`: what it says to every command, or a question about departures or about
//! the time of an event.
#![tactic(auto)]

mod asked;
mod laws;
mod lines;
mod resolved;

pub use asked::{WireDepartures, WireEvent};
pub use laws::lines_are_the_same_to_desk;
pub use lines::{DeskLine, read_desk_line};
pub use resolved::{AskedDepartures, resolve_departures};
