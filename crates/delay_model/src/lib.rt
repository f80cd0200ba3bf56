//! The definitions of the model: what every shown time and journey means, with laws, and a plain
//! slow program that lists the edges and the event times of a state.
#![tactic(auto)]

pub mod changes;
pub mod edges;
pub mod evaluate;
pub mod events;
pub mod laws;
pub mod message_laws;
pub mod messages;
pub mod network;
pub mod overrides;
pub mod state;
pub mod window_laws;
