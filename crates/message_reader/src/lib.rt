//! From the bytes of an input line to what it says, or to its first fault, and from its names to
//! numbers.
#![tactic(auto)]

mod bad_line;
mod calls;
mod check_lines;
mod claim_reached;
mod claim_rides;
mod claim_times;
mod claims;
mod connections;
mod events;
mod fields;
mod flat;
mod kinds;
mod laws;
mod line_room;
mod lines;
mod members;
mod numbers;
mod queries;
mod resolve_claims;
mod resolve_error;
mod resolve_messages;
mod resolve_queries;
mod routes;
mod wire;

pub use bad_line::{BadLine, LineError};
pub use check_lines::{CheckLine, read_check_line};
pub use claims::{Claim, ClaimRide};
pub use fields::{departure, label_at, number_at, text_at};
pub use laws::{
    claim_times_are_read_back, claims_are_no_other_lines, claims_are_read_back,
    dates_are_read_back, lines_are_the_same_to_check, messages_are_read_back,
    queries_are_read_back, queries_are_resolved, times_are_read_back,
};
pub use line_room::LineRoom;
pub use lines::{read_line, read_value, said};
pub use numbers::{node, time_on};
pub use queries::wire_time;
pub use resolve_claims::resolve_claim;
pub use resolve_error::ResolveError;
pub use resolve_messages::resolve;
pub use resolve_queries::{AskedQuery, resolve_query, stop_or_station};
pub use wire::{Connect, Line, Wire, WireCall, WireQuery, WireRef, WireTime};
