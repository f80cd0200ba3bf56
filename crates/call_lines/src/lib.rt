//! The calls of all trains in one arena, linked along their trains.
#![tactic(auto)]

pub mod calls;
pub mod events;
pub mod line;
pub mod optional_time;
pub mod parts;
pub mod stored_call;

pub use calls::TableCall;
pub use events::TrainEvents;
pub use parts::Part;
pub use stored_call::StoredCall;
