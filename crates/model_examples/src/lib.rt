//! Worked examples: what the definitions of the model say of a small timetable, computed by the
//! prover. Each is the contract of a function that does nothing, so that a change of a definition
//! by which an example no longer holds is refused. The timetable is that of `specs/TwoTrains.antt`:
//! the train 0 calls at A, B and C, the train 1 at B and D.
#![tactic(auto)]

pub mod certificates;
pub mod changes;
pub mod corrections;
pub mod feed;
pub mod holds;
pub mod journeys;
pub mod overrides;
pub mod refusals;
pub mod reports;
pub mod shapes;
pub mod validity;
pub mod windows;
