//! Worked examples of chains of causes and of boards: what their definitions say of the timetable of
//! two trains of `model_examples`, where the train 0 calls at A, B and C and the train 1 at B and D.
//! Each is the contract of a function that does nothing, computed by the prover.
#![tactic(auto)]

pub mod boards;
pub mod causes;
