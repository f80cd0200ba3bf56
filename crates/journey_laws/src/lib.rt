//! When an answer is the best one: laws over the model alone, which searches and checks cite. A
//! certificate of an earliest arrival lists where a passenger can have arrived before it; a front
//! lists the journeys that are best for their number of rides.
#![tactic(auto)]

pub mod laws;
