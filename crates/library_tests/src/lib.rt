//! Tests of what no clause of the libraries says: that calls find memory and succeed, and what
//! copies hold. The tests of several libraries stand in one crate, since a crate with tests is
//! proved twice.
#![tactic(auto)]

#[cfg(test)]
mod files;
#[cfg(test)]
mod gates;
#[cfg(test)]
mod made_feed;
#[cfg(test)]
mod objects;
#[cfg(test)]
mod plain_program;
#[cfg(test)]
mod slots;
#[cfg(test)]
mod streams;
#[cfg(test)]
mod trains;
