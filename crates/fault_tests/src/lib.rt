//! Tests of a database whose store fails, crashes or finds no memory, at each of its calls and each
//! of its allocations in turn.
#![tactic(auto)]

#[cfg(test)]
mod devices;
#[cfg(test)]
mod endings;
#[cfg(test)]
mod lines;
#[cfg(test)]
mod memories;
#[cfg(test)]
mod model;
#[cfg(test)]
mod rows;
#[cfg(test)]
mod runs;
#[cfg(test)]
mod scripts;
#[cfg(test)]
mod stops;
#[cfg(test)]
mod watched;
