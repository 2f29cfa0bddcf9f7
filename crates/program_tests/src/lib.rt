//! Tests of the program and of what it is made of: scripts as text, what is read without changing
//! anything, and what it answers to words.
#![tactic(auto)]

#[cfg(test)]
mod browsing;
#[cfg(test)]
mod looking;
#[cfg(test)]
mod programs;
#[cfg(test)]
mod scripts;
