//! Tests of directories: what is read of them and checked in them, and what sessions answer and
//! leave there.
#![tactic(auto)]

#[cfg(test)]
mod check_reads;
#[cfg(test)]
mod checks;
#[cfg(test)]
mod edit_keys;
#[cfg(test)]
mod faults;
#[cfg(test)]
mod long_logs;
#[cfg(test)]
mod options;
#[cfg(test)]
mod orders;
#[cfg(test)]
mod origins;
#[cfg(test)]
mod pace;
#[cfg(test)]
mod ranges;
#[cfg(test)]
mod readings;
#[cfg(test)]
mod sessions;
#[cfg(test)]
mod watching;
