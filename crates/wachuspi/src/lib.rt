//! The database for programs that aren't written in Rattle: what C calls (`include/wachuspi.h`).
//! Each export takes the handle's box out of the struct that C holds, makes one call of the crate
//! `c_calls`, and puts the box back.
#![tactic(auto)]

mod batch_slots;
mod batches;
mod crossing;
mod databases;
mod exports;
mod held;
mod slots;
