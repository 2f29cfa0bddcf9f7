//! Tests of the formats: the values, bytes and refusals that LevelDB's own documents and sources
//! have.
#![tactic(auto)]

#[cfg(test)]
mod batches;
#[cfg(test)]
mod blocks;
#[cfg(test)]
mod filters;
#[cfg(test)]
mod keys;
#[cfg(test)]
mod logs;
#[cfg(test)]
mod made_tables;
#[cfg(test)]
mod mended;
#[cfg(test)]
mod numbers;
#[cfg(test)]
mod own_orders;
#[cfg(test)]
mod version_edits;
