//! Tests of stores, tables, memtables, cursors, versions, caches and compactions.
#![tactic(auto)]

#[cfg(test)]
mod building;
#[cfg(test)]
mod caches;
#[cfg(test)]
mod choices;
#[cfg(test)]
mod compactions;
#[cfg(test)]
mod cursors;
#[cfg(test)]
mod directories;
#[cfg(test)]
mod drawn_moves;
#[cfg(test)]
mod entries;
#[cfg(test)]
mod files;
#[cfg(test)]
mod folders;
#[cfg(test)]
mod generations;
#[cfg(test)]
mod gets;
#[cfg(test)]
mod inputs;
#[cfg(test)]
mod job_steps;
#[cfg(test)]
mod layouts;
#[cfg(test)]
mod memory_cursors;
#[cfg(test)]
mod memory_tables;
#[cfg(test)]
mod misplaced;
#[cfg(test)]
mod reading;
#[cfg(test)]
mod row_cursors;
#[cfg(test)]
mod search_laws;
#[cfg(test)]
mod sizes;
#[cfg(test)]
mod stores;
#[cfg(test)]
mod table_cursors;
#[cfg(test)]
mod version_sets;
#[cfg(test)]
mod walks;
#[cfg(test)]
mod written;
