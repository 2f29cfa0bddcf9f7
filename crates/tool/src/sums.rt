// What a good directory has in all.

use recover::{Report, Summary};

/// How many tables, entries of tables, logs and batches a good directory has.
#[derive(Clone, Copy, Debug, PartialEq, Eq)]
pub struct Sums {
    /// Whether a check found a good directory.
    pub is_good: bool,
    pub tables: usize,
    pub entries: u64,
    pub logs: usize,
    pub batches: u64,
}

impl Sums {
    /// Returns those of a directory that isn't good.
    pub fn none() -> Self {
        Sums {
            is_good: false,
            tables: 0,
            entries: 0,
            logs: 0,
            batches: 0,
        }
    }

    /// Returns those of what a check found.
    pub fn of(report: &Report) -> Self {
        match report {
            Report::Empty => Sums::none(),
            Report::Good(summary) => Sums {
                is_good: true,
                tables: summary.tables.len(),
                entries: entries_in(summary),
                logs: summary.logs.len(),
                batches: batches_in(summary),
            },
        }
    }
}

fn entries_in(summary: &Summary) -> u64 {
    let mut entries = 0_u64;
    for table in &summary.tables {
        entries = entries.saturating_add(table.entries);
    }
    entries
}

fn batches_in(summary: &Summary) -> u64 {
    let mut batches = 0_u64;
    for log in &summary.logs {
        batches = batches.saturating_add(log.batches);
    }
    batches
}
