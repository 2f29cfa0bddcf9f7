// Each workload over files in memory, one after the other on the same ones.

use crate::FAILED;
use crate::folder::report;
use crate::runner::run_over;
use crate::workload::WORKLOADS;
use engine::Options;
use std::alloc::AllocGlobal;
use store::MemStore;

const NUMBER: u64 = 2000;

/// Runs each workload, prints their lines, and answers the exit status.
pub fn run<R: Print + Eprint + AllocGlobal>(rt: &R) -> u8 {
    let Some(options) = options() else {
        return FAILED;
    };
    let mut store = MemStore::new(rt.alloc());
    for (name, workload) in &WORKLOADS {
        let (outcome, left) = run_over(rt.alloc(), store, options, *workload, NUMBER);
        store = left;
        let status = report(rt, name, NUMBER, outcome);
        if status != 0 {
            return status;
        }
    }
    0
}

// Sizes so small that memtables are written and levels are compacted.
fn options() -> Option<Options> {
    Options::new(65_536, 1024, 16_384, 2, 65_536, 16)
}
