// What can be measured, by the names of LevelDB's db_bench if it has one.

#[derive(Clone, Copy)]
pub enum Workload {
    /// N entries with rising keys.
    FillSeq,
    /// N entries with drawn keys.
    FillRandom,
    /// The same into a database that has such keys.
    Overwrite,
    /// 1,000 writes with drawn keys, each synced.
    FillSync,
    /// N entries with rising keys, 1,000 a batch.
    FillBatch,
    /// N gets of drawn keys.
    ReadRandom,
    /// N gets of drawn keys without their last digit, which aren't there.
    ReadMissing,
    /// N gets of drawn keys with another last byte, which aren't there.
    ReadNear,
    /// N gets of drawn keys among the lowest hundredth.
    ReadHot,
    /// All entries forwards.
    ReadSeq,
    /// All entries backwards.
    ReadReverse,
    /// N / 10 new iterators, each with a seek to a drawn key and ten steps.
    SeekRandom,
    /// N writes of drawn keys, each with a get of its key at a snapshot from before.
    SnapshotReads,
    /// N deletes of drawn keys.
    DeleteRandom,
    /// Work until there is none.
    Settle,
    /// An open, and a close.
    Open,
}

/// Lists each workload with its name, in an order in which they can run on one folder.
pub const WORKLOADS: [(&str, Workload); 16] = [
    ("fillseq", Workload::FillSeq),
    ("fillbatch", Workload::FillBatch),
    ("fillsync", Workload::FillSync),
    ("fillrandom", Workload::FillRandom),
    ("overwrite", Workload::Overwrite),
    ("snapshotreads", Workload::SnapshotReads),
    ("deleterandom", Workload::DeleteRandom),
    ("settle", Workload::Settle),
    ("readrandom", Workload::ReadRandom),
    ("readmissing", Workload::ReadMissing),
    ("readnear", Workload::ReadNear),
    ("readhot", Workload::ReadHot),
    ("readseq", Workload::ReadSeq),
    ("readreverse", Workload::ReadReverse),
    ("seekrandom", Workload::SeekRandom),
    ("open", Workload::Open),
];

/// Returns the workload of a name.
pub fn named(name: &str) -> Option<Workload> {
    for (word, workload) in &WORKLOADS {
        if *word == name {
            return Some(*workload);
        }
    }
    None
}
