//! What a plan takes of the tables of a directory (LevelDB's db/version_set.cc,
//! `VersionSet::PickCompaction`), until its job is done.

ghost use Rattle.directory_writes.specs.internal.Planned.{PlannedLaw, ClosedPlanLaw, FlushedPlanLaw, PlannedApartLaw, OwnSequencesLaw};

/// Proves that each plan for a version of a directory takes tables that may be replaced by the
/// outputs of its job.
pub fn planned_law()
    ensures { PlannedLaw }
{}

/// Proves that the inputs of a plan for a level bring no further table along.
pub fn closed_plan_law()
    ensures { ClosedPlanLaw }
{}

/// Proves that a flush while a job is under way leaves its inputs such tables.
pub fn flushed_plan_law()
    ensures { FlushedPlanLaw }
{}

/// Proves that what lies beside the inputs of a plan is newer, or the job knows of its keys.
pub fn planned_apart_law()
    ensures { PlannedApartLaw }
{}

/// Proves that no two entries that a job merges share key and sequence number.
pub fn own_sequences_law()
    ensures { OwnSequencesLaw }
{}
