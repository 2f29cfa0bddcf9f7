//! What calls of the store do to the meaning of a directory.

ghost use Rattle.recover.specs.internal.Laws.{AppendLaw, FailedAppendLaw, FreeChangeLaw, ReopenLaw, NewLogLaw, EmptyLaw, NumberLaw, AppendableLaw, OneManifestLaw, OneDirectoryLaw};
ghost use Rattle.recover.specs.internal.Changes.{ExtendLaw, FailedExtendLaw, BeginLogLaw, EditLaw, FailedEditLaw, SameManifestLaw, FlushLaw, CompactionLaw, ClosedLaw, UnreadLaw, DistinctLaw, BeyondLaw, RecoveredLaw};

/// Proves that a record for the next batch at the end of the last log adds the batch's entries.
pub fn append_law()
    ensures { AppendLaw }
{}

/// Proves that a beginning of such a record adds nothing, or all of its entries.
pub fn failed_append_law()
    ensures { FailedAppendLaw }
{}

/// Proves that files that the meaning doesn't read may change.
pub fn free_change_law()
    ensures { FreeChangeLaw }
{}

/// Proves that a MANIFEST whose one edit is that of an open means the same.
pub fn reopen_law()
    ensures { ReopenLaw }
{}

/// Proves that a new log after the others means the same.
pub fn new_log_law()
    ensures { NewLogLaw }
{}

/// Proves that a store without files means the empty map.
pub fn empty_law()
    ensures { EmptyLaw }
{}

/// Proves that a change that keeps the names of files and the MANIFEST keeps the number that the
/// next open draws.
pub fn number_law()
    ensures { NumberLaw }
{}

/// Proves that what can be appended to is a directory.
pub fn appendable_law()
    ensures { AppendableLaw }
{}

/// Proves that one MANIFEST at most is current, and it says one thing.
pub fn one_manifest()
    ensures { OneManifestLaw }
{}

/// Proves that a consistent directory means one thing.
pub fn one_directory()
    ensures { OneDirectoryLaw }
{}

/// Proves that a record for the next batch at the end of the last log adds the batch's entries
/// there, and changes no other part.
pub fn extend_law()
    ensures { ExtendLaw }
{}

/// Proves that a beginning of such a record changes no part but the last log. It adds nothing to
/// that, or all of the batch's entries.
pub fn failed_extend_law()
    ensures { FailedExtendLaw }
{}

/// Proves that a new log after the others changes no other part.
pub fn begin_log_law()
    ensures { BeginLogLaw }
{}

/// Proves that a record for an edit at the end of the MANIFEST adds the edit.
pub fn edit_law()
    ensures { EditLaw }
{}

/// Proves that a beginning of such a record adds nothing, or all of the edit.
pub fn failed_edit_law()
    ensures { FailedEditLaw }
{}

/// Proves that a MANIFEST that says the same means the same.
pub fn same_manifest_law()
    ensures { SameManifestLaw }
{}

/// Proves that a table of level 0, instead of what was logged before the current log, means the
/// same.
pub fn flush_law()
    ensures { FlushLaw }
{}

/// Proves that outputs instead of inputs leave a consistent directory, with the outputs' entries
/// instead of the inputs'.
pub fn compaction_law()
    ensures { CompactionLaw }
{}

/// Proves that inputs of two levels that share no user key with what stays beside them may be
/// replaced.
pub fn closed_law()
    ensures { ClosedLaw }
{}

/// Proves that a file that the meaning doesn't read may be written or removed.
pub fn unread_law()
    ensures { UnreadLaw }
{}

/// Proves that no two entries of a consistent directory share a key and a sequence number, so that
/// of each key one is the newest.
pub fn distinct_law()
    ensures { DistinctLaw }
{}

/// Proves that a MANIFEST that passes a limit of reading, and is one all the same, passes that of
/// the numbers of tables.
pub fn beyond_law()
    ensures { BeyondLaw }
{}

/// Proves that what was read of a consistent directory, without its tables, is that of its parts.
pub fn recovered_law()
    ensures { RecoveredLaw }
{}
