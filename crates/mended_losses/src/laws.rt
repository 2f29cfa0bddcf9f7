//! Laws of mended files. A law is the contract of a function that does nothing.

ghost use Rattle.mended_losses.specs.Between.{BetweenLaw};
ghost use Rattle.mended_losses.specs.Consistent.{ConsistentLaw};
ghost use Rattle.mended_losses.specs.Laws.{MendedLogLaw, MendedLossLaw, MendedLossesLaw, PlainLossLaw};
ghost use Rattle.mended_losses.specs.Laws.{ZeroedLossLaw};

/// Proves that a power loss without zeros is one of those that may leave zeros.
pub fn plain_loss()
    ensures { PlainLossLaw }
{}

/// Proves that so is one that leaves zeros at the ends of files alone, and that `Ends::Zeros` is
/// enough there.
pub fn zeroed_loss()
    ensures { ZeroedLossLaw }
{}

/// Proves that a mended log reads as a prefix of what was held, with all that was synced.
pub fn mended_log()
    ensures { MendedLogLaw }
{}

/// Proves that mended files read as a power loss without zeros could have left them, at the same
/// moment. Its premises are those of `HoldsLogs` and `LeavesWritten`.
pub fn mended_loss()
    ensures { MendedLossLaw }
{}

/// Proves the same of a power loss at any moment.
pub fn mended_losses()
    ensures { MendedLossesLaw }
{}

/// Proves that files that read as a consistent directory are one of the same parts, so that what is
/// proved of such directories holds of mended files, too.
pub fn same_directory()
    ensures { ConsistentLaw }
{}

/// Proves that the premises of `mended_losses` hold between two calls of an open database, but for
/// `LeavesNoChance`. So mended files are the directory that a power loss without zeros could leave.
pub fn between_calls()
    ensures { BetweenLaw }
{}
