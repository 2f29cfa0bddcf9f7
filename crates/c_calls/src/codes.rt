// The numbers that C sees.

ghost use Rattle.std.specs.Prelude.{◌≡◌, pos, Ok, Err, MatchResult};
ghost use Rattle.coding.specs.Errors.{number_of as number_in};
ghost use Rattle.c_calls.specs.Calls.{has_flag};
ghost use Rattle.c_calls.specs.Codes.{told, snapshot_in};
ghost use Rattle.c_calls.specs.Told.{ProgressTold, paced};

use coding::DbError;
use engine::{Pace, Progress};

/// No such key, or an iterator that stands nowhere.
pub const NOT_FOUND: i32 = -1;

/// An option, a mode or a path that is out of its range. No refusal has this number.
pub const MISUSED: i32 = 64;

/// No database is open behind the handle.
pub const CLOSED: i32 = 65;

/// Added to the number of a refusal of work after a batch that was written.
pub const WORK_REFUSED: i32 = 256;

/// Syncs the log before the call answers.
pub const SYNC: u32 = 1;

/// Does its share of the work.
pub const WORK: u32 = 2;

/// The number of a refusal.
pub fn number_of(error: DbError) -> i32
    ensures { result ≡ pos (number_in error) }
{
    i32::from(error.number())
}

/// 0 for what was done, and else the number of the refusal.
pub fn status(answer: Result<(), DbError>) -> i32
    ensures { result ≡ told answer }
{
    match answer {
        Ok(()) => 0,
        Err(error) => number_of(error),
    }
}

/// The id of a snapshot, where 0 is none.
pub fn snapshot_of(id: u64) -> Option<u64>
    ensures { result ≡ snapshot_in id }
{
    if id == 0 { None } else { Some(id) }
}

/// Whether flags have this one.
pub fn has(flags: u32, flag: u32) -> bool
    ensures { result ≡ has_flag flags flag }
{
    flags & flag != 0
}

/// 0 if work keeps up after a write, and else the number of the refusal: of the write, or of work.
pub fn pace_status(answer: Result<Pace, DbError>) -> i32
    ensures { result ≡ paced answer }
{
    match answer {
        Ok(Pace::KeepsUp) => 0,
        Ok(Pace::Refused(error)) => WORK_REFUSED + number_of(error),
        Err(error) => number_of(error),
    }
}

/// Tells whether there was nothing to do.
pub fn tell_progress(answer: Result<Progress, DbError>, idle: &mut u32) -> i32
    ensures { ProgressTold answer idle.new result }
{
    *idle = 0;
    match answer {
        Ok(Progress::Worked) => 0,
        Ok(Progress::Idle) => {
            *idle = 1;
            0
        }
        Err(error) => number_of(error),
    }
}
