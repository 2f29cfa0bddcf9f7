//! Names as a database's files have them (LevelDB's db/filename.cc).

use std::alloc::{AllocError, Global};

/// The file that names the MANIFEST.
pub const CURRENT: &str = "CURRENT";

/// The file whose lock is that of the folder.
pub const LOCK: &str = "LOCK";

// A number has at least so many digits in a name.
const DIGITS: usize = 6;

// The ending of a file's name that nothing is read from.
const TEMPORARY: &str = ".dbtmp";

/// Says whether a database's files have such names.
pub fn is_of_database(name: &str) -> bool {
    name == CURRENT || name == LOCK || number_in(name).is_some()
}

/// Returns the digits of the number in a name, if a database's files have such names.
pub fn number_in(name: &str) -> Option<&str> {
    let digits = match name.strip_prefix("MANIFEST-") {
        Some(digits) => digits,
        None => before_ending(name)?,
    };
    let is_number = digits.len() >= DIGITS && digits.bytes().all(|byte| byte.is_ascii_digit());
    if is_number { Some(digits) } else { None }
}

// What stands before the ending of a log, a table or a temporary file.
fn before_ending(name: &str) -> Option<&str> {
    let (digits, ending) = name.rsplit_once('.')?;
    match ending {
        "log" | "ldb" | "sst" | "dbtmp" => Some(digits),
        _ => None,
    }
}

/// Returns the number in a name, if it is one of 64 bits.
pub fn number_of(name: &str) -> Option<u64> {
    number_in(name)?.parse().ok()
}

/// Says whether a name is that of a temporary file.
pub fn is_temporary(name: &str) -> bool {
    name.ends_with(TEMPORARY)
}

/// Returns the name of the temporary file that has this number.
pub fn temporary(alloc: Global, digits: &str) -> Result<String, AllocError> {
    let mut name = String::from_str(alloc, digits)?;
    name.push_str(TEMPORARY)?;
    Ok(name)
}
