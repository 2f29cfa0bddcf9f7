//! The names of files (LevelDB's db/filename.cc).

ghost use Rattle.std.specs.Prelude.{◌≡◌, ◌<◌, ◌≤◌, ◌^◌, ◌++◌, ℕ, List, length, take, slice_index, IfSome, IfNone, IfOk, MatchOption, string_bytes};
ghost use Rattle.std.specs.Char.{digit_value};
ghost use Rattle.std.specs.Str.Parse.{AllDigits, digits_value};
ghost use Rattle.edits.specs.Names.{name_of, padded, IsFileName, IsNumbered, IsEnding};
ghost use Rattle.edits.specs.declared.names.FileName.{FileName as FileNameValue};

use std::alloc::{AllocError, Global};

/// Tells what a file is, and its number if its name has one (LevelDB's db/filename.h, `FileType`).
/// Numbers are from 1 on.
#[derive(Clone, Copy, Debug, PartialEq, Eq)]
pub enum FileName {
    /// `CURRENT`, which names the MANIFEST.
    Current,
    /// `LOCK`
    Lock,
    /// As `000005.log`.
    Log(u64),
    /// As `000007.ldb`.
    Table(u64),
    /// As `000007.sst`, a table under the name that older writers gave it.
    OldTable(u64),
    /// As `MANIFEST-000004`.
    Manifest(u64),
    /// As `000004.dbtmp`.
    Temporary(u64),
}

// Names have at least this many digits, with zeros in front.
const DIGITS: usize = 6;

/// Returns what a name says of its file (LevelDB's db/filename.cc, `ParseFileName`), or `None` if
/// it has no known shape. Numbers are read as they are written: in decimal, from 1 to 2^64 - 1,
/// with six digits, or with more and no zero in front.
pub fn parse_name(name: &[u8]) -> Option<FileName>
    ensures found { IfSome result (λ file. IsFileName file × (name.now ≡ name_of file)) }
    ensures none { IfNone result ((file : FileNameValue) → IsFileName file → name.now ≡ name_of file → ⊥) }
{
    if name == b"CURRENT".as_slice() {
        return Some(FileName::Current);
    }
    if name == b"LOCK".as_slice() {
        return Some(FileName::Lock);
    }
    match name.strip_prefix(b"MANIFEST-".as_slice()) {
        Some(digits) => Some(FileName::Manifest(number_of(digits)?)),
        None => numbered_file(name),
    }
}

// The file whose name begins with its number.
fn numbered_file(name: &[u8]) -> Option<FileName>
    ensures found { IfSome result (λ file. IsFileName file × (name.now ≡ name_of file)) }
    ensures none { IfNone result ((n : ℕ) (ending : List ℕ) → IsNumbered n → IsEnding ending → name.now ≡ padded n ++ ending → ⊥) }
{
    let (digits, ending) = name.split_at(digits_in_front(name));
    file_of(number_of(digits)?, ending)
}

// The file of this number whose name ends so.
fn file_of(n: u64, ending: &[u8]) -> Option<FileName>
    requires { IsNumbered n }
    ensures found { IfSome result (λ file. IsFileName file × (name_of file ≡ padded n ++ ending.now)) }
    ensures none { IfNone result (IsEnding ending.now → ⊥) }
{
    match ending {
        b".log" => Some(FileName::Log(n)),
        b".ldb" => Some(FileName::Table(n)),
        b".sst" => Some(FileName::OldTable(n)),
        b".dbtmp" => Some(FileName::Temporary(n)),
        _ => None,
    }
}

// How many digits come before the first other byte.
fn digits_in_front(name: &[u8]) -> usize
    ensures within { result ≤ length name.now }
    ensures digits { AllDigits 10 (take result name.now) }
    ensures end { result < length name.now → 10 ≤ digit_value (slice_index name.now result) }
{
    for (i, byte) in name.iter().enumerate() {
        if !byte.is_ascii_digit() {
            return i;
        }
    }
    name.len()
}

// The number that the digits are, if they are as many as its name has.
fn number_of(digits: &[u8]) -> Option<u64>
    ensures range { IfSome result (λ n. n < 2 ^ 64) }
    ensures value { MatchOption result ((n : ℕ) → IsNumbered n → digits.now ≡ padded n → ⊥) (λ n. IsNumbered n × (digits.now ≡ padded n)) }
{
    if digits.len() < DIGITS || (digits.len() > DIGITS && digits[0] == b'0') {
        return None;
    }
    let n = value_of(digits)?;
    if n == 0 { None } else { Some(n) }
}

// The value of decimal digits.
fn value_of(digits: &[u8]) -> Option<u64>
    ensures range { IfSome result (λ n. n < 2 ^ 64) }
    ensures value { MatchOption result (AllDigits 10 digits.now → 2 ^ 64 ≤ digits_value 10 digits.now) (λ n. AllDigits 10 digits.now × (digits_value 10 digits.now ≡ n)) }
{
    let mut value: u64 = 0;
    for digit in digits {
        if !digit.is_ascii_digit() {
            return None;
        }
        value = value
            .checked_mul(10)?
            .checked_add(u64::from(*digit - b'0'))?;
    }
    Some(value)
}

/// Returns the name of a file (LevelDB's db/filename.cc, `MakeFileName`, `DescriptorFileName` and
/// the like). It fails only out of memory.
pub fn print_name(alloc: Global, file: FileName) -> Result<String, AllocError>
    requires { IsFileName file }
    ensures { IfOk result (λ name. string_bytes name ≡ name_of file) }
{
    match file {
        FileName::Current => String::from_str(alloc, "CURRENT"),
        FileName::Lock => String::from_str(alloc, "LOCK"),
        FileName::Log(n) => with_ending(alloc, n, ".log"),
        FileName::Table(n) => with_ending(alloc, n, ".ldb"),
        FileName::OldTable(n) => with_ending(alloc, n, ".sst"),
        FileName::Manifest(n) => {
            let mut name = String::from_str(alloc, "MANIFEST-")?;
            push_number(alloc, &mut name, n)?;
            Ok(name)
        }
        FileName::Temporary(n) => with_ending(alloc, n, ".dbtmp"),
    }
}

fn with_ending(alloc: Global, n: u64, ending: &str) -> Result<String, AllocError>
    ensures { IfOk result (λ name. string_bytes name ≡ padded n ++ ending.now) }
{
    let mut name = String::new(alloc);
    push_number(alloc, &mut name, n)?;
    name.push_str(ending)?;
    Ok(name)
}

// Writes a number at the end, with zeros in front up to six digits.
fn push_number(alloc: Global, name: &mut String, n: u64) -> Result<(), AllocError>
    ensures { IfOk result (λ _. string_bytes name.new ≡ string_bytes name.old ++ padded n) }
{
    let digits = format!(in alloc; "{n}")?;
    for _ in digits.len()..DIGITS {
        name.push('0')?;
    }
    name.push_str(digits.as_str())
}

/// Proves that no two files have one name.
pub fn one_name()
    ensures { (file other : FileNameValue) → IsFileName file → IsFileName other → name_of file ≡ name_of other → file ≡ other }
{}
