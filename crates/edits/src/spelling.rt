//! The parts of fields, read and written.

ghost use Rattle.std.specs.Prelude.{◌≡◌, ◌<◌, ◌≤◌, ◌^◌, ◌++◌, ℕ, List, length, IfOk, IfErr, IfSome, IfNone, OnOk};
ghost use Rattle.coding.specs.Errors.{RefusesOnly};
ghost use Rattle.coding.specs.Varint.{IsString};
ghost use Rattle.coding.specs.Spelling.{Begins, BeginsNone, Appends, InTurn};
ghost use Rattle.edits.specs.Edit.{IsLong, IsSequence, IsLevel, IsTableNumber, SpellsKey, SpellsTable, IsPlaced, IsTableProper};

use crate::field::{PlacedTable, TableFile};
use coding::{
    Bytes, Damage, ReadError, SEQUENCE_END, get_string, get_varint32, get_varint64, put_string,
    put_varint32, put_varint64,
};
use ikey::unpack;
use std::alloc::{AllocError, Global};

/// Reads the number of at most 64 bits at the front, and returns it with the bytes after it.
pub fn long_at(bytes: &[u8]) -> Result<(u64, &[u8]), ReadError>
    ensures range { IfOk result (λ found. found.0 < 2 ^ 64) }
    ensures found { IfOk result (λ found. Begins IsLong bytes.now found.0 found.1.now) }
    ensures refused { IfErr result (λ e. RefusesOnly e (BeginsNone IsLong bytes.now)) }
{
    let Some((n, used)) = get_varint64(bytes) else {
        return Err(ReadError::Corrupt(Damage::Number));
    };
    let (_, rest) = bytes.split_at(used);
    Ok((n, rest))
}

/// Reads the sequence number at the front, and returns it with the bytes after it.
pub fn sequence_at(bytes: &[u8]) -> Result<(u64, &[u8]), ReadError>
    ensures found { IfOk result (λ found. Begins IsSequence bytes.now found.0 found.1.now) }
    ensures refused { IfErr result (λ e. RefusesOnly e (BeginsNone IsSequence bytes.now)) }
{
    let (n, rest) = long_at(bytes)?;
    if n >= SEQUENCE_END {
        return Err(ReadError::Corrupt(Damage::Number));
    }
    Ok((n, rest))
}

/// Reads the level at the front, and returns it with the bytes after it.
pub fn level_at(bytes: &[u8]) -> Result<(u32, &[u8]), ReadError>
    ensures found { IfOk result (λ found. Begins IsLevel bytes.now found.0 found.1.now) }
    ensures refused { IfErr result (λ e. RefusesOnly e (BeginsNone IsLevel bytes.now)) }
{
    let Some((level, used)) = get_varint32(bytes) else {
        return Err(ReadError::Corrupt(Damage::Number));
    };
    if level > 6 {
        return Err(ReadError::Corrupt(Damage::Number));
    }
    let (_, rest) = bytes.split_at(used);
    Ok((level, rest))
}

/// Reads the string at the front, and returns it with the bytes after it.
pub fn string_at(alloc: Global, bytes: &[u8]) -> Result<(Bytes, &[u8]), ReadError>
    ensures found { IfOk result (λ found. Begins IsString bytes.now found.0 found.1.now) }
    ensures refused { IfErr result (λ e. RefusesOnly e (BeginsNone IsString bytes.now)) }
{
    let Some((text, rest)) = get_string(bytes) else {
        return Err(ReadError::Corrupt(Damage::Length));
    };
    Ok((Bytes::from_vec(Vec::from_slice(alloc, text)?), rest))
}

/// Reads the internal key at the front, as a string, and returns it with the bytes after it.
pub fn key_at(alloc: Global, bytes: &[u8]) -> Result<(Bytes, &[u8]), ReadError>
    ensures found { IfOk result (λ found. Begins SpellsKey bytes.now found.0 found.1.now) }
    ensures refused { IfErr result (λ e. RefusesOnly e (BeginsNone SpellsKey bytes.now)) }
{
    let Some((key, rest)) = get_string(bytes) else {
        return Err(ReadError::Corrupt(Damage::Length));
    };
    let Some(_) = unpack(key) else {
        return Err(ReadError::Corrupt(Damage::Kind));
    };
    Ok((Bytes::from_vec(Vec::from_slice(alloc, key)?), rest))
}

/// Reads the number of a table at the front, and returns it with the bytes after it.
pub fn table_number_at(bytes: &[u8]) -> Result<(u64, &[u8]), ReadError>
    ensures found { IfOk result (λ found. Begins IsTableNumber bytes.now found.0 found.1.now) }
    ensures refused { IfErr result (λ e. RefusesOnly e (BeginsNone IsTableNumber bytes.now)) }
{
    let (n, rest) = long_at(bytes)?;
    if n == 0 {
        return Err(ReadError::Corrupt(Damage::Number));
    }
    Ok((n, rest))
}

/// Reads the smallest and the largest key at the front, and returns them with the bytes after them.
pub fn keys_at(alloc: Global, bytes: &[u8]) -> Result<(Bytes, Bytes, &[u8]), ReadError>
    ensures found { IfOk result (λ found. Begins (InTurn SpellsKey SpellsKey) bytes.now (found.0, found.1) found.2.now) }
    ensures refused { IfErr result (λ e. RefusesOnly e (BeginsNone (InTurn SpellsKey SpellsKey) bytes.now)) }
{
    let (smallest, rest) = key_at(alloc, bytes)?;
    let (largest, rest) = key_at(alloc, rest)?;
    Ok((smallest, largest, rest))
}

/// Reads the table at the front, and returns it with the bytes after it.
pub fn table_at(alloc: Global, bytes: &[u8]) -> Result<(TableFile, &[u8]), ReadError>
    ensures found { IfOk result (λ found. Begins SpellsTable bytes.now found.0 found.1.now) }
    ensures refused { IfErr result (λ e. RefusesOnly e (BeginsNone SpellsTable bytes.now)) }
{
    let (number, rest) = table_number_at(bytes)?;
    let (size, rest) = long_at(rest)?;
    let (smallest, largest, rest) = keys_at(alloc, rest)?;
    Ok((
        TableFile {
            number,
            size,
            smallest,
            largest,
        },
        rest,
    ))
}

/// Reads the level and the table at the front, and returns them with the bytes after them.
pub fn placed_at(alloc: Global, bytes: &[u8]) -> Result<(PlacedTable, &[u8]), ReadError>
    ensures found { IfOk result (λ found. Begins IsPlaced bytes.now found.0 found.1.now) }
    ensures refused { IfErr result (λ e. RefusesOnly e (BeginsNone IsPlaced bytes.now)) }
{
    let (level, rest) = level_at(bytes)?;
    let (table, rest) = table_at(alloc, rest)?;
    Ok((PlacedTable { level, table }, rest))
}

/// Writes a number at the end, or nothing if memory runs out.
pub fn put_long(out: &mut Vec<u8>, n: u64) -> Result<(), AllocError>
    ensures { OnOk result (Appends IsLong out.old.items out.new.items n) }
{
    put_varint64(out, n)
}

/// Writes a level at the end, or nothing if memory runs out.
pub fn put_level(out: &mut Vec<u8>, level: u32) -> Result<(), AllocError>
    requires { level < 7 }
    ensures { OnOk result (Appends IsLevel out.old.items out.new.items level) }
{
    put_varint32(out, level)
}

/// Writes a table at the end, or a beginning of it if memory runs out.
pub fn put_table(out: &mut Vec<u8>, table: &TableFile) -> Result<(), AllocError>
    requires { IsTableProper table.now }
    ensures { OnOk result (Appends SpellsTable out.old.items out.new.items table.now) }
{
    put_varint64(out, table.number)?;
    put_varint64(out, table.size)?;
    put_string(out, table.smallest.as_slice())?;
    put_string(out, table.largest.as_slice())?;
    Ok(())
}
