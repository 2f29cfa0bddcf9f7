//! Where blocks are (LevelDB's `doc/table_format.md`, "BlockHandle").

ghost use Rattle.std.specs.Prelude.{◌≡◌, ℕ, List, IfNone, IfSome, MatchOption, OnOk};
ghost use Rattle.coding.specs.Spelling.{Begins, BeginsNone, Appends};
ghost use Rattle.table.specs.Stored.{IsNumber, IsHandle};
ghost use Rattle.table.specs.declared.handle.Handle.{Handle as HandleValue};

use coding::{Bytes, get_varint64, put_varint64};
use std::alloc::AllocError;

/// Tells where a block is in its file, without its trailer.
#[derive(Clone, Copy, Debug, PartialEq, Eq)]
pub struct Handle {
    /// Where the block begins, in bytes from the start of the file.
    pub offset: u64,
    /// How many bytes the block has, without the five of its trailer.
    pub size: u64,
}

/// Holds what the index says of a data block: a key that no key of the block is above, and where
/// the block is.
#[derive(Debug, Drop)]
pub struct Place {
    /// An internal key, at least the block's last one, and below the next block's first one.
    pub key: Bytes,
    /// Where the data block is.
    pub handle: Handle,
}

/// Reads the handle at the front, and returns it with the bytes after it.
pub fn handle_at(bytes: &[u8]) -> Option<(Handle, &[u8])>
    ensures found { IfSome result (λ found. Begins IsHandle bytes.now found.0 found.1.now) }
    ensures none { IfNone result (BeginsNone IsHandle bytes.now) }
{
    let (offset, behind) = number_at(bytes)?;
    let (size, behind) = number_at(behind)?;
    Some((Handle { offset, size }, behind))
}

/// Returns the handle that all of the bytes are.
pub fn whole_handle(bytes: &[u8]) -> Option<Handle>
    ensures { MatchOption result ((handle : HandleValue) → IsHandle bytes.now handle → ⊥) (λ handle. IsHandle bytes.now handle) }
{
    match handle_at(bytes)? {
        (handle, []) => Some(handle),
        _ => None,
    }
}

// The number of at most 64 bits at the front, and the bytes after it.
fn number_at(bytes: &[u8]) -> Option<(u64, &[u8])>
    ensures found { IfSome result (λ found. Begins IsNumber bytes.now found.0 found.1.now) }
    ensures none { IfNone result (BeginsNone IsNumber bytes.now) }
{
    let (number, used) = get_varint64(bytes)?;
    let (_, behind) = bytes.split_at(used);
    Some((number, behind))
}

/// Writes a handle at the end, or a beginning of it if memory runs out.
pub fn put_handle(out: &mut Vec<u8>, handle: Handle) -> Result<(), AllocError>
    ensures { OnOk result (Appends IsHandle out.old.items out.new.items handle) }
{
    put_varint64(out, handle.offset)?;
    put_varint64(out, handle.size)
}
