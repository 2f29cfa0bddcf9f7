//! The end of a table file (LevelDB's `doc/table_format.md`, "Footer").

ghost use Rattle.std.specs.Prelude.{◌≡◌, ◌++◌, ◌-◌, ℕ, List, length, replicate, IfOk, IfErr, OnOk, IsTrue, ◌↔◌, MatchBool};
ghost use Rattle.std.specs.List.{AllByRecursion};
ghost use Rattle.table.specs.Frame.{IsFooter, magic};
ghost use Rattle.table.specs.declared.handle.Handle.{Handle as HandleValue};

use crate::handle::{Handle, handle_at, put_handle};
use coding::Damage;
use std::alloc::AllocError;

/// Counts the bytes of a footer.
pub const FOOTER_LENGTH: usize = 48;

// How many bytes stand before the magic number.
const HANDLES_LENGTH: usize = 40;

const MAGIC: [u8; 8] = [0x57, 0xFB, 0x80, 0x8B, 0x24, 0x75, 0x47, 0xDB];

/// Returns the magic number that these bytes of a footer have, in the order of the bytes, or 0 if
/// they are too few.
pub fn magic_in(bytes: &[u8]) -> u64 {
    let Some(last) = bytes.get(HANDLES_LENGTH..) else {
        return 0;
    };
    match last.split_first_chunk::<8>() {
        Some((word, _)) => u64::from_be_bytes(*word),
        None => 0,
    }
}

/// Returns the magic number that belongs there.
pub fn magic_number() -> u64 {
    u64::from_be_bytes(MAGIC)
}

/// Tells where the metaindex and the index are, as the footer says it.
#[derive(Clone, Copy, Debug, PartialEq, Eq)]
pub struct Footer {
    /// The block that names the filter block.
    pub metaindex: Handle,
    /// The block that finds the data blocks.
    pub index: Handle,
}

/// Reads the footer that the bytes are. `Length`: they are too few or too many. `Kind`: they have
/// another magic number. `Number`: there is no handle. `Padding`: other bytes than zeros follow the
/// handles.
pub fn read_footer(bytes: &[u8]) -> Result<Footer, Damage>
    ensures found { IfOk result (λ footer. IsFooter bytes.now footer.metaindex footer.index) }
    ensures refused { IfErr result (λ _. (metaindex index : HandleValue) → IsFooter bytes.now metaindex index → ⊥) }
{
    if bytes.len() != FOOTER_LENGTH {
        return Err(Damage::Length);
    }
    let (front, last) = bytes.split_at(HANDLES_LENGTH);
    if last != MAGIC.as_slice() {
        return Err(Damage::Kind);
    }
    let Some((metaindex, behind)) = handle_at(front) else {
        return Err(Damage::Number);
    };
    let Some((index, padding)) = handle_at(behind) else {
        return Err(Damage::Number);
    };
    if !are_zeros(padding) {
        return Err(Damage::Padding);
    }
    Ok(Footer { metaindex, index })
}

fn are_zeros(bytes: &[u8]) -> bool
    ensures { MatchBool result (bytes.now ≡ replicate (length bytes.now) 0) (bytes.now ≡ replicate (length bytes.now) 0 → ⊥) }
{
    for byte in bytes {
        if *byte != 0 {
            return false;
        }
    }
    true
}

/// Writes the footer at the end, or a beginning of it if memory runs out.
pub fn put_footer(out: &mut Vec<u8>, footer: Footer) -> Result<(), AllocError>
    ensures { OnOk result ((bytes : List ℕ) × IsFooter bytes footer.metaindex footer.index × (out.new.items ≡ out.old.items ++ bytes)) }
{
    let start = out.len();
    put_handle(out, footer.metaindex)?;
    put_handle(out, footer.index)?;
    let used = out.len().saturating_sub(start);
    put_zeros(out, HANDLES_LENGTH.saturating_sub(used))?;
    out.extend_from_slice(&MAGIC)?;
    Ok(())
}

// Writes so many zeros at the end.
fn put_zeros(out: &mut Vec<u8>, count: usize) -> Result<(), AllocError>
    ensures { OnOk result (out.new.items ≡ out.old.items ++ replicate count 0) }
{
    for _i in 0..count {
        out.push(0)?;
    }
    Ok(())
}
