//! Length-prefixed strings: the length as a number of varying width, and as many bytes (LevelDB's
//! `util/coding.h`, `PutLengthPrefixedSlice` and `GetLengthPrefixedSlice`).

ghost use Rattle.std.specs.Prelude.{◌≡◌, ◌<◌, ◌^◌, ◌++◌, ℕ, List, length, take, IfNone, IfSome, OnOk, OnErr};
ghost use Rattle.coding.specs.Varint.{IsString};

use crate::varint::{get_varint32, put_varint32};
use std::alloc::AllocError;

/// Appends a length-prefixed string. It fails only out of memory.
pub fn put_string(out: &mut Vec<u8>, text: &[u8]) -> Result<(), AllocError>
    requires { length text.now < 2 ^ 32 }
    ensures ok { OnOk result ((bytes : List ℕ) × IsString bytes text.now × (out.new.items ≡ out.old.items ++ bytes)) }
    ensures err { OnErr result (out.new.items ≡ out.old.items) }
{
    let start = out.len();
    put_varint32(out, text.len() as u32)?;
    let put = out.extend_from_slice(text);
    if put.is_err() {
        out.truncate(start);
    }
    put
}

/// Reads the length-prefixed string at the front: its bytes without the length, and what follows
/// them, both borrowed. `None`: the length is cut or not in its shortest encoding, or fewer bytes
/// follow it.
pub fn get_string(bytes: &[u8]) -> Option<(&[u8], &[u8])>
    ensures found { IfSome result (λ found. (front : List ℕ) × IsString front found.0.now × (bytes.now ≡ front ++ found.1.now)) }
    ensures none { IfNone result ((front text rest : List ℕ) → IsString front text → bytes.now ≡ front ++ rest → ⊥) }
{
    let (len, used) = get_varint32(bytes)?;
    let len = len as usize;
    let (_, behind) = bytes.split_at(used);
    if behind.len() < len {
        return None;
    }
    Some(behind.split_at(len))
}
