//! Numbers of varying width, seven bits a byte, the low ones first (LevelDB's `util/coding.h`,
//! `EncodeVarint32` and `EncodeVarint64`).

ghost use Rattle.std.specs.Prelude.{◌≡◌, ◌<◌, ◌≤◌, ◌^◌, ◌++◌, ℕ, List, length, take, IfNone, IfSome, OnOk, OnErr};
ghost use Rattle.coding.specs.Varint.{IsVarint, AppendsVarint};

use std::alloc::AllocError;

/// Appends a number of at most 32 bits, in one to five bytes. It fails only out of memory.
#[inline(always)]
pub fn put_varint32(out: &mut Vec<u8>, value: u32) -> Result<(), AllocError>
    ensures ok { OnOk result (AppendsVarint out.old.items out.new.items value) }
    ensures err { OnErr result (out.new.items ≡ out.old.items) }
{
    put_varint64(out, u64::from(value))
}

/// Appends a number of at most 64 bits, in one to ten bytes. It fails only out of memory.
#[inline(always)]
pub fn put_varint64(out: &mut Vec<u8>, value: u64) -> Result<(), AllocError>
    ensures ok { OnOk result (AppendsVarint out.old.items out.new.items value) }
    ensures err { OnErr result (out.new.items ≡ out.old.items) }
{
    if value >= 128 {
        return put_long_varint(out, value);
    }
    // Most numbers are this short.
    out.push(value as u8)?;
    Ok(())
}

// The same, of however many bytes.
fn put_long_varint(out: &mut Vec<u8>, value: u64) -> Result<(), AllocError>
    ensures ok { OnOk result (AppendsVarint out.old.items out.new.items value) }
    ensures err { OnErr result (out.new.items ≡ out.old.items) }
{
    let start = out.len();
    let pushed = push_varint(out, value);
    if pushed.is_err() {
        out.truncate(start);
    }
    pushed
}

// Appends a number, or a beginning of it if memory runs out.
fn push_varint(out: &mut Vec<u8>, value: u64) -> Result<(), AllocError>
    ensures ok { OnOk result (AppendsVarint out.old.items out.new.items value) }
    ensures front { take (length out.old.items) out.new.items ≡ out.old.items }
{
    let mut rest = value;
    while rest >= 128 {
        out.push((rest % 128) as u8 + 128)?;
        rest /= 128;
    }
    out.push(rest as u8)?;
    Ok(())
}

/// Reads the number of at most 32 bits at the front: its value, and how many bytes it takes. Bytes
/// may follow it. `None`: the bytes end before it does, it isn't in its shortest encoding (as `80
/// 00`, which LevelDB reads as 0), or it is 2^32 or more.
pub fn get_varint32(bytes: &[u8]) -> Option<(u32, usize)>
    ensures range { IfSome result (λ found. found.0 < 2 ^ 32) }
    ensures length { IfSome result (λ found. found.1 ≤ length bytes.now) }
    ensures found { IfSome result (λ found. IsVarint (take found.1 bytes.now) found.0) }
    ensures none { IfNone result ((value used : ℕ) → value < 2 ^ 32 → IsVarint (take used bytes.now) value → ⊥) }
{
    let (value, used) = varint_at(bytes, u64::from(u32::MAX))?;
    Some((value as u32, used))
}

/// Reads the number of at most 64 bits at the front: its value, and how many bytes it takes. Bytes
/// may follow it. `None`: the bytes end before it does, it isn't in its shortest encoding, or it is
/// 2^64 or more.
pub fn get_varint64(bytes: &[u8]) -> Option<(u64, usize)>
    ensures range { IfSome result (λ found. found.0 < 2 ^ 64) }
    ensures length { IfSome result (λ found. found.1 ≤ length bytes.now) }
    ensures found { IfSome result (λ found. IsVarint (take found.1 bytes.now) found.0) }
    ensures none { IfNone result ((value used : ℕ) → value < 2 ^ 64 → IsVarint (take used bytes.now) value → ⊥) }
{
    varint_at(bytes, u64::MAX)
}

// The number at the front and how many bytes it takes, if it is at most `limit`.
fn varint_at(bytes: &[u8], limit: u64) -> Option<(u64, usize)>
    ensures length { IfSome result (λ found. found.1 ≤ length bytes.now) }
    ensures limit { IfSome result (λ found. found.0 ≤ limit) }
    ensures found { IfSome result (λ found. IsVarint (take found.1 bytes.now) found.0) }
    ensures none { IfNone result ((value used : ℕ) → value ≤ limit → IsVarint (take used bytes.now) value → ⊥) }
{
    match bytes {
        [] => None,
        [last, ..] if *last < 128 => {
            let value = u64::from(*last);
            if value <= limit {
                Some((value, 1))
            } else {
                None
            }
        }
        [low, rest @ ..] => {
            let low = u64::from(*low) - 128;
            if limit < low + 128 {
                return None;
            }
            let (high, used) = varint_at(rest, (limit - low) / 128)?;
            if high == 0 {
                return None;
            }
            Some((low + 128 * high, used + 1))
        }
    }
}

/// Proves that no encoding of a number begins that of another,
/// and each number has one. So what was written is read again, whatever follows it.
pub fn one_varint()
    ensures { (a b x y : List ℕ) (m n : ℕ) → IsVarint a m → IsVarint b n → a ++ x ≡ b ++ y → (a ≡ b) × (m ≡ n) }
{}
