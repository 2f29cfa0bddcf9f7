//! Buffers that are used again.

ghost use Rattle.std.specs.Prelude.{◌≡◌, OnOk, OnErr};

use std::alloc::AllocError;

/// Makes a buffer the copy of some bytes. An `Err` leaves it.
pub fn copy_to(buffer: &mut Vec<u8>, bytes: &[u8]) -> Result<(), AllocError>
    ensures ok { OnOk result (buffer.new.items ≡ bytes.now) }
    ensures err { OnErr result (buffer.new.items ≡ buffer.old.items) }
{
    buffer.reserve(bytes.len().saturating_sub(buffer.len()))?;
    buffer.clear();
    buffer.extend_from_slice(bytes)
}
