//! Where a cursor over a table stands.

ghost use Rattle.std.specs.Prelude.{◌<◌, ◌+◌, ◌^◌};

/// Holds a cursor in one of a table's data blocks.
#[derive(Drop)]
pub struct InBlock<C> {
    /// The index of the block.
    pub index: usize,
    ghost fits: { index + 1 < 2 ^ 64 },
    pub cursor: C,
}
