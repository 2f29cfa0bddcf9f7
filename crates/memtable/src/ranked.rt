//! What entries are sorted by.

ghost use Rattle.ikey.specs.Fronts.{IsFront};
ghost use Rattle.memtable.specs.internal.Unique.{IsFront-prop};

use ikey::Front;

/// Holds what tells where an entry stands, and its number. The front lies beside the number, since
/// most compares read it alone.
#[derive(Clone, Copy)]
pub struct Ranked<'a> {
    pub front: Front,
    pub key: &'a [u8],
    pub sequence: u64,
    pub number: u32,
    ghost is_front: { IsFront front key.now } by { IsFront-prop front key.now },
}
