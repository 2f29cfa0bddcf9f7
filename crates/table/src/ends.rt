//! What follows the data blocks of a table (LevelDB's `table/table_builder.cc`, Finish).

ghost use Rattle.std.specs.Prelude.{◌≡◌, ◌<◌, ◌≤◌, ◌+◌, ◌^◌, ◌++◌, ◌∷◌, [], ℕ, List, length, IfOk, OnOk};
ghost use Rattle.block.specs.Block.{IsBlock};
ghost use Rattle.ikey.specs.Below.{IsBelowPlain};
ghost use Rattle.table.specs.Frame.{filter_name};
ghost use Rattle.table.specs.Stored.{IsHandle};
ghost use Rattle.table.specs.Writing.{AreEnds};

use crate::footer::{Footer, put_footer};
use crate::handle::{Handle, put_handle};
use crate::metaindex::FILTER_NAME;
use crate::stored::{TRAILER_LENGTH, put_stored};
use block::BlockBuilder;
use ikey::Plain;
use std::alloc::{AllocError, Global};

// A restart stands at every so many entries of the metaindex.
const METAINDEX_INTERVAL: usize = 16;

/// Writes filter block, metaindex, index and footer of a table, whose data blocks end at an offset.
pub fn put_ends(
    alloc: Global,
    out: &mut Vec<u8>,
    offset: u64,
    filter: &[u8],
    index: &[u8],
) -> Result<(), AllocError>
    requires offset { offset < 2 ^ 63 + 2 ^ 34 }
    requires filter { length filter.now ≤ 2 ^ 30 }
    ensures { OnOk result ((bytes : List ℕ) × AreEnds offset filter.now index.now bytes × (out.new.items ≡ out.old.items ++ bytes)) }
{
    let trailer = TRAILER_LENGTH as u64;
    let named = Handle {
        offset,
        size: filter.len() as u64,
    };
    let names = metaindex_of(alloc, named)?;
    let metaindex = Handle {
        offset: offset + (named.size + trailer),
        size: names.len() as u64,
    };
    let index_at = Handle {
        offset: metaindex.offset + (metaindex.size + trailer),
        size: index.len() as u64,
    };
    put_stored(out, filter)?;
    put_stored(out, &names)?;
    put_stored(out, index)?;
    put_footer(
        out,
        Footer {
            metaindex,
            index: index_at,
        },
    )
}

// The metaindex, which names the filter block.
fn metaindex_of(alloc: Global, filter: Handle) -> Result<Vec<u8>, AllocError>
    ensures block { IfOk result (λ bytes. (value : List ℕ) × IsHandle value filter
        × IsBlock IsBelowPlain bytes.items (record { key = filter_name; value = value } ∷ [])) }
    ensures short { IfOk result (λ bytes. length bytes.items ≤ 2 ^ 30) }
{
    let mut value = Vec::new(alloc);
    put_handle(&mut value, filter)?;
    let mut block = BlockBuilder::<Plain>::new(alloc, METAINDEX_INTERVAL);
    block.add(FILTER_NAME.as_bytes(), &value)?;
    block.finish()
}
