//! The end of a table file, read from a store.

ghost use Rattle.std.specs.Prelude.{◌≡◌, ◌+◌, ℕ, List, length, IfOk, IfErr, OnOk};
ghost use Rattle.table.specs.Frame.{HasFooter};
ghost use Rattle.table.specs.Reading.{Reads, Finds, Refuses, IsNoted};
ghost use Rattle.table.specs.declared.handle.Handle.{Handle as HandleValue};

use crate::footer::{FOOTER_LENGTH, Footer, read_footer};
use crate::noting::{refuse_footer, refuse_short};
use crate::reading::{file_length, read_part};
use coding::DbError;
use std::alloc::Global;
use store::Store;

/// Holds a footer, and how many bytes stand before it.
#[derive(Clone, Copy, Debug, PartialEq, Eq)]
pub struct Ends {
    /// How many bytes stand before the footer.
    pub before: u64,
    pub footer: Footer,
}

/// Reads the footer, which is the last 48 bytes. Corrupt: the file is shorter or they are no
/// footer.
pub fn read_ends<S: Store>(alloc: Global, store: &mut S, name: &str) -> Result<Ends, DbError>
    ensures reads { Reads (S.facts store.old) (S.facts store.new) }
    ensures found { IfOk result (λ ends. Finds (S.facts store.old) (S.facts store.new) name.now (λ file. HasFooter file ends.before ends.footer.metaindex ends.footer.index)) }
    ensures before { IfOk result (λ ends. Finds (S.facts store.old) (S.facts store.new) name.now (λ file. ends.before + 48 ≡ length file)) }
    ensures stood { OnOk result ((S.facts store.new).failures ≡ (S.facts store.old).failures) }
    ensures noted { IfErr result (λ e. IsNoted name.now e (S.told store.new)) }
    ensures refused { IfErr result (λ e. Refuses e (S.facts store.old) (S.facts store.new) name.now
        (λ file. (before : ℕ) (metaindex index : HandleValue) → HasFooter file before metaindex index → ⊥) (λ file. ⊥)) }
{
    let len = file_length(store, name)?;
    if len < FOOTER_LENGTH as u64 {
        return Err(refuse_short(store, name, len));
    }
    let before = len - FOOTER_LENGTH as u64;
    let bytes = read_part(alloc, store, name, before, FOOTER_LENGTH, Vec::new(alloc))?;
    match read_footer(&bytes) {
        Ok(footer) => Ok(Ends { before, footer }),
        Err(what) => Err(refuse_footer(store, name, before, &bytes, what)),
    }
}
