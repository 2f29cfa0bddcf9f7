//! Version edits (LevelDB's doc/impl.md, "Manifest", and its db/version_edit.h).

ghost use Rattle.std.specs.Prelude.{◌≡◌, List, ℕ};
ghost use Rattle.edits.specs.Edit.{IsEdit};
ghost use Rattle.edits.specs.declared.field.Field.{Field as FieldValue};

use crate::field::Field;
use std::alloc::{AllocError, Global};
use std::marker::Model;

/// Holds a change of the layout of the files: its fields in order, as the list of which contracts
/// see it. It is one record of a MANIFEST.
#[derive(Debug, Drop)]
pub struct Edit {
    fields: Vec<Field>,
}

impl Model for Edit {
    ghost use Rattle.std.specs.Prelude.{List};
    ghost use Rattle.edits.specs.declared.field.Field.{Field};

    ghost Value = { List Field };

    ghost view = { λ e. e.fields.items };
}

impl Edit {
    ghost use Rattle.std.specs.Prelude.{◌≡◌, [], ◌∷◌, ◌++◌, OnOk, OnErr};

    /// Makes an edit that changes nothing.
    pub fn new(alloc: Global) -> Self
        ensures { result ≡ [] }
    {
        Edit {
            fields: Vec::new(alloc),
        }
    }

    /// Adds a field at the end. An `Err` changes nothing.
    pub fn push(&mut self, field: Field) -> Result<(), AllocError>
        ensures ok { OnOk result (self.new ≡ self.old ++ field ∷ []) }
        ensures err { OnErr result (self.new ≡ self.old) }
    {
        self.fields.push(field)?;
        Ok(())
    }

    // Frees the room that no field took: an edit of one table would keep room for four.
    pub(crate) fn shrink(&mut self)
        ensures { self.new ≡ self.old }
    {
        self.fields.shrink_to_fit();
    }

    /// Returns the fields, in order.
    pub fn fields(&self) -> &[Field]
        ensures { result.now ≡ self.now }
    {
        self.fields.as_slice()
    }
}

/// Proves that no bytes are two edits.
pub fn one_edit()
    ensures { (bytes : List ℕ) (edit other : List FieldValue) → IsEdit bytes edit → IsEdit bytes other → edit ≡ other }
{}
