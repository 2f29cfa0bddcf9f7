//! The tables of a layout while its edits are read.

ghost use Rattle.std.specs.Prelude.{◌≡◌, [], Some, None, IfOk, IfErr, OnOk, OnErr};
ghost use Rattle.coding.specs.Errors.{RefusesOnly};
ghost use Rattle.edits.specs.Layout.{with_table, without};

use crate::field::PlacedTable;
use coding::{Damage, ReadError};
use std::alloc::{AllocError, Global};
use std::collections::{BTreeMap, BTreeSet};
use std::marker::Model;

// The tables so far, as the list that a layout has of them: by level and then by number. Whatever
// the order in which a MANIFEST names them, adding or removing a table takes a number of steps that
// is logarithmic in how many there are.
#[derive(Drop)]
pub(crate) struct TableSet {
    // each under its level and its number
    tables: BTreeMap<(u32, u64), PlacedTable>,
    // the tables' numbers, since a number counts at whichever level
    numbers: BTreeSet<u64>,
}

impl Model for TableSet {
    ghost use Rattle.std.specs.Prelude.{◌≡◌, List};
    ghost use Rattle.std.specs.Map.{values_of};
    ghost use Rattle.edits.specs.declared.field.PlacedTable.{PlacedTable};
    ghost use Rattle.edits.specs.TableSets.{AreNumbersOf, ranked};

    ghost Value = { List PlacedTable };

    ghost view = { λ s. values_of s.tables.entries };

    ghost invariant = { λ s. (s.tables.entries ≡ ranked (values_of s.tables.entries))
        × AreNumbersOf (values_of s.tables.entries) s.numbers };
}

impl TableSet {
    // No tables.
    pub(crate) fn new(alloc: Global) -> Self
        ensures { result ≡ [] }
    {
        TableSet {
            tables: BTreeMap::new(alloc),
            numbers: BTreeSet::new(alloc),
        }
    }

    // Puts a table in, if none has its number. An `Err` changes nothing.
    pub(crate) fn add(&mut self, new: PlacedTable) -> Result<(), ReadError>
        ensures done { OnOk result (with_table new self.old ≡ Some self.new) }
        ensures refused { IfErr result (λ e. RefusesOnly e (with_table new self.old ≡ None)) }
        ensures err { OnErr result (self.new ≡ self.old) }
    {
        let number = new.table.number;
        if !self.numbers.insert(number)? {
            return Err(ReadError::Corrupt(Damage::Order));
        }
        let Ok(_) = self.tables.insert((new.level, number), new) else {
            // So that an `Err` changes nothing.
            self.numbers.remove(&number);
            return Err(ReadError::Memory);
        };
        Ok(())
    }

    // Takes the table of this number out, if it is at this level. An `Err` changes nothing.
    pub(crate) fn remove(&mut self, level: u32, number: u64) -> Result<(), ReadError>
        ensures done { OnOk result (without level number self.old ≡ Some self.new) }
        ensures refused { IfErr result (λ e. RefusesOnly e (without level number self.old ≡ None)) }
        ensures err { OnErr result (self.new ≡ self.old) }
    {
        if self.tables.remove(&(level, number)).is_none() {
            return Err(ReadError::Corrupt(Damage::Missing));
        }
        self.numbers.remove(&number);
        Ok(())
    }

    // The tables, by level and then by number.
    pub(crate) fn into_tables(self, alloc: Global) -> Result<Vec<PlacedTable>, AllocError>
        ensures { IfOk result (λ tables. tables.items ≡ self) }
    {
        let TableSet { tables, numbers } = self;
        // The list takes memory, so the numbers free theirs first.
        drop(numbers);
        tables.into_values().collect(alloc)
    }
}
