//! The plain values of a JSON list, in a column.
ghost use Rattle.std.specs.Prelude.{◌≡◌, [], ◌∷◌, ◌++◌, ◌<◌, length, slice_get, Some, true, IsTrue, OnOk};
ghost use Rattle.std.specs.List.{list_all};
ghost use Rattle.ts_table.specs.Columns.{val_seen};
ghost use Rattle.ts_model.specs.Commands.{is_spelled_val};

use crate::fitting::are_text;
use std::alloc::Global;
use ts_base::OutOfMemory;
use ts_table::{Column, Seen};

/// The plain values at the front of a list: nulls, whole numbers and texts.
#[derive(Drop)]
pub(crate) struct Cells {
    column: Column,
    ghost spelled: { list_all is_spelled_val column ≡ true },
}

impl Cells {
    /// No values. It takes no memory.
    pub(crate) fn new(alloc: Global) -> Cells
        ensures { result.column ≡ [] }
    {
        Cells {
            column: Column::new(alloc),
        }
    }

    /// Whether there is no value.
    #[tactic(auto, using(crate::proofs::TreeLemmas::no_items))]
    pub(crate) fn is_empty(&self) -> bool
        ensures { IsTrue result → self.now.column ≡ [] }
    {
        self.column.len() == 0
    }

    /// The number of values.
    pub(crate) fn len(&self) -> u64
        ensures { result ≡ length self.now.column }
    {
        self.column.len()
    }

    /// The value at a place, counted from 0.
    pub(crate) fn at(&self, place: u64) -> Seen<'_>
        requires { place < length self.now.column }
        ensures { slice_get self.now.column place ≡ Some (val_seen result) }
    {
        self.column.at(place)
    }

    /// The values in their column.
    pub(crate) fn into_column(self) -> Column
        ensures is { result ≡ self.column }
        ensures spelled { list_all is_spelled_val result ≡ true }
    {
        self.column
    }

    /// Appends a value.
    pub(crate) fn push(&mut self, seen: Seen<'_>) -> Result<(), OutOfMemory>
        ensures { OnOk result (self.new.column ≡ self.old.column ++ val_seen seen.entry ∷ []) }
    {
        match seen {
            Seen::Null => self.column.push_null(),
            Seen::Int(number) => self.column.push_number(number),
            Seen::Bytes(bytes) => {
                are_text(bytes); // so few that their number has 64 bits
                self.column.push_text(bytes)
            }
        }
    }
}
