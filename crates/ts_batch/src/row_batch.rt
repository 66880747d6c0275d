//! Rows that lie in memory as rows or as columns.
ghost use Rattle.std.specs.Prelude.{◌≡◌, ◌<◌, All, List, length, slice_get, slice_index_or, option_map, []};
ghost use Rattle.std.specs.Cmp.Lexicographic.{pointwise, lists_per, lists_equiv};
ghost use Rattle.ts_base.specs.declared.values.Val.{Val as AnyVal};
ghost use Rattle.ts_table.specs.Columns.{val_seen};
ghost use Rattle.ts_table.specs.Tables.{across};
ghost use Rattle.ts_batch.specs.Rows.{rows_across, val_eq, option_eq, val_per, val_equiv};

use crate::seen::{is_same, seen_in};
use std::marker::Model;
use ts_base::RowList;
use ts_table::{Column, Seen};

/// How rows lie in memory.
#[derive(Debug, Drop)]
pub(crate) enum RowsHeld {
    /// One by one.
    Rows(RowList),
    /// Field by field.
    Columns {
        /// The values of each field.
        columns: Vec<Column>,
        /// The number of rows.
        count: u64,
    },
}

/// Some rows, one by one or field by field. Contracts see the list of the rows.
#[derive(Debug, Drop)]
pub struct RowBatch {
    held: RowsHeld,
}

impl Model for RowBatch {
    ghost use Rattle.std.specs.Prelude.{List};
    ghost use Rattle.ts_base.specs.declared.values.Val.{Val};

    ghost Value = { List (List Val) };

    ghost use Rattle.ts_batch.specs.Rows.{rows_held, AreRows};

    ghost view = { λ rows. rows_held rows.held };

    ghost invariant = { λ rows. AreRows rows.held };
}

impl RowBatch {
    /// These rows. It takes no memory.
    pub fn of_rows(rows: RowList) -> RowBatch
        ensures { result ≡ rows }
    {
        RowBatch {
            held: RowsHeld::Rows(rows),
        }
    }

    /// So many rows, of the values in these columns. It takes no memory.
    pub fn of_columns(columns: Vec<Column>, count: u64) -> RowBatch
        requires { All (λ (column : List AnyVal). length column ≡ count) columns.items }
        ensures { result ≡ rows_across columns.items count }
    {
        RowBatch {
            held: RowsHeld::Columns { columns, count },
        }
    }

    /// The number of rows.
    #[tactic(auto, using(crate::proofs::Rows::lengths))]
    pub fn len(&self) -> u64
        ensures { result ≡ length self.now }
    {
        match &self.held {
            RowsHeld::Rows(rows) => rows.len(),
            RowsHeld::Columns { columns: _, count } => *count,
        }
    }

    /// The value of the row at a place in a column, both counted from 0, if it has one there.
    #[tactic(auto, using(crate::proofs::Rows::gets))]
    pub fn val(&self, row: u64, column: u64) -> Option<Seen<'_>>
        requires { row < length self.now }
        ensures { option_map val_seen result ≡ slice_get (slice_index_or self.now row []) column }
    {
        match &self.held {
            RowsHeld::Rows(rows) => seen_in(rows.at(row).as_slice(), column),
            RowsHeld::Columns { columns, count: _ } => across_at(columns.as_slice(), row, column),
        }
    }

    // The number of values of the row at a place.
    #[tactic(auto, using(crate::proofs::Rows::widths))]
    fn width(&self, row: u64) -> u64
        requires { row < length self.now }
        ensures { result ≡ length (slice_index_or self.now row []) }
    {
        match &self.held {
            RowsHeld::Rows(rows) => rows.at(row).len(),
            RowsHeld::Columns { columns, count: _ } => columns.as_slice().len() as u64,
        }
    }
}

impl PartialEq for RowBatch {
    ghost eq = { pointwise (pointwise val_eq) };

    ghost laws = { lists_per (lists_per val_per) };

    #[tactic(auto, using(crate::proofs::Same::rows_same))]
    fn eq(&self, other: &RowBatch) -> bool {
        if self.len() != other.len() {
            return false;
        }
        for row in 0..self.len() {
            if !is_same_row(self, other, row) {
                return false;
            }
        }
        true
    }
}

impl Eq for RowBatch {
    ghost laws = { lists_equiv (lists_equiv val_equiv) };
}

// Whether two lists of rows have the same row at a place.
#[tactic(auto, using(crate::proofs::Same::rows_same))]
fn is_same_row(first: &RowBatch, second: &RowBatch, row: u64) -> bool
    requires first { row < length first.now }
    requires second { row < length second.now }
    ensures { result ≡ pointwise val_eq (slice_index_or first.now row []) (slice_index_or second.now row []) }
{
    let count = first.width(row);
    if second.width(row) != count {
        return false;
    }
    for column in 0..count {
        if !is_same_at(first, second, row, column) {
            return false;
        }
    }
    true
}

// Whether two lists of rows have the same value at a place.
fn is_same_at(first: &RowBatch, second: &RowBatch, row: u64, column: u64) -> bool
    requires first { row < length first.now }
    requires second { row < length second.now }
    ensures { result ≡ option_eq (slice_get (slice_index_or first.now row []) column) (slice_get (slice_index_or second.now row []) column) }
{
    match (first.val(row, column), second.val(row, column)) {
        (Some(a), Some(b)) => is_same(&a, &b),
        (None, None) => true,
        _ => false,
    }
}

// The value of the row at a place in a column, if there is such a column.
#[tactic(auto, using(ts_table::proofs::Tables::acrosses))]
fn across_at(columns: &[Column], row: u64, column: u64) -> Option<Seen<'_>>
    requires { All (λ (list : List AnyVal). row < length list) columns.now }
    ensures { option_map val_seen result ≡ slice_get (across row columns.now) column }
{
    let column = column as usize;
    if column < columns.len() {
        Some(columns[column].at(row))
    } else {
        None
    }
}
