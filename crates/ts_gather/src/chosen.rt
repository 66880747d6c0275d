//! Some columns of values, at some rows.
ghost use Rattle.std.specs.Prelude.{◌≡◌, ◌+◌, ◌<◌, ◌↔◌, ℕ, [], ◌∷◌, ◌++◌, List, length, map, get_or, IfOk, OnOk, IsTrue, if◌then◌else◌};
ghost use Rattle.std.specs.List.{All};
ghost use Rattle.ts_base.specs.declared.values.Val.{Val as AnyVal};
ghost use Rattle.ts_base.specs.declared.values.Val.TheVariants as val;
ghost use Rattle.ts_gather.specs.Rows.{AreRows, AreAscending, at_rows, chosen};

use std::alloc::Global;
use ts_base::OutOfMemory;
use ts_table::Column;

/// The columns at these places, at these rows. A place without a column gives nulls. Where all rows are
/// wanted, and each column at most once, the columns are moved.
#[tactic(auto, using(crate::proofs::RowLaws::moved_whole))]
pub(crate) fn chosen_columns(
    alloc: Global,
    attrs: &[u32],
    vals: Vec<Column>,
    count: u64,
    rows: &[u32],
) -> Result<Vec<Column>, OutOfMemory>
    requires long { All (λ (column : List AnyVal). length column ≡ count) vals.items }
    requires rows { AreRows count rows.now }
    ensures { IfOk result (λ columns. columns.items ≡ chosen attrs.now rows.now vals.items) }
{
    if rows.len() as u64 == count && are_ascending(attrs, vals.len()) {
        moved_columns(alloc, attrs, vals)
    } else {
        gathered_columns(alloc, attrs, vals.as_slice(), count, rows)
    }
}

/// Whether places ascend, each once, and lie below an end.
pub(crate) fn are_ascending(attrs: &[u32], end: usize) -> bool
    ensures { IsTrue result → AreAscending attrs.now end }
{
    are_below(attrs, end) && are_rising(attrs)
}

// Whether places lie below an end.
fn are_below(attrs: &[u32], end: usize) -> bool
    ensures { IsTrue result → (i : ℕ) → i < length attrs.now → get_or attrs.now i 0 < end }
{
    for attr in attrs {
        if *attr as usize >= end {
            return false;
        }
    }
    true
}

// Whether each place is below the next.
fn are_rising(attrs: &[u32]) -> bool
    ensures { IsTrue result → (i : ℕ) → i + 1 < length attrs.now → get_or attrs.now i 0 < get_or attrs.now (i + 1) 0 }
{
    for place in 1..attrs.len() {
        if attrs[place] <= attrs[place - 1] {
            return false;
        }
    }
    true
}

/// The columns at these places, which ascend.
#[tactic(auto, using(crate::proofs::RowLaws::moving_none))]
pub(crate) fn moved_columns(
    alloc: Global,
    attrs: &[u32],
    vals: Vec<Column>,
) -> Result<Vec<Column>, OutOfMemory>
    requires { AreAscending attrs.now (length vals.items) }
    ensures { IfOk result (λ columns. columns.items ≡ map (λ attr. get_or vals.items attr []) attrs.now) }
{
    let mut columns = Vec::new(alloc);
    let mut next = 0;
    let mut place = 0;
    for column in vals {
        let taken = is_next(attrs, next, place);
        push_if(taken, &mut columns, column)?;
        if taken {
            next += 1;
        }
        place += 1;
    }
    Ok(columns)
}

// Appends a column, if it is taken.
fn push_if(taken: bool, columns: &mut Vec<Column>, column: Column) -> Result<(), OutOfMemory>
    ensures { OnOk result (columns.new.items ≡ (if taken then columns.old.items ++ column ∷ [] else columns.old.items)) }
{
    if taken {
        columns.push(column)?;
    }
    Ok(())
}

// Whether a place is the next one.
fn is_next(attrs: &[u32], next: usize, place: usize) -> bool
    ensures { IsTrue result ↔ (next < length attrs.now) × (get_or attrs.now next 0 ≡ place) }
{
    next < attrs.len() && attrs[next] as usize == place
}

// The columns at these places, at these rows.
fn gathered_columns(
    alloc: Global,
    attrs: &[u32],
    vals: &[Column],
    count: u64,
    rows: &[u32],
) -> Result<Vec<Column>, OutOfMemory>
    requires long { All (λ (column : List AnyVal). length column ≡ count) vals.now }
    requires rows { AreRows count rows.now }
    ensures { IfOk result (λ columns. columns.items ≡ chosen attrs.now rows.now vals.now) }
{
    let mut columns = Vec::new(alloc);
    for attr in attrs {
        columns.push(gathered_column(alloc, *attr, vals, count, rows)?)?;
    }
    Ok(columns)
}

// The column at a place, at these rows.
#[tactic(auto, using(crate::proofs::RowLaws::none_there))]
fn gathered_column(
    alloc: Global,
    attr: u32,
    vals: &[Column],
    count: u64,
    rows: &[u32],
) -> Result<Column, OutOfMemory>
    requires long { All (λ (column : List AnyVal). length column ≡ count) vals.now }
    requires rows { AreRows count rows.now }
    ensures { IfOk result (λ column. column ≡ at_rows val.Null rows.now (get_or vals.now attr [])) }
{
    let place = attr as usize;
    if place < vals.len() {
        vals[place].gathered(alloc, rows)
    } else {
        Column::nulls(alloc, rows.len() as u64)
    }
}
