//! Columns that are taken out of a list of columns.
ghost use Rattle.std.specs.Prelude.{◌≡◌, ◌+◌, ◌<◌, ℕ, [], false, length, map, filter, nat_lt, get_or, slice_set, IfOk, OnOk};

use std::alloc::Global;
use std::mem;
use ts_base::{Duplicate, OutOfMemory};
use ts_table::Column;

/// The columns at those of these places where there are columns. A column that is asked for again
/// further on is copied, and else it is moved.
#[tactic(auto, using(crate::proofs::Takings::steps))]
pub(crate) fn taken_columns(
    alloc: Global,
    fields: &[u32],
    all: &mut [Column],
) -> Result<Vec<Column>, OutOfMemory>
    ensures { IfOk result (λ columns. columns.items ≡ map (λ field. get_or all.old field []) (filter (λ field. nat_lt field (length all.old)) fields.now)) }
{
    let mut columns = Vec::new(alloc);
    for place in 0..fields.len() {
        let field = fields[place];
        if (field as usize) < all.len() {
            columns.push(taken(alloc, field, &fields[place + 1..], all)?)?;
        }
    }
    Ok(columns)
}

// The column at a place. It is copied where it is asked for among the fields that follow, and else it
// is moved.
fn taken(
    alloc: Global,
    field: u32,
    later: &[u32],
    all: &mut [Column],
) -> Result<Column, OutOfMemory>
    requires { field < length all.old }
    ensures column { IfOk result (λ column. column ≡ get_or all.old field []) }
    ensures kept { (k : ℕ) → k < length later.now → get_or all.new (get_or later.now k 0) [] ≡ get_or all.old (get_or later.now k 0) [] }
{
    if is_among(field, later) {
        all[field as usize].copy(alloc)
    } else {
        Ok(mem::replace(&mut all[field as usize], Column::new(alloc)))
    }
}

// Whether a field is one of these.
fn is_among(field: u32, fields: &[u32]) -> bool
    ensures { result ≡ false → (k : ℕ) → k < length fields.now → get_or fields.now k 0 ≡ field → ⊥ }
{
    for other in fields {
        if *other == field {
            return true;
        }
    }
    false
}
