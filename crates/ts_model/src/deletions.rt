//! Which cells the deletes of a history erase.
ghost use Rattle.std.specs.Prelude.{◌≡◌, [], ◌∷◌, map, IfOk};
ghost use Rattle.ts_cond.specs.Picks.{is_same_field, value_under, matches};
ghost use Rattle.ts_model.specs.Answers.{erases_cell, is_erased};
ghost use Rattle.ts_model.specs.Queries.{attr_field, attr_fields};
ghost use Rattle.ts_model.specs.Scans.{erased_under, pick_at};

use crate::deeds::{Deed, Deletion, Written};
use crate::finding::schema_with;
use std::alloc::Global;
use ts_base::{Coords, Duplicate, OutOfMemory, Row, Val};
use ts_cond::{Cond, CondField, Pick, PickList};
use ts_schema::{Attr, AttrList};

// Whether the cell of its last write, with its row, is erased in an interval.
pub(crate) fn is_erased(
    alloc: Global,
    at: &Coords,
    write: &Written,
    row: &Row,
    deeds: &[Deed],
    from: u64,
    to: u64,
) -> Result<bool, OutOfMemory>
    ensures { IfOk result (λ erased. erased ≡ is_erased deeds.now from to at.now write.now row.now) }
{
    let none = AttrList::new(alloc);
    let attrs = match schema_with(deeds, write.schema) {
        Some(schema) => schema.attrs.as_slice(),
        None => none.as_slice(),
    };
    let last = Last {
        at,
        write,
        row,
        attrs,
    };
    is_last_erased(alloc, &last, deeds, from, to)
}

// The cell of its last write.
#[derive(Clone, Copy, Drop)]
struct Last<'a> {
    // The coordinates.
    at: &'a Coords,
    // The write.
    write: &'a Written,
    // The row.
    row: &'a Row,
    // The attributes of the row.
    attrs: &'a [Attr],
}

// Whether one of the deeds that are stamped in an interval erases the cell.
fn is_last_erased(
    alloc: Global,
    last: &Last,
    deeds: &[Deed],
    from: u64,
    to: u64,
) -> Result<bool, OutOfMemory>
    ensures { IfOk result (λ erased. erased ≡ erased_under last.now.attrs.now from to last.now.at.now last.now.write.now last.now.row.now deeds.now) }
{
    for deed in deeds {
        if erases(alloc, last, deed, from, to)? {
            return Ok(true);
        }
    }
    Ok(false)
}

// Whether a deed erases the cell, where it is stamped in an interval.
fn erases(alloc: Global, last: &Last, deed: &Deed, from: u64, to: u64) -> Result<bool, OutOfMemory>
    ensures { IfOk result (λ erased. erased ≡ erased_under last.now.attrs.now from to last.now.at.now last.now.write.now last.now.row.now (deed.now ∷ [])) }
{
    match deed {
        Deed::Erased(deletion) if deletion.key.is_within(from, to) => {
            erases_cell(alloc, last, deletion)
        }
        _ => Ok(false),
    }
}

// Whether a delete erases the cell: it has a greater key, and matches.
fn erases_cell(alloc: Global, last: &Last, deletion: &Deletion) -> Result<bool, OutOfMemory>
    ensures { IfOk result (λ erased. erased ≡ erases_cell last.now.write.now last.now.attrs.now last.now.at.now last.now.row.now deletion.now) }
{
    if last.write.key < deletion.key {
        matches(alloc, &deletion.cond, last.at, last.row, last.attrs)
    } else {
        Ok(false)
    }
}

// Whether a cell with a row of these attributes matches a condition.
fn matches(
    alloc: Global,
    condition: &Cond,
    at: &Coords,
    row: &Row,
    attrs: &[Attr],
) -> Result<bool, OutOfMemory>
    ensures { IfOk result (λ holds. holds ≡ matches condition.now at.now (attr_fields attrs.now) row.now) }
{
    let picks = picks_at(alloc, condition.fields.as_slice(), row.as_slice(), attrs)?;
    Ok(condition.matches(&picks, at, row))
}

// The values of a condition's fields in a row; those of dimensions stand in the coordinates.
fn picks_at(
    alloc: Global,
    fields: &[CondField],
    row: &[Val],
    attrs: &[Attr],
) -> Result<PickList, OutOfMemory>
    ensures { IfOk result (λ picks. picks ≡ map (pick_at attrs.now row.now) fields.now) }
{
    let mut picks = PickList::new(alloc);
    for field in fields {
        picks.push(pick_at(alloc, field, row, attrs)?)?;
    }
    Ok(picks)
}

fn pick_at(
    alloc: Global,
    field: &CondField,
    row: &[Val],
    attrs: &[Attr],
) -> Result<Pick, OutOfMemory>
    ensures { IfOk result (λ pick. pick ≡ pick_at attrs.now row.now field.now) }
{
    match field.dim {
        Some(dim) => Ok(Pick::Coord(dim)),
        None => Ok(Pick::Fill(value_under(field, row, attrs).copy(alloc)?)),
    }
}

// The value of the first attribute that counts as the field, or else the recorded fill.
#[tactic(auto, using(crate::proofs::Erased::value_on, crate::proofs::Erased::value_here, crate::proofs::Erased::value_end))]
fn value_under<'a>(field: &'a CondField, row: &'a [Val], attrs: &[Attr]) -> &'a Val
    ensures { result.now ≡ value_under field.now (attr_fields attrs.now) row.now }
{
    for place in 0..attrs.len().min(row.len()) {
        if is_same_field(field, &attrs[place]) {
            return &row[place];
        }
    }
    &field.fill
}

// Whether an attribute counts as the field.
fn is_same_field(field: &CondField, attr: &Attr) -> bool
    ensures { result ≡ is_same_field field.now (attr_field attr.now) }
{
    field.name == attr.name && field.ty == attr.ty && field.nullable == attr.nullable
}
