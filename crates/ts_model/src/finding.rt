//! What is found in a history, deed by deed.
ghost use Rattle.std.specs.Prelude.{◌≡◌, ◌&&◌, [], ◌∷◌, Some};
ghost use Rattle.std.specs.Option.{option_copied};
ghost use Rattle.ts_base.specs.Keys.{greater, is_within};
ghost use Rattle.ts_model.specs.Deeds.{frame_in, has_cell, last_write, row_at, current_schema, schema_with};

use crate::deeds::{Deed, Written};
use ts_base::{Cell, Coords, Key, Row};
use ts_schema::{Frame, Schema};

// The first frame of the deeds.
pub(crate) fn frame_in(deeds: &[Deed]) -> Option<&Frame>
    ensures { option_copied result ≡ frame_in deeds.now }
{
    for deed in deeds {
        if let Deed::Framed(frame) = deed {
            return Some(frame);
        }
    }
    None
}

// The schema of a key.
pub(crate) fn schema_with(deeds: &[Deed], key: Key) -> Option<&Schema>
    ensures { option_copied result ≡ schema_with deeds.now key }
{
    for deed in deeds {
        if let Deed::Declared(schema) = deed {
            if schema.key == key {
                return Some(schema);
            }
        }
    }
    None
}

// The schema that holds at a timestamp.
pub(crate) fn current_schema(deeds: &[Deed], b: u64) -> Option<&Schema>
    ensures { option_copied result ≡ current_schema deeds.now b }
{
    let mut last = None;
    for deed in deeds {
        last = current_with(last, deed, b);
    }
    last
}

// The schema that holds, where one more deed is looked at.
fn current_with<'a>(last: Option<&'a Schema>, deed: &'a Deed, b: u64) -> Option<&'a Schema>
    ensures { option_copied result ≡ greater (λ s. s.key) (option_copied last.entry) (current_schema (deed.now ∷ []) b) }
{
    match deed {
        Deed::Declared(schema) if schema.key.t <= b => later_schema(last, schema),
        _ => last,
    }
}

// A schema where it has a greater key than the one before it, and else that one.
fn later_schema<'a>(last: Option<&'a Schema>, schema: &'a Schema) -> Option<&'a Schema>
    ensures { option_copied result ≡ greater (λ s. s.key) (option_copied last.entry) (Some schema.now) }
{
    match last {
        Some(other) if !(other.key < schema.key) => last,
        _ => Some(schema),
    }
}

// The last write of a coordinate in an interval.
pub(crate) fn latest<'a>(at: &Coords, deeds: &'a [Deed], from: u64, to: u64) -> Option<&'a Written>
    ensures { option_copied result ≡ last_write deeds.now from to at.now }
{
    let mut last = None;
    for deed in deeds {
        last = latest_with(at, last, deed, from, to);
    }
    last
}

// The last write of a coordinate, where one more deed is looked at.
fn latest_with<'a>(
    at: &Coords,
    last: Option<&'a Written>,
    deed: &'a Deed,
    from: u64,
    to: u64,
) -> Option<&'a Written>
    ensures { option_copied result ≡ greater (λ w. w.key) (option_copied last.entry) (last_write (deed.now ∷ []) from to at.now) }
{
    match deed {
        Deed::Wrote(write) if counts(at, write, from, to) => later(last, write),
        _ => last,
    }
}

// Whether a write is stamped in an interval and has a cell at a coordinate.
fn counts(at: &Coords, write: &Written, from: u64, to: u64) -> bool
    ensures { result ≡ (is_within from to write.now.key && has_cell at.now write.now) }
{
    write.key.is_within(from, to) && find_row(at, write.cells.as_slice()).is_some()
}

// A write where it has a greater key than the one before it, and else that one.
fn later<'a>(last: Option<&'a Written>, write: &'a Written) -> Option<&'a Written>
    ensures { option_copied result ≡ greater (λ w. w.key) (option_copied last.entry) (Some write.now) }
{
    match last {
        Some(other) if !(other.key < write.key) => last,
        _ => Some(write),
    }
}

// The row at a coordinate among these cells.
pub(crate) fn find_row<'a>(at: &Coords, cells: &'a [Cell]) -> Option<&'a Row>
    ensures { option_copied result ≡ row_at at.now cells.now }
{
    for cell in cells {
        if cell.coords == *at {
            return Some(&cell.row);
        }
    }
    None
}
