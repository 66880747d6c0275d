//! Laying: the piece of a write, from its columns.
ghost use Rattle.std.specs.Prelude.{◌≡◌, ◌≤◌, ◌<◌, [], true, false, length, All, IsTrue};
ghost use Rattle.std.specs.List.{list_all};
ghost use Rattle.std.specs.Option.{option_or};
ghost use Rattle.ts_base.specs.declared.heads.Version.{Version as AnyVersion};
ghost use Rattle.ts_domain.specs.Boxes.{IsBox};
ghost use Rattle.ts_domain.specs.Domains.{is_in_domain};
ghost use Rattle.ts_schema.specs.FrameTexts.{IsFrame};
ghost use Rattle.ts_model.specs.Commands.{again_in, box_refusal, is_spelled_col, is_spelled_write, laid, laid_apart, laid_dense, unless};
ghost use Rattle.ts_model.specs.Queries.{over_most};
ghost use Rattle.ts_model.specs.Selections.{IsNamedBox};
ghost use Rattle.ts_writer.specs.declared.laying.LayFault.TheVariants as fault;
ghost use Rattle.ts_writer.specs.Laying.{LaysOr, pieced};
ghost use Rattle.ts_writer.specs.Tables.{AreOf, cells_in};

use crate::columns::{attr_columns, clash, count_of, dim_columns, stray};
use crate::pieces::{piece_of, piece_over};
use crate::places::{again, global_places};
use crate::tables::{outside_in, table_of};
use std::alloc::Global;
use ts_base::OutOfMemory;
use ts_domain::{Domain, SubBox};
use ts_model::{ColIn, Refusal, WriteIn, bound_outside, box_of, over_most, unknown_dim};
use ts_piece::BatchPiece;
use ts_schema::{Attr, AttrList, Frame};
use ts_table::{Origin, Table};

/// Why a write lays no cells.
#[derive(Debug, Drop, PartialEq, Eq)]
pub(crate) enum LayFault {
    /// The write is refused.
    Refused(Refusal),
    /// There was no memory for the cells.
    OutOfMemory,
}

impl From<OutOfMemory> for LayFault {
    ghost from_gives = { λ _ made. made ≡ fault.OutOfMemory };

    fn from(_error: OutOfMemory) -> LayFault {
        LayFault::OutOfMemory
    }
}

/// The piece of a write of this origin, or why it is refused.
///
/// In a sparse array in this order: `SchemaClash` for the first name of a box, for a dimension or an
/// attribute without a column that fits it, and then for a column that neither has, `Domain` for a
/// coordinate outside, `DuplicateCell`, and `TooMany` for more than 2^20 cells. In a dense array:
/// `SchemaClash` for an attribute without a column that fits it, for a name of the box that is no
/// dimension, and then for a column of no attribute, `Domain` for a bound outside, and `TooMany`.
pub(crate) fn lay(
    alloc: Global,
    frame: &Frame,
    origin: Origin,
    attrs: &AttrList,
    write: &WriteIn,
) -> Result<BatchPiece, LayFault>
    requires frame { IsFrame frame.now }
    requires spelled { IsTrue (is_spelled_write write.now) }
    ensures { LaysOr (pieced frame.now origin (laid frame.now attrs.now write.now)) result }
{
    if frame.dense {
        return lay_box(alloc, frame, origin, attrs.as_slice(), write);
    }
    match write.sub.as_slice() {
        [] => lay_apart(
            alloc,
            frame,
            origin,
            attrs.as_slice(),
            write.cols.as_slice(),
        ),
        [bounds, ..] => Err(clash(bounds.name)),
    }
}

// The piece of a write to a dense array: its cells are those of its box, in the order of its layout.
fn lay_box(
    alloc: Global,
    frame: &Frame,
    origin: Origin,
    attrs: &[Attr],
    write: &WriteIn,
) -> Result<BatchPiece, LayFault>
    requires frame { IsFrame frame.now }
    requires dense { frame.now.dense ≡ true }
    requires named { All IsNamedBox write.now.sub }
    requires spelled { IsTrue (is_spelled_write write.now) }
    ensures { LaysOr (pieced frame.now origin (laid_dense frame.now.domain attrs.now write.now)) result }
{
    let sub = box_of(write.sub.as_slice(), &frame.domain);
    let count = sub.cells();
    let rows = attr_columns(alloc, attrs, write.cols.as_slice(), count)?;
    if let Some(refusal) = box_refusal(&frame.domain, attrs, write, &sub) {
        return Err(LayFault::Refused(refusal));
    }
    Ok(piece_over(alloc, frame, origin, write.layout, sub, rows)?)
}

// Why a write to a box of a dense array is refused, whose attributes have their columns.
fn box_refusal(domain: &Domain, attrs: &[Attr], write: &WriteIn, sub: &SubBox) -> Option<Refusal>
    requires valid { IsBox sub.now }
    requires as_many { length sub.now.low ≡ length domain.now }
    ensures { result ≡ box_refusal domain.now attrs.now write.now sub.now }
{
    if let Some(attr) = unknown_dim(domain.as_slice(), write.sub.as_slice()) {
        return Some(Refusal::SchemaClash { attr });
    }
    if let Some(attr) = stray(&[], attrs, write.cols.as_slice()) {
        return Some(Refusal::SchemaClash { attr });
    }
    match bound_outside(domain, sub) {
        Some(refusal) => Some(refusal),
        None => over_most(sub.cells()),
    }
}

// The piece of a write to a sparse array.
fn lay_apart(
    alloc: Global,
    frame: &Frame,
    origin: Origin,
    attrs: &[Attr],
    cols: &[ColIn],
) -> Result<BatchPiece, LayFault>
    requires frame { IsFrame frame.now }
    requires spelled { IsTrue (list_all is_spelled_col cols.now) }
    ensures { LaysOr (pieced frame.now origin (laid_apart frame.now.domain attrs.now cols.now)) result }
{
    let dims = frame.domain.as_slice();
    let count = count_of(dims, cols);
    let coords = dim_columns(alloc, dims, cols, count)?;
    let rows = attr_columns(alloc, attrs, cols, count)?;
    let table = table_of(alloc, origin, coords, rows, count)?;
    if let Some(attr) = stray(dims, attrs, cols) {
        return Err(LayFault::Refused(Refusal::SchemaClash { attr }));
    }
    if let Some(refusal) = outside_in(&frame.domain, &table) {
        return Err(LayFault::Refused(refusal));
    }
    tested(alloc, frame, origin, table)
}

// The piece of a table whose cells lie in the domain, where none comes twice, and there are not too
// many.
fn tested(
    alloc: Global,
    frame: &Frame,
    origin: Origin,
    table: Table,
) -> Result<BatchPiece, LayFault>
    requires some { 1 ≤ length table }
    requires inside { All (λ (v : AnyVersion). IsTrue (is_in_domain frame.now.domain v.coords)) table }
    requires own { AreOf origin.key origin.schema table }
    ensures { LaysOr (pieced frame.now origin (unless (cells_in table) (option_or (again_in [] 0 (cells_in table)) (over_most (length table))))) result }
{
    let count = table.len();
    // No list has places for 2^32 versions or more.
    if count > u64::from(u32::MAX) {
        return Err(LayFault::OutOfMemory);
    }
    let Some(places) = global_places(alloc, frame, &table)? else {
        return Err(LayFault::Refused(again(alloc, &table)?));
    };
    match over_most(count) {
        Some(refusal) => Err(LayFault::Refused(refusal)),
        None => Ok(piece_of(alloc, frame, origin, table, places)?),
    }
}
