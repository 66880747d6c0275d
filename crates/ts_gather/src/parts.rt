//! Values of the cells of a box, from columns that have those of all cells of another.
ghost use Rattle.std.specs.Prelude.{◌≡◌, ◌-◌, ◌^◌, ◌<◌, length, IfOk};
ghost use Rattle.ts_domain.specs.Boxes.{IsBox, cells_of, Covers};
ghost use Rattle.ts_gather.specs.Parts.{vals_over};

use crate::starts::{run_in, run_starts};
use std::alloc::Global;
use ts_base::OutOfMemory;
use ts_domain::{Order, SubBox};
use ts_table::Column;

/// The values of the cells of a box that lies in another, of whose cells a column has the values. Both
/// are in row or column order.
///
/// Values of cells that follow one another in both boxes are copied at once.
pub fn part_over(
    alloc: Global,
    column: &Column,
    outer: &SubBox,
    inner: &SubBox,
    order: Order,
) -> Result<Column, OutOfMemory>
    requires valid { IsBox inner.now }
    requires within { Covers outer.now inner.now }
    requires few { cells_of outer.now < 2 ^ 64 - 1 }
    requires long { length column.now ≡ cells_of outer.now }
    ensures { IfOk result (λ part. part ≡ vals_over order outer.now inner.now column.now) }
{
    let run = run_in(inner, order);
    let starts = run_starts(alloc, outer, inner, order)?;
    let mut part = Column::with_room_for(alloc, column, inner.cells())?;
    for from in starts.as_slice() {
        part.append_part(column, *from, run)?;
    }
    Ok(part)
}
