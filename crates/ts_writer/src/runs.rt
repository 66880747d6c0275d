//! The spots of the cells of a space tile, run after run.
ghost use Rattle.std.specs.Prelude.{◌≡◌, ◌<◌, ◌≤◌, ◌+◌, ◌^◌, ◌++◌, OnOk};
ghost use Rattle.ts_domain.specs.Boxes.{IsBox, cells_of, Covers};
ghost use Rattle.ts_writer.specs.Spots.{spots_from, spots_in};

use std::alloc::Global;
use ts_base::OutOfMemory;
use ts_domain::{Order, SubBox};
use ts_gather::{run_in, run_starts};
use ts_piece::Spot;

/// Appends the spots of the cells of a space tile, in the order of the layout, run after run.
pub(crate) fn add_runs(
    alloc: Global,
    spots: &mut Vec<Spot>,
    layout: Order,
    sub: &SubBox,
    tile: &SubBox,
) -> Result<(), OutOfMemory>
    requires valid { IsBox tile.now }
    requires within { Covers sub.now tile.now }
    requires few { cells_of sub.now < 2 ^ 32 }
    ensures { OnOk result (spots.new.items ≡ spots.old.items ++ spots_in layout sub.now layout tile.now) }
{
    let run = run_in(tile, layout);
    let starts = run_starts(alloc, sub, tile, layout)?;
    for from in starts.as_slice() {
        add_run(spots, *from, run)?;
    }
    Ok(())
}

// Appends the spots at so many places, from a place on.
fn add_run(spots: &mut Vec<Spot>, from: u64, run: u64) -> Result<(), OutOfMemory>
    requires { from + run < 2 ^ 32 }
    ensures { OnOk result (spots.new.items ≡ spots.old.items ++ spots_from from run) }
{
    for step in 0..run {
        spots.push(Spot {
            batch: 0,
            place: (from + step) as u32,
        })?;
    }
    Ok(())
}
