//! The calls of a fetch.
ghost use Rattle.std.specs.Prelude.{◌≡◌, ◌++◌, map, IfOk, OnOk};
ghost use Rattle.std.specs.List.{flat_map};
ghost use Rattle.ts_sparse_read.specs.Opens.{size_call, span_call, tile_calls, calls_for};

use crate::opened::{Span, UsedColumn, WantedTile};
use std::alloc::Global;
use std::collections::VecDeque;
use ts_base::OutOfMemory;
use ts_fetch::Planned;

/// First the size of each object is asked, and then tile by tile its spans are got.
pub fn plan_of(
    alloc: Global,
    used: &[UsedColumn],
    tiles: &[WantedTile],
) -> Result<VecDeque<Planned>, OutOfMemory>
    ensures { IfOk result (λ plan. plan.items ≡ calls_for used.now tiles.now) }
{
    let mut plan = VecDeque::new(alloc);
    push_sizes(&mut plan, used)?;
    push_tiles(&mut plan, tiles)?;
    Ok(plan)
}

// Appends a call for the size of each object.
fn push_sizes(plan: &mut VecDeque<Planned>, used: &[UsedColumn]) -> Result<(), OutOfMemory>
    ensures { OnOk result (plan.new.items ≡ plan.old.items ++ map size_call used.now) }
{
    for column in used {
        plan.push_back(Planned::SizeOf(column.part, column.size.length))?;
    }
    Ok(())
}

// Appends the calls that get the spans of each tile.
fn push_tiles(plan: &mut VecDeque<Planned>, tiles: &[WantedTile]) -> Result<(), OutOfMemory>
    ensures { OnOk result (plan.new.items ≡ plan.old.items ++ flat_map tile_calls tiles.now) }
{
    for tile in tiles {
        push_spans(plan, tile.spans.as_slice())?;
    }
    Ok(())
}

// Appends the calls that get spans.
fn push_spans(plan: &mut VecDeque<Planned>, spans: &[Span]) -> Result<(), OutOfMemory>
    ensures { OnOk result (plan.new.items ≡ plan.old.items ++ map span_call spans.now) }
{
    for span in spans {
        plan.push_back(Planned::Range(span.part, span.from, span.count))?;
    }
    Ok(())
}
