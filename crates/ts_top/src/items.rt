//! The lines of a script in the order in which their ends are printed.
ghost use Rattle.std.specs.Prelude.{◌≡◌, ◌++◌, ◌≤◌, length, IfOk, OnOk};
ghost use Rattle.ts_law.specs.Fresh.{in_lane_order, lines_in};
ghost use Rattle.ts_top.specs.Items.{numbered, numbered_line};

use crate::item::Item;
use std::alloc::Global;
use ts_base::OutOfMemory;
use ts_model::Line;
use ts_query::command_name;
use ts_turnstile::Told;

/// The number of lanes.
const LANES: u32 = 8;

impl Item {
    // What is printed of a line with this number in its lane.
    fn of(number: u32, line: &Line) -> Item
        ensures { numbered_line result ≡ record { number = number; line = line.now } }
    {
        Item {
            lane: line.lane,
            number,
            name: command_name(&line.command),
            line: Told::of(line),
        }
    }
}

/// What is printed of the lines of a script in lane order: of those of lane 0, then of those of lane 1, up to
/// lane 7.
pub(crate) fn in_lane_order(alloc: Global, lines: &[Line]) -> Result<Vec<Item>, OutOfMemory>
    requires few { length lines.now ≤ 4096 }
    ensures { IfOk result (λ items. numbered items.items ≡ in_lane_order lines.now) }
{
    let mut items = Vec::with_capacity(alloc, lines.len())?;
    for lane in 0..LANES {
        push_lane(&mut items, lane, lines)?;
    }
    Ok(items)
}

// Appends the lines of a lane, numbered from 1.
fn push_lane(items: &mut Vec<Item>, lane: u32, lines: &[Line]) -> Result<(), OutOfMemory>
    requires few { length lines.now ≤ 4096 }
    ensures { OnOk result (numbered items.new.items ≡ numbered items.old.items ++ lines_in lane 1 lines.now) }
{
    let mut number = 1;
    for line in lines.iter() {
        if line.lane == lane {
            items.push(Item::of(number, line))?;
            number += 1;
        }
    }
    Ok(())
}
