//! Reading the object of a condition.
ghost use Rattle.std.specs.Prelude.{◌≤◌, length};
ghost use Rattle.ts_wire.specs.Reading.{ReadsOr, DecodesOr};
ghost use Rattle.ts_cond.specs.CondTexts.{tree_at, cond_at, cond_of};
ghost use Rattle.ts_cond.specs.Views.{test_of};

use crate::bytes::has_bytes;
use crate::cond::Cond;
use crate::field_reading::read_fields;
use crate::fields::CondFieldList;
use crate::node_reading::read_node;
use crate::nodes::CondNode;
use crate::tree_reading::Walked;
use std::alloc::Global;
use ts_wire::{Cursor, Kind, ReadFault, kept, unwrap_body};

/// The condition that an object spells.
#[tactic(auto, unfolding(crate::specs::CondTexts::cond_of, ts_wire::specs::Envelope::object_at))]
pub fn read_cond(alloc: Global, object: &[u8]) -> Result<Cond, ReadFault>
    ensures { DecodesOr (λ cond. cond) (cond_of object.now) result }
{
    let body = unwrap_body(Kind::Delete, object)?;
    let mut cursor = Cursor::new(body, 14);
    let cond = read_body(alloc, &mut cursor)?;
    cursor.end()?;
    Ok(cond)
}

#[tactic(auto, unfolding(crate::specs::CondTexts::cond_at))]
fn read_body(alloc: Global, cursor: &mut Cursor) -> Result<Cond, ReadFault>
    ensures { ReadsOr (λ cond. cond) cond_at cursor.old cursor.new result }
{
    has_bytes(cursor.rest());
    let fields = read_fields(alloc, cursor)?;
    let root = read_tree(alloc, &fields, cursor)?;
    Ok(Cond { fields, root })
}

// Reads a tree over these fields, which names each of them.
#[tactic(auto, unfolding(crate::specs::CondTexts::tree_at))]
fn read_tree(
    alloc: Global,
    fields: &CondFieldList,
    cursor: &mut Cursor,
) -> Result<CondNode, ReadFault>
    requires { length fields.now ≤ 72 }
    ensures { ReadsOr test_of (tree_at fields.now) cursor.old cursor.new result }
{
    let mut walked = Walked {
        named: 0,
        nodes: 0,
        last: 0,
    };
    let root = read_node(alloc, fields, 67, &mut walked, cursor)?;
    let complete = walked.named as u64 == fields.len();
    Ok(kept(walked.last, root, complete)?)
}
