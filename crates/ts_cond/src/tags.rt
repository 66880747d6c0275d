//! The numbers by which an object names the nodes of a condition's tree, and the comparisons.
ghost use Rattle.std.specs.Prelude.{◌≡◌, ◌+◌, ◌<◌, ◌≤◌, ◌++◌, OnOk};
ghost use Rattle.ts_wire.specs.Reading.{Reads};
ghost use Rattle.ts_cond.specs.CondTexts.{tag_code, tag_of, tag_at, tag_bytes, op_code, op_of, op_at, op_bytes};

use crate::nodes::CondOp;
use ts_base::OutOfMemory;
use ts_wire::{Cursor, Damaged, Scribe, kept};

/// What a node of a condition's tree is.
#[derive(Clone, Copy, Debug, PartialEq, Eq)]
pub enum Tag {
    /// Each of these nodes holds.
    AllOf,
    /// One of these nodes holds, or more.
    AnyOf,
    /// A node does not hold.
    NotOf,
    /// A comparison.
    Comparing,
    /// A membership.
    Membership,
    /// A test for null.
    Nullness,
}

// The tags in the order of their numbers, which count from 1.
const TAGS: [Tag; 6] = [
    Tag::AllOf,
    Tag::AnyOf,
    Tag::NotOf,
    Tag::Comparing,
    Tag::Membership,
    Tag::Nullness,
];

// The comparisons in the order of their numbers.
const OPS: [CondOp; 6] = [
    CondOp::Less,
    CondOp::AtMost,
    CondOp::Greater,
    CondOp::AtLeast,
    CondOp::Equal,
    CondOp::Unequal,
];

/// Reads the tag of a node, which has so many nodes and values before it: there are 1,024 at most.
#[tactic(auto, unfolding(crate::specs::CondTexts::tag_at))]
pub fn read_tag(cursor: &mut Cursor, nodes: u16) -> Result<Tag, Damaged>
    ensures reads { Reads (λ tag. tag) (tag_at nodes) cursor.old cursor.new result }
    ensures moves { OnOk result (cursor.new.at ≡ cursor.old.at + 1) }
    ensures few { OnOk result (nodes < 1024) }
{
    let at = cursor.at();
    let code = cursor.u8()?;
    let code = kept(at, code, 1 <= code && code <= 6 && nodes < 1024)?;
    Ok(tag_of(code))
}

fn tag_of(code: u8) -> Tag
    requires least { 1 ≤ code }
    requires greatest { code ≤ 6 }
    ensures { result ≡ tag_of code }
{
    TAGS[code as usize - 1]
}

/// Writes the tag of a node.
#[tactic(auto, unfolding(crate::specs::CondTexts::tag_bytes))]
pub fn write_tag(scribe: &mut Scribe, tag: Tag) -> Result<(), OutOfMemory>
    ensures { OnOk result (scribe.new ≡ scribe.old ++ tag_bytes tag) }
{
    scribe.u8(tag_code(tag))
}

fn tag_code(tag: Tag) -> u8
    ensures { result ≡ tag_code tag }
{
    match tag {
        Tag::AllOf => 1,
        Tag::AnyOf => 2,
        Tag::NotOf => 3,
        Tag::Comparing => 4,
        Tag::Membership => 5,
        Tag::Nullness => 6,
    }
}

/// Reads a comparison: a number from 0 to 5 in one byte.
#[tactic(auto, unfolding(crate::specs::CondTexts::op_at))]
pub fn read_op(cursor: &mut Cursor) -> Result<CondOp, Damaged>
    ensures reads { Reads (λ op. op) op_at cursor.old cursor.new result }
    ensures moves { OnOk result (cursor.new.at ≡ cursor.old.at + 1) }
{
    let at = cursor.at();
    let code = cursor.u8()?;
    let code = kept(at, code, code <= 5)?;
    Ok(op_of(code))
}

fn op_of(code: u8) -> CondOp
    requires { code ≤ 5 }
    ensures { result ≡ op_of code }
{
    OPS[code as usize]
}

/// Writes a comparison.
#[tactic(auto, unfolding(crate::specs::CondTexts::op_bytes))]
pub fn write_op(scribe: &mut Scribe, op: CondOp) -> Result<(), OutOfMemory>
    ensures { OnOk result (scribe.new ≡ scribe.old ++ op_bytes op) }
{
    scribe.u8(op_code(op))
}

fn op_code(op: CondOp) -> u8
    ensures { result ≡ op_code op }
{
    match op {
        CondOp::Less => 0,
        CondOp::AtMost => 1,
        CondOp::Greater => 2,
        CondOp::AtLeast => 3,
        CondOp::Equal => 4,
        CondOp::Unequal => 5,
    }
}
