//! Reading the tree of a condition's object.
ghost use Rattle.std.specs.Prelude.{◌≡◌, ◌+◌, ◌<◌, ◌≤◌, [], length, slice_get, IfOk, OnOk};
ghost use Rattle.ts_wire.specs.Place.{items_at};
ghost use Rattle.ts_wire.specs.Reading.{Reads, ReadsOr};
ghost use Rattle.ts_cond.specs.CondTexts.{indexes, nodes_of, last_index, named_by, more_named, is_of_kind, index_at, operand_at, member_at, member_count_at, members_at, compare_at, membership_at, null_at, walk};
ghost use Rattle.ts_cond.specs.Views.{test_of};

use crate::fields::{CondField, CondFieldList};
use crate::nodes::CondNode;
use crate::tags::read_op;
use std::alloc::Global;
use ts_base::{Row, Val};
use ts_value::fits;
use ts_wire::{Cursor, Damaged, ReadFault, kept};

/// What was read of a tree.
#[derive(Clone, Copy, Debug)]
pub struct Walked {
    /// How many fields were named.
    pub named: u8,
    /// How many nodes there are, and values of memberships.
    pub nodes: u16,
    /// The offset of the last index of a field.
    pub last: u64,
}

// Reads the index of a field, which was named before or is the next.
#[tactic(auto, unfolding(crate::specs::CondTexts::index_at))]
fn read_index(
    fields: &CondFieldList,
    walked: &mut Walked,
    cursor: &mut Cursor,
) -> Result<u8, Damaged>
    requires { length fields.now ≤ 72 }
    ensures reads { Reads (λ field. field) (index_at fields.now walked.old.named) cursor.old cursor.new result }
    ensures within { IfOk result (λ field. field < length fields.now) }
    ensures named { IfOk result (λ field. walked.new.named ≡ more_named walked.old.named field) }
    ensures nodes { walked.new.nodes ≡ walked.old.nodes }
    ensures last { OnOk result (walked.new.last ≡ cursor.old.at) }
{
    let at = cursor.at();
    let field = cursor.u8()?;
    let known = (field as u64) < fields.len() && field <= walked.named;
    let field = kept(at, field, known)?;
    walked.named = more_named(walked.named, field);
    walked.last = at;
    Ok(field)
}

// How many fields are named once this one is.
fn more_named(named: u8, field: u8) -> u8
    requires { field < 72 }
    ensures { result ≡ more_named named field }
{
    if field == named { named + 1 } else { named }
}

// Whether the value is of the kind of the field.
fn suits(field: &CondField, val: &Val) -> bool
    ensures { result ≡ is_of_kind field.now.ty val.now }
{
    match val {
        Val::Int(_) => field.ty.is_integer(),
        _ => fits(field.ty, false, val),
    }
}

// Reads the value that a field is compared with.
#[tactic(auto, unfolding(crate::specs::CondTexts::operand_at))]
fn read_operand(
    alloc: Global,
    fields: &CondFieldList,
    field: u8,
    cursor: &mut Cursor,
) -> Result<Val, ReadFault>
    requires { field < length fields.now }
    ensures { ReadsOr (λ val. val) (operand_at (slice_get fields.now field)) cursor.old cursor.new result }
{
    let at = cursor.at();
    let val = cursor.val(alloc)?;
    let suiting = suits(fields.at(field as u64), &val);
    Ok(kept(at, val, suiting)?)
}

// Reads a value of a membership behind others, where so many nodes and values stand before them.
#[tactic(auto, unfolding(crate::specs::CondTexts::member_at))]
fn read_member(
    alloc: Global,
    fields: &CondFieldList,
    field: u8,
    nodes: u16,
    front: &Row,
    cursor: &mut Cursor,
) -> Result<Val, ReadFault>
    requires within { field < length fields.now }
    requires nodes { nodes ≤ 1024 }
    ensures reads { ReadsOr (λ val. val) (member_at (slice_get fields.now field) nodes front.now) cursor.old cursor.new result }
    ensures few { OnOk result (nodes + length front.now < 1024) }
{
    let at = cursor.at();
    let val = cursor.val(alloc)?;
    let suiting = suits(fields.at(field as u64), &val) && front.len() < 1024 - nodes as u64;
    Ok(kept(at, val, suiting)?)
}

#[tactic(auto, unfolding(crate::specs::CondTexts::member_count_at))]
fn read_member_count(cursor: &mut Cursor) -> Result<u16, Damaged>
    ensures { Reads (λ count. count) member_count_at cursor.old cursor.new result }
{
    let at = cursor.at();
    let count = cursor.u16()?;
    kept(at, count, 1 <= count)
}

#[tactic(auto, using(ts_wire::proofs::Loop::items_loop))]
fn read_counted_members(
    alloc: Global,
    fields: &CondFieldList,
    field: u8,
    nodes: u16,
    count: u16,
    cursor: &mut Cursor,
) -> Result<Row, ReadFault>
    requires within { field < length fields.now }
    requires nodes { nodes ≤ 1024 }
    ensures reads { ReadsOr (λ vals. vals) (items_at (member_at (slice_get fields.now field) nodes) count []) cursor.old cursor.new result }
    ensures few { IfOk result (λ vals. nodes + length vals ≤ 1024) }
{
    let mut vals = Row::new(alloc);
    for place in 0..count {
        let val = read_member(alloc, fields, field, nodes, &vals, cursor)?;
        vals.push(val)?;
    }
    Ok(vals)
}

// Reads the values of a membership, where so many nodes and values stand before them.
#[tactic(auto, unfolding(crate::specs::CondTexts::members_at))]
fn read_members(
    alloc: Global,
    fields: &CondFieldList,
    field: u8,
    nodes: u16,
    cursor: &mut Cursor,
) -> Result<Row, ReadFault>
    requires within { field < length fields.now }
    requires nodes { nodes ≤ 1024 }
    ensures reads { ReadsOr (λ vals. vals) (members_at (slice_get fields.now field) nodes) cursor.old cursor.new result }
    ensures few { IfOk result (λ vals. nodes + length vals ≤ 1024) }
{
    let count = read_member_count(cursor)?;
    read_counted_members(alloc, fields, field, nodes, count, cursor)
}

/// Reads a comparison behind its tag.
#[tactic(auto, unfolding(crate::specs::CondTexts::compare_at))]
pub fn read_compare(
    alloc: Global,
    fields: &CondFieldList,
    walked: &mut Walked,
    cursor: &mut Cursor,
) -> Result<CondNode, ReadFault>
    requires fields { length fields.now ≤ 72 }
    ensures reads { ReadsOr test_of (compare_at fields.now walked.old.named) cursor.old cursor.new result }
    ensures named { IfOk result (λ node. walked.new.named ≡ named_by walked.old.named (indexes (test_of node))) }
    ensures nodes { IfOk result (λ node. walked.new.nodes + 1 ≡ walked.old.nodes + nodes_of (test_of node)) }
    ensures last { IfOk result (λ node. walked.new.last + 1 ≡ cursor.old.at + last_index (test_of node)) }
    ensures same { walked.new.nodes ≡ walked.old.nodes }
{
    let op = read_op(cursor)?;
    let field = read_index(fields, walked, cursor)?;
    let val = read_operand(alloc, fields, field, cursor)?;
    Ok(CondNode::Compare { op, field, val })
}

/// Reads a membership behind its tag.
#[tactic(auto, unfolding(crate::specs::CondTexts::membership_at))]
pub fn read_membership(
    alloc: Global,
    fields: &CondFieldList,
    walked: &mut Walked,
    cursor: &mut Cursor,
) -> Result<CondNode, ReadFault>
    requires fields { length fields.now ≤ 72 }
    requires nodes { walked.old.nodes ≤ 1024 }
    ensures reads { ReadsOr test_of (membership_at fields.now (walk walked.old.named walked.old.nodes)) cursor.old cursor.new result }
    ensures named { IfOk result (λ node. walked.new.named ≡ named_by walked.old.named (indexes (test_of node))) }
    ensures nodes { IfOk result (λ node. walked.new.nodes + 1 ≡ walked.old.nodes + nodes_of (test_of node)) }
    ensures last { IfOk result (λ node. walked.new.last + 1 ≡ cursor.old.at + last_index (test_of node)) }
    ensures few { OnOk result (walked.new.nodes ≤ 1024) }
{
    let negated = cursor.bool()?;
    let field = read_index(fields, walked, cursor)?;
    let vals = read_members(alloc, fields, field, walked.nodes, cursor)?;
    walked.nodes += vals.len() as u16;
    Ok(CondNode::Member {
        negated,
        field,
        vals,
    })
}

/// Reads a test for null behind its tag.
#[tactic(auto, unfolding(crate::specs::CondTexts::null_at))]
pub fn read_null(
    fields: &CondFieldList,
    walked: &mut Walked,
    cursor: &mut Cursor,
) -> Result<CondNode, Damaged>
    requires fields { length fields.now ≤ 72 }
    ensures reads { Reads test_of (null_at fields.now walked.old.named) cursor.old cursor.new result }
    ensures named { IfOk result (λ node. walked.new.named ≡ named_by walked.old.named (indexes (test_of node))) }
    ensures nodes { IfOk result (λ node. walked.new.nodes + 1 ≡ walked.old.nodes + nodes_of (test_of node)) }
    ensures last { IfOk result (λ node. walked.new.last + 1 ≡ cursor.old.at + last_index (test_of node)) }
    ensures same { walked.new.nodes ≡ walked.old.nodes }
{
    let field = read_index(fields, walked, cursor)?;
    Ok(CondNode::IsNull { field })
}
