//! Writing the object of a condition.
ghost use Rattle.std.specs.Prelude.{◌≡◌, ◌++◌, length, IfOk, OnOk};
ghost use Rattle.std.specs.List.{flat_map};
ghost use Rattle.ts_wire.specs.Numbers.{number_bytes};
ghost use Rattle.ts_wire.specs.Fields.{bool_bytes, val_bytes};
ghost use Rattle.ts_cond.specs.CondTexts.{dim_code, dim_bytes, field_bytes, fields_bytes, tag_bytes, op_bytes, node_bytes, cond_object};
ghost use Rattle.ts_cond.specs.declared.tags.Tag.TheVariants.{NotOf, Comparing, Membership, Nullness};
ghost use Rattle.ts_cond.specs.Views.{test_of};

use crate::cond::Cond;
use crate::fields::{CondField, CondFieldList};
use crate::nodes::{CondNode, CondOp};
use crate::tags::{Tag, write_op, write_tag};
use std::alloc::Global;
use ts_base::{ByteList, OutOfMemory, Val};
use ts_schema::write_type;
use ts_wire::{Kind, Scribe};

/// The object that spells the condition.
#[tactic(auto, unfolding(crate::specs::CondTexts::cond_object, crate::specs::CondTexts::cond_bytes))]
pub fn write_cond(alloc: Global, cond: &Cond) -> Result<ByteList, OutOfMemory>
    ensures { IfOk result (λ object. object ≡ cond_object cond.now) }
{
    let mut scribe = Scribe::new(alloc);
    write_fields(&mut scribe, &cond.fields)?;
    write_node(&mut scribe, &cond.root)?;
    scribe.into_object(Kind::Delete)
}

#[tactic(auto, unfolding(crate::specs::CondTexts::fields_bytes))]
fn write_fields(scribe: &mut Scribe, fields: &CondFieldList) -> Result<(), OutOfMemory>
    ensures { OnOk result (scribe.new ≡ scribe.old ++ fields_bytes fields.now) }
{
    write_field_count(scribe, fields.len())?;
    for field in fields.as_slice() {
        write_field(scribe, field)?;
    }
    Ok(())
}

// The number of fields in one byte. A condition has 72 at most; of a greater number the byte is the
// lowest one.
#[tactic(auto, using(ts_schema::proofs::Counts::lowest_byte))]
fn write_field_count(scribe: &mut Scribe, count: u64) -> Result<(), OutOfMemory>
    ensures { OnOk result (scribe.new ≡ scribe.old ++ number_bytes 1 count) }
{
    scribe.u8((count % 256) as u8)
}

#[tactic(auto, unfolding(crate::specs::CondTexts::field_bytes))]
fn write_field(scribe: &mut Scribe, field: &CondField) -> Result<(), OutOfMemory>
    ensures { OnOk result (scribe.new ≡ scribe.old ++ field_bytes field.now) }
{
    scribe.label(&field.name)?;
    write_dim(scribe, field.dim)?;
    write_type(scribe, field.ty)?;
    scribe.bool(field.nullable)?;
    scribe.val(&field.fill)
}

#[tactic(auto, unfolding(crate::specs::CondTexts::dim_bytes))]
fn write_dim(scribe: &mut Scribe, dim: Option<u8>) -> Result<(), OutOfMemory>
    ensures { OnOk result (scribe.new ≡ scribe.old ++ dim_bytes dim) }
{
    scribe.u8(dim_code(dim))
}

fn dim_code(dim: Option<u8>) -> u8
    ensures { result ≡ dim_code dim }
{
    match dim {
        None => 255,
        Some(dim) => dim,
    }
}

// Writes a node. The calls nest as high as the node is: see `CondNode`.
#[cycle(spelled)]
fn write_node(scribe: &mut Scribe, node: &CondNode) -> Result<(), OutOfMemory>
    ensures { OnOk result (scribe.new ≡ scribe.old ++ node_bytes (test_of node.now)) }
{
    match node {
        CondNode::All(nodes) => write_list(scribe, Tag::AllOf, nodes.as_slice()),
        CondNode::Any(nodes) => write_list(scribe, Tag::AnyOf, nodes.as_slice()),
        CondNode::Not(inner) => write_not(scribe, inner.get()),
        CondNode::Compare { op, field, val } => write_compare(scribe, *op, *field, val),
        CondNode::Member {
            negated,
            field,
            vals,
        } => write_member(scribe, *negated, *field, vals.as_slice()),
        CondNode::IsNull { field } => write_null(scribe, *field),
    }
}

#[cycle(spelled)]
fn write_list(scribe: &mut Scribe, tag: Tag, nodes: &[CondNode]) -> Result<(), OutOfMemory>
    ensures { OnOk result (scribe.new ≡ scribe.old ++ (tag_bytes tag ++ (number_bytes 2 (length nodes.now) ++ flat_map (λ node. node_bytes (test_of node)) nodes.now))) }
{
    write_tag(scribe, tag)?;
    write_count(scribe, nodes.len() as u64)?;
    for node in nodes {
        write_node(scribe, node)?;
    }
    Ok(())
}

#[cycle(spelled)]
fn write_not(scribe: &mut Scribe, inner: &CondNode) -> Result<(), OutOfMemory>
    ensures { OnOk result (scribe.new ≡ scribe.old ++ (tag_bytes NotOf ++ node_bytes (test_of inner.now))) }
{
    write_tag(scribe, Tag::NotOf)?;
    write_node(scribe, inner)
}

// The number of nodes or values of a list in two bytes. Those of a condition have fewer than 1,024;
// of a greater number the bytes are the lowest two.
#[tactic(auto, using(crate::proofs::Counts::lowest_bytes))]
fn write_count(scribe: &mut Scribe, count: u64) -> Result<(), OutOfMemory>
    ensures { OnOk result (scribe.new ≡ scribe.old ++ number_bytes 2 count) }
{
    scribe.u16((count % 65536) as u16)
}

fn write_compare(scribe: &mut Scribe, op: CondOp, field: u8, val: &Val) -> Result<(), OutOfMemory>
    ensures { OnOk result (scribe.new ≡ scribe.old ++ (tag_bytes Comparing ++ (op_bytes op ++ (number_bytes 1 field ++ val_bytes val.now)))) }
{
    write_tag(scribe, Tag::Comparing)?;
    write_op(scribe, op)?;
    scribe.u8(field)?;
    scribe.val(val)
}

fn write_member(
    scribe: &mut Scribe,
    negated: bool,
    field: u8,
    vals: &[Val],
) -> Result<(), OutOfMemory>
    ensures { OnOk result (scribe.new ≡ scribe.old ++ (tag_bytes Membership ++ (bool_bytes negated ++ (number_bytes 1 field ++ (number_bytes 2 (length vals.now) ++ flat_map val_bytes vals.now))))) }
{
    write_tag(scribe, Tag::Membership)?;
    scribe.bool(negated)?;
    scribe.u8(field)?;
    write_vals(scribe, vals)
}

fn write_vals(scribe: &mut Scribe, vals: &[Val]) -> Result<(), OutOfMemory>
    ensures { OnOk result (scribe.new ≡ scribe.old ++ (number_bytes 2 (length vals.now) ++ flat_map val_bytes vals.now)) }
{
    write_count(scribe, vals.len() as u64)?;
    for val in vals {
        scribe.val(val)?;
    }
    Ok(())
}

fn write_null(scribe: &mut Scribe, field: u8) -> Result<(), OutOfMemory>
    ensures { OnOk result (scribe.new ≡ scribe.old ++ (tag_bytes Nullness ++ number_bytes 1 field)) }
{
    write_tag(scribe, Tag::Nullness)?;
    scribe.u8(field)
}
