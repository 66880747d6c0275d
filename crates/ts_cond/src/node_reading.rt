//! Reading the nodes of a condition's tree, one in another.
ghost use Rattle.std.specs.Prelude.{◌≡◌, ◌+◌, ◌<◌, ◌≤◌, [], length, map, IfOk, OnOk};
ghost use Rattle.ts_wire.specs.Place.{items_at};
ghost use Rattle.ts_wire.specs.Reading.{Reads, ReadsOr};
ghost use Rattle.ts_cond.specs.CondTexts.{indexes, all_indexes, nodes_of, all_nodes, last_index, last_of, named_by, list_count_at, nodes_at, untagged_at, node_at, walk, past_all};
ghost use Rattle.ts_cond.specs.Machine.{tests_from};
ghost use Rattle.ts_cond.specs.Tests as tree;
ghost use Rattle.ts_cond.specs.Views.{test_of};

use crate::bytes::has_bytes;
use crate::fields::CondFieldList;
use crate::nodes::{CondNode, NodeList};
use crate::tags::{Tag, read_tag};
use crate::tree_reading::{Walked, read_compare, read_membership, read_null};
use std::alloc::Global;
use ts_base::{Boxed, OutOfMemory};
use ts_wire::{Cursor, Damaged, ReadFault, kept};

/// Reads a node that is so high at most, and the nodes in it.
#[cycle(walking)]
#[tactic(auto, using(crate::proofs::NodeSteps::node_none, crate::proofs::NodeSteps::node_stop, crate::proofs::NodeSteps::node_on))]
pub fn read_node(
    alloc: Global,
    fields: &CondFieldList,
    most: u8,
    walked: &mut Walked,
    cursor: &mut Cursor,
) -> Result<CondNode, ReadFault>
    requires fields { length fields.now ≤ 72 }
    requires nodes { walked.old.nodes ≤ 1024 }
    ensures reads { ReadsOr test_of (node_at fields.now most (walk walked.old.named walked.old.nodes)) cursor.old cursor.new result }
    ensures named { IfOk result (λ node. walked.new.named ≡ named_by walked.old.named (indexes (test_of node))) }
    ensures nodes { IfOk result (λ node. walked.new.nodes ≡ walked.old.nodes + nodes_of (test_of node)) }
    ensures last { IfOk result (λ node. walked.new.last ≡ cursor.old.at + last_index (test_of node)) }
    ensures few { OnOk result (walked.new.nodes ≤ 1024) }
{
    let at = cursor.at();
    if most == 0 {
        return Err(ReadFault::Damaged(Damaged { at }));
    }
    let tag = read_tag(cursor, walked.nodes)?;
    walked.nodes += 1;
    read_untagged(alloc, fields, most - 1, tag, walked, cursor)
}

fn all_node(nodes: NodeList) -> CondNode
    ensures { test_of result ≡ tree.All (tests_from (map test_of nodes)) }
{
    CondNode::All(nodes)
}

fn any_node(nodes: NodeList) -> CondNode
    ensures { test_of result ≡ tree.Any (tests_from (map test_of nodes)) }
{
    CondNode::Any(nodes)
}

fn not_node(alloc: Global, inner: CondNode) -> Result<CondNode, OutOfMemory>
    ensures { IfOk result (λ node. test_of node ≡ tree.Not (test_of inner)) }
{
    Ok(CondNode::Not(Boxed::new(alloc, inner)?))
}

// Reads what stands behind the tag of a node, whose nodes are so high at most.
#[cycle(walking)]
#[tactic(auto, unfolding(crate::specs::CondTexts::untagged_at))]
fn read_untagged(
    alloc: Global,
    fields: &CondFieldList,
    most: u8,
    tag: Tag,
    walked: &mut Walked,
    cursor: &mut Cursor,
) -> Result<CondNode, ReadFault>
    requires fields { length fields.now ≤ 72 }
    requires nodes { walked.old.nodes ≤ 1024 }
    ensures reads { ReadsOr test_of (untagged_at fields.now (λ w. node_at fields.now most w) (walk walked.old.named walked.old.nodes) tag) cursor.old cursor.new result }
    ensures named { IfOk result (λ node. walked.new.named ≡ named_by walked.old.named (indexes (test_of node))) }
    ensures nodes { IfOk result (λ node. walked.new.nodes + 1 ≡ walked.old.nodes + nodes_of (test_of node)) }
    ensures last { IfOk result (λ node. walked.new.last + 1 ≡ cursor.old.at + last_index (test_of node)) }
    ensures few { OnOk result (walked.new.nodes ≤ 1024) }
{
    match tag {
        Tag::AllOf => {
            let nodes = read_list(alloc, fields, most, walked, cursor)?;
            Ok(all_node(nodes))
        }
        Tag::AnyOf => {
            let nodes = read_list(alloc, fields, most, walked, cursor)?;
            Ok(any_node(nodes))
        }
        Tag::NotOf => {
            let inner = read_node(alloc, fields, most, walked, cursor)?;
            Ok(not_node(alloc, inner)?)
        }
        Tag::Comparing => read_compare(alloc, fields, walked, cursor),
        Tag::Membership => read_membership(alloc, fields, walked, cursor),
        Tag::Nullness => Ok(read_null(fields, walked, cursor)?),
    }
}

// Reads the number of the nodes of a list, and then the nodes.
#[cycle(walking)]
#[tactic(auto, unfolding(crate::specs::CondTexts::nodes_at))]
fn read_list(
    alloc: Global,
    fields: &CondFieldList,
    most: u8,
    walked: &mut Walked,
    cursor: &mut Cursor,
) -> Result<NodeList, ReadFault>
    requires fields { length fields.now ≤ 72 }
    requires nodes { walked.old.nodes ≤ 1024 }
    ensures reads { ReadsOr (map test_of) (nodes_at (λ w. node_at fields.now most w) (walk walked.old.named walked.old.nodes)) cursor.old cursor.new result }
    ensures named { IfOk result (λ nodes. walked.new.named ≡ named_by walked.old.named (all_indexes (tests_from (map test_of nodes)))) }
    ensures nodes { IfOk result (λ nodes. walked.new.nodes ≡ walked.old.nodes + all_nodes (tests_from (map test_of nodes))) }
    ensures last { IfOk result (λ nodes. walked.new.last ≡ cursor.old.at + 2 + last_of (tests_from (map test_of nodes))) }
    ensures few { OnOk result (walked.new.nodes ≤ 1024) }
{
    let count = read_list_count(cursor)?;
    read_counted_nodes(alloc, fields, most, count, walked, cursor)
}

#[tactic(auto, unfolding(crate::specs::CondTexts::list_count_at))]
fn read_list_count(cursor: &mut Cursor) -> Result<u16, Damaged>
    ensures reads { Reads (λ count. count) list_count_at cursor.old cursor.new result }
    ensures moves { OnOk result (cursor.new.at ≡ cursor.old.at + 2) }
{
    let at = cursor.at();
    let count = cursor.u16()?;
    kept(at, count, 2 <= count)
}

#[cycle(walking)]
#[tactic(auto, using(ts_wire::proofs::Loop::items_loop))]
fn read_counted_nodes(
    alloc: Global,
    fields: &CondFieldList,
    most: u8,
    count: u16,
    walked: &mut Walked,
    cursor: &mut Cursor,
) -> Result<NodeList, ReadFault>
    requires fields { length fields.now ≤ 72 }
    requires nodes { walked.old.nodes ≤ 1024 }
    ensures reads { ReadsOr (map test_of) (items_at (λ front. node_at fields.now most (past_all (walk walked.old.named walked.old.nodes) front)) count []) cursor.old cursor.new result }
    ensures named { IfOk result (λ nodes. walked.new.named ≡ named_by walked.old.named (all_indexes (tests_from (map test_of nodes)))) }
    ensures nodes { IfOk result (λ nodes. walked.new.nodes ≡ walked.old.nodes + all_nodes (tests_from (map test_of nodes))) }
    ensures last { IfOk result (λ nodes. walked.new.last ≡ cursor.old.at + last_of (tests_from (map test_of nodes))) }
    ensures few { OnOk result (walked.new.nodes ≤ 1024) }
{
    let mut nodes = NodeList::new(alloc);
    walked.last = cursor.at();
    for place in 0..count {
        has_bytes(cursor.rest());
        let node = read_node(alloc, fields, most, walked, cursor)?;
        nodes.push(node)?;
    }
    Ok(nodes)
}
