//! Which versions of a batch match a condition, asked of all of them at once.
ghost use Rattle.std.specs.Prelude.{◌≡◌, map, get_or, length, false, IfOk, IfSome, OnOk, not, ◌<◌, ◌&&◌};
ghost use Rattle.std.specs.List.{list_all, list_any};
ghost use Rattle.ts_cond.specs.Views.{test_of};
ghost use Rattle.ts_table.specs.Widths.{numbers_seen};
ghost use Rattle.ts_match.specs.Matching.{matches_at};
ghost use Rattle.ts_match.specs.Keeping.{holds_at, AreIntegers, AreKept, ArePicked};

use crate::comparing::keep_compared;
use crate::matching::{Sight, node_holds};
use std::alloc::Global;
use ts_base::{OutOfMemory, Val};
use ts_batch::{Batch, BatchCell};
use ts_cond::{Cond, CondField, CondNode, Pick, PickList};
use ts_table::Integers;

/// For each version of a batch whether it matches a condition, as [`crate::matches_cell`] says.
///
/// A comparison of an attribute that has a column of integers goes over the column, and what else is
/// asked goes from cell to cell. It takes a byte for each version, one more inside each negation, and two
/// more inside each list of alternatives.
pub fn matches_all(
    alloc: Global,
    condition: &Cond,
    picks: &PickList,
    cells: &Batch,
) -> Result<Vec<bool>, OutOfMemory>
    ensures { IfOk result (λ found. found.items ≡ map (matches_at picks.now condition.now) cells.now) }
{
    let mut kept = vec![in alloc; true; cells.len() as usize]?;
    let view = View {
        picks: picks.as_slice(),
        fields: condition.fields.as_slice(),
        cells,
    };
    keep(alloc, &condition.root, &view, kept.as_mut_slice())?;
    Ok(kept)
}

// What a condition sees of the versions of a batch.
#[derive(Drop)]
struct View<'a> {
    picks: &'a [Pick],
    fields: &'a [CondField],
    cells: &'a Batch,
}

// Of the places that are kept, keeps those where a node holds. The calls nest as high as the node is:
// see `CondNode`.
#[cycle(keeps)]
fn keep(alloc: Global, node: &CondNode, view: &View, kept: &mut [bool]) -> Result<(), OutOfMemory>
    requires { length kept.old ≡ length view.now.cells.now }
    ensures { OnOk result (AreKept (holds_at view.now (test_of node.now)) kept.old kept.new) }
{
    match node {
        CondNode::All(nodes) => keep_all(alloc, nodes.as_slice(), view, kept),
        CondNode::Any(nodes) => keep_any(alloc, nodes.as_slice(), view, kept),
        CondNode::Not(inner) => leave_out(alloc, inner.get(), view, kept),
        _ => {
            keep_leaf(node, view, kept);
            Ok(())
        }
    }
}

// Of the places that are kept, keeps those where each of these nodes holds.
#[cycle(keeps)]
fn keep_all(
    alloc: Global,
    nodes: &[CondNode],
    view: &View,
    kept: &mut [bool],
) -> Result<(), OutOfMemory>
    requires { length kept.old ≡ length view.now.cells.now }
    ensures { OnOk result (AreKept (λ place. list_all (λ node. holds_at view.now (test_of node) place) nodes.now) kept.old kept.new) }
{
    for node in nodes {
        keep(alloc, node, view, kept)?;
    }
    Ok(())
}

// Of the places that are kept, keeps those where one of these nodes holds, or more.
#[cycle(keeps)]
fn keep_any(
    alloc: Global,
    nodes: &[CondNode],
    view: &View,
    kept: &mut [bool],
) -> Result<(), OutOfMemory>
    requires { length kept.old ≡ length view.now.cells.now }
    ensures { OnOk result (AreKept (λ place. list_any (λ node. holds_at view.now (test_of node) place) nodes.now) kept.old kept.new) }
{
    let mut left = copied(alloc, kept)?;
    for node in nodes {
        leave_out(alloc, node, view, left.as_mut_slice())?;
    }
    drop_those(kept, left.as_slice());
    Ok(())
}

// Of the places that are kept, leaves out those where a node holds.
#[cycle(keeps)]
fn leave_out(
    alloc: Global,
    node: &CondNode,
    view: &View,
    kept: &mut [bool],
) -> Result<(), OutOfMemory>
    requires { length kept.old ≡ length view.now.cells.now }
    ensures { OnOk result (AreKept (λ place. not (holds_at view.now (test_of node.now) place)) kept.old kept.new) }
{
    let mut holding = copied(alloc, kept)?;
    keep(alloc, node, view, holding.as_mut_slice())?;
    drop_those(kept, holding.as_slice());
    Ok(())
}

// The same list once more.
fn copied(alloc: Global, kept: &[bool]) -> Result<Vec<bool>, OutOfMemory>
    ensures { IfOk result (λ list. list.items ≡ kept.now) }
{
    let mut list = Vec::with_capacity(alloc, kept.len())?;
    list.extend_from_slice(kept)?;
    Ok(list)
}

// Of the places that are kept, leaves out those that others keep.
#[tactic(auto, using(crate::proofs::Kept::steps))]
fn drop_those(kept: &mut [bool], others: &[bool])
    requires { length others.now ≡ length kept.old }
    ensures { AreKept (λ place. not (get_or others.now place false)) kept.old kept.new }
{
    for place in 0..kept.len() {
        kept[place] = kept[place] & !others[place];
    }
}

// Of the places that are kept, keeps those where a node holds that has no nodes in it.
fn keep_leaf(node: &CondNode, view: &View, kept: &mut [bool])
    requires { length kept.old ≡ length view.now.cells.now }
    ensures { AreKept (holds_at view.now (test_of node.now)) kept.old kept.new }
{
    if let CondNode::Compare {
        op,
        field,
        val: Val::Int(bound),
    } = node
    {
        if let Some(numbers) = integers_of(view, *field) {
            keep_compared(*op, bound, numbers, kept);
            return;
        }
    }
    keep_each(node, view, kept);
}

// Of the places that are kept, keeps those where a node holds, asked cell by cell.
#[tactic(auto, using(crate::proofs::Kept::steps))]
fn keep_each(node: &CondNode, view: &View, kept: &mut [bool])
    requires { length kept.old ≡ length view.now.cells.now }
    ensures { AreKept (holds_at view.now (test_of node.now)) kept.old kept.new }
{
    for place in 0..kept.len() {
        kept[place] = stays(kept[place], node, view, place as u64);
    }
}

// Whether a place stays kept: it is kept, and the node holds of the version there.
fn stays(kept: bool, node: &CondNode, view: &View, place: u64) -> bool
    requires { place < length view.now.cells.now }
    ensures { result ≡ (kept && holds_at view.now (test_of node.now) place) }
{
    kept && is_held(node, view, place)
}

// Whether a node holds of the version at a place.
#[tactic(auto, unfolding(crate::specs::Keeping::value_at, crate::specs::Sights::value_in))]
fn is_held(node: &CondNode, view: &View, place: u64) -> bool
    requires { place < length view.now.cells.now }
    ensures { result ≡ holds_at view.now (test_of node.now) place }
{
    node_holds(
        node,
        &Sight {
            picks: view.picks,
            fields: view.fields,
            cell: &BatchCell::of(view.cells, place),
        },
    )
}

// The values of a field at all versions, if there is a column of integers of 64 bits.
#[tactic(auto, using(crate::proofs::Kept::finds), unfolding(crate::specs::Keeping::value_at))]
fn integers_of<'a>(view: &View<'a>, field: u8) -> Option<Integers<'a>>
    ensures { IfSome result (λ numbers. AreIntegers view.now field (numbers_seen numbers)) }
{
    let place = field as usize;
    if place < view.picks.len() && place < view.fields.len() {
        picked_integers(&view.picks[place], view.cells)
    } else {
        None
    }
}

// The values that a pick finds, if there is a column of integers of 64 bits.
#[tactic(auto, using(crate::proofs::Kept::finds))]
fn picked_integers<'a>(pick: &Pick, cells: &'a Batch) -> Option<Integers<'a>>
    ensures { IfSome result (λ numbers. ArePicked pick.now cells.now (numbers_seen numbers)) }
{
    match pick {
        Pick::Attr(attr) => match cells.vals(*attr as u64) {
            Some(column) => column.as_integers(),
            None => None,
        },
        _ => None,
    }
}
