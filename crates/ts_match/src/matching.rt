//! Which cells match a condition.
ghost use Rattle.std.specs.Prelude.{◌≡◌, List};
ghost use Rattle.std.specs.List.{list_all, list_any};
ghost use Rattle.ts_cond.specs.declared.fields.CondField.{CondField as AnyField};
ghost use Rattle.ts_cond.specs.Holds.{holds, is_null, passes, compares, is_one_of, is_member};
ghost use Rattle.ts_cond.specs.Picks.{matches, picks_of, picked, picked_value};
ghost use Rattle.ts_cond.specs.Views.{test_of};
ghost use Rattle.ts_match.specs.Sights.{value_in};
ghost use Rattle.ts_table.specs.Columns.{val_seen};
ghost use Rattle.ts_value.specs.Order.{val_cmp};

use crate::order::compare_seen;
use std::cmp::Ordering;
use ts_base::Val;
use ts_batch::{BatchCell, seen_of};
use ts_cond::{Cond, CondField, CondNode, CondOp, Pick, PickList};
use ts_table::Seen;

/// Whether a cell in its place matches a condition, where `picks` says where each field's value is
/// found, as [`Cond::bind`] tells for the attributes of the row.
///
/// A null satisfies `is null` alone: every comparison and every membership test on it is false,
/// also `!=` and `not in`. `not` is plain negation. A dimension that the coordinates lack counts as
/// its recorded fill. It takes no memory.
#[tactic(auto, unfolding(crate::specs::Sights::value_in))]
pub fn matches_cell(condition: &Cond, picks: &PickList, cell: &BatchCell) -> bool
    ensures picked { result ≡ holds (picked_value picks.now condition.now.fields cell.now.coords cell.now.row) condition.now.root }
    ensures matches { (attrs : List AnyField) → picks.now ≡ picks_of attrs condition.now.fields → result ≡ matches condition.now cell.now.coords attrs cell.now.row }
{
    node_holds(
        &condition.root,
        &Sight {
            picks: picks.as_slice(),
            fields: condition.fields.as_slice(),
            cell,
        },
    )
}

/// What a condition sees of a cell.
#[derive(Drop)]
pub(crate) struct Sight<'a> {
    pub(crate) picks: &'a [Pick],
    pub(crate) fields: &'a [CondField],
    pub(crate) cell: &'a BatchCell<'a>,
}

/// Whether a node holds of a cell. The calls nest as high as the node is: see `CondNode`.
#[cycle(sizes)]
pub(crate) fn node_holds(node: &CondNode, sight: &Sight) -> bool
    ensures { result ≡ holds (value_in sight.now) (test_of node.now) }
{
    match node {
        CondNode::All(nodes) => all_hold(nodes.as_slice(), sight),
        CondNode::Any(nodes) => any_holds(nodes.as_slice(), sight),
        CondNode::Not(inner) => !node_holds(inner.get(), sight),
        CondNode::Compare { op, field, val } => compares(*op, &seen_at(sight, *field), val),
        CondNode::Member {
            negated,
            field,
            vals,
        } => is_member(*negated, &seen_at(sight, *field), vals.as_slice()),
        CondNode::IsNull { field } => is_null(&seen_at(sight, *field)),
    }
}

#[cycle(sizes)]
fn all_hold(nodes: &[CondNode], sight: &Sight) -> bool
    ensures { result ≡ list_all (λ node. holds (value_in sight.now) (test_of node)) nodes.now }
{
    for node in nodes {
        if !node_holds(node, sight) {
            return false;
        }
    }
    true
}

#[cycle(sizes)]
fn any_holds(nodes: &[CondNode], sight: &Sight) -> bool
    ensures { result ≡ list_any (λ node. holds (value_in sight.now) (test_of node)) nodes.now }
{
    for node in nodes {
        if node_holds(node, sight) {
            return true;
        }
    }
    false
}

// The value of a field, which is null where there is no such field.
#[tactic(auto, unfolding(crate::specs::Sights::value_in))]
fn seen_at<'a>(sight: &Sight<'a>, field: u8) -> Seen<'a>
    ensures { val_seen result ≡ value_in sight.now field }
{
    let place = field as usize;
    if place < sight.picks.len() && place < sight.fields.len() {
        seen_by(&sight.picks[place], &sight.fields[place], sight.cell)
    } else {
        Seen::Null
    }
}

fn seen_by<'a>(pick: &'a Pick, field: &'a CondField, cell: &'a BatchCell<'a>) -> Seen<'a>
    ensures { val_seen result ≡ picked pick.now field.now cell.now.coords cell.now.row }
{
    match pick {
        Pick::Coord(dim) => match cell.coord(*dim) {
            Some(coordinate) => Seen::Int(coordinate),
            None => seen_of(&field.fill),
        },
        Pick::Attr(place) => match cell.val(*place as u64) {
            Some(seen) => seen,
            None => seen_of(&field.fill),
        },
        Pick::Fill(val) => seen_of(val),
    }
}

fn is_null(seen: &Seen) -> bool
    ensures { result ≡ is_null (val_seen seen.now) }
{
    matches!(seen, Seen::Null)
}

/// Whether two values that stand so to each other pass a comparison.
pub(crate) fn passes(op: CondOp, order: Ordering) -> bool
    ensures { result ≡ passes op order }
{
    match op {
        CondOp::Less => order.is_lt(),
        CondOp::AtMost => order.is_le(),
        CondOp::Greater => order.is_gt(),
        CondOp::AtLeast => order.is_ge(),
        CondOp::Equal => order.is_eq(),
        CondOp::Unequal => order.is_ne(),
    }
}

fn compares(op: CondOp, seen: &Seen, val: &Val) -> bool
    ensures { result ≡ compares op (val_seen seen.now) val.now }
{
    !is_null(seen) && passes(op, compare_seen(seen, val))
}

fn is_one_of(seen: &Seen, vals: &[Val]) -> bool
    ensures { result ≡ is_one_of (val_seen seen.now) vals.now }
{
    for val in vals {
        if compare_seen(seen, val).is_eq() {
            return true;
        }
    }
    false
}

fn is_member(negated: bool, seen: &Seen, vals: &[Val]) -> bool
    ensures { result ≡ is_member negated (val_seen seen.now) vals.now }
{
    !is_null(seen) && is_one_of(seen, vals) != negated
}
