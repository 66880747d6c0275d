//! Which cells match a condition.
ghost use Rattle.std.specs.Prelude.{◌≡◌, List};
ghost use Rattle.ts_cond.specs.declared.fields.CondField.{CondField as AnyField};
ghost use Rattle.ts_cond.specs.Holds.{holds, is_null, passes, compares, is_one_of, is_member};
ghost use Rattle.ts_cond.specs.Picks.{matches, picks_of, picked, picked_value};
ghost use Rattle.ts_cond.specs.Seen.{seen_val, value_in};
ghost use Rattle.ts_cond.specs.Views.{test_of};
ghost use Rattle.ts_value.specs.Order.{val_cmp};
ghost use Rattle.std.specs.List.{list_all, list_any};

use crate::cond::Cond;
use crate::fields::{CondField, Pick, PickList};
use crate::nodes::{CondNode, CondOp};
use std::cmp::Ordering;
use ts_base::{Coords, Row, Val};
use ts_value::compare;

impl Cond {
    /// Whether a cell with these coordinates and this row matches, where `picks` says where each
    /// field's value is found, as [`Cond::bind`] tells for the attributes of the row.
    ///
    /// A null satisfies `is null` alone: every comparison and every membership test on it is false,
    /// also `!=` and `not in`. `not` is plain negation. A dimension that the coordinates lack
    /// counts as its recorded fill. It takes no memory.
    #[tactic(auto, unfolding(crate::specs::Seen::value_in))]
    pub fn matches(&self, picks: &PickList, coords: &Coords, row: &Row) -> bool
        ensures picked { result ≡ holds (picked_value picks.now self.now.fields coords.now row.now) self.now.root }
        ensures matches { (attrs : List AnyField) → picks.now ≡ picks_of attrs self.now.fields → result ≡ matches self.now coords.now attrs row.now }
    {
        node_holds(
            &self.root,
            &Sight {
                picks: picks.as_slice(),
                fields: self.fields.as_slice(),
                coords: coords.as_slice(),
                row: row.as_slice(),
            },
        )
    }
}

// What a condition sees of a cell.
#[derive(Drop)]
struct Sight<'a> {
    picks: &'a [Pick],
    fields: &'a [CondField],
    coords: &'a [i128],
    row: &'a [Val],
}

// The value of a field at a cell.
#[derive(Drop)]
enum Seen<'a> {
    Coordinate(i128),
    Stored(&'a Val),
    Nothing,
}

// Whether a node holds of a cell. The calls nest as high as the node is: see `CondNode`.
#[cycle(sizes)]
fn node_holds(node: &CondNode, sight: &Sight) -> bool
    ensures { result ≡ holds (value_in sight.now) (test_of node.now) }
{
    match node {
        CondNode::All(nodes) => all_hold(nodes.as_slice(), sight),
        CondNode::Any(nodes) => any_holds(nodes.as_slice(), sight),
        CondNode::Not(inner) => !node_holds(inner.get(), sight),
        CondNode::Compare { op, field, val } => compares(*op, &seen_at(sight, *field), val),
        CondNode::Member {
            negated,
            field,
            vals,
        } => is_member(*negated, &seen_at(sight, *field), vals.as_slice()),
        CondNode::IsNull { field } => is_null(&seen_at(sight, *field)),
    }
}

#[cycle(sizes)]
fn all_hold(nodes: &[CondNode], sight: &Sight) -> bool
    ensures { result ≡ list_all (λ node. holds (value_in sight.now) (test_of node)) nodes.now }
{
    for node in nodes {
        if !node_holds(node, sight) {
            return false;
        }
    }
    true
}

#[cycle(sizes)]
fn any_holds(nodes: &[CondNode], sight: &Sight) -> bool
    ensures { result ≡ list_any (λ node. holds (value_in sight.now) (test_of node)) nodes.now }
{
    for node in nodes {
        if node_holds(node, sight) {
            return true;
        }
    }
    false
}

#[tactic(auto, unfolding(crate::specs::Seen::value_in))]
fn seen_at<'a>(sight: &Sight<'a>, field: u8) -> Seen<'a>
    ensures { seen_val result ≡ value_in sight.now field }
{
    let place = field as usize;
    if place < sight.picks.len() && place < sight.fields.len() {
        seen_by(
            &sight.picks[place],
            &sight.fields[place],
            sight.coords,
            sight.row,
        )
    } else {
        Seen::Nothing
    }
}

fn seen_by<'a>(pick: &'a Pick, field: &'a CondField, coords: &[i128], row: &'a [Val]) -> Seen<'a>
    ensures { seen_val result ≡ picked pick.now field.now coords.now row.now }
{
    match pick {
        Pick::Coord(dim) => match coords.get(*dim as usize) {
            Some(coordinate) => Seen::Coordinate(*coordinate),
            None => Seen::Stored(&field.fill),
        },
        Pick::Attr(place) => match row.get(*place as usize) {
            Some(val) => Seen::Stored(val),
            None => Seen::Stored(&field.fill),
        },
        Pick::Fill(val) => Seen::Stored(val),
    }
}

fn is_null(seen: &Seen) -> bool
    ensures { result ≡ is_null (seen_val seen.now) }
{
    match seen {
        Seen::Coordinate(_) => false,
        Seen::Stored(val) => matches!(val, Val::Null),
        Seen::Nothing => true,
    }
}

fn order(seen: &Seen, val: &Val) -> Ordering
    ensures { result ≡ val_cmp (seen_val seen.now) val.now }
{
    match seen {
        Seen::Coordinate(coordinate) => compare(&Val::Int(*coordinate), val),
        Seen::Stored(seen) => compare(seen, val),
        Seen::Nothing => compare(&Val::Null, val),
    }
}

fn passes(op: CondOp, order: Ordering) -> bool
    ensures { result ≡ passes op order }
{
    match op {
        CondOp::Less => order.is_lt(),
        CondOp::AtMost => order.is_le(),
        CondOp::Greater => order.is_gt(),
        CondOp::AtLeast => order.is_ge(),
        CondOp::Equal => order.is_eq(),
        CondOp::Unequal => order.is_ne(),
    }
}

fn compares(op: CondOp, seen: &Seen, val: &Val) -> bool
    ensures { result ≡ compares op (seen_val seen.now) val.now }
{
    !is_null(seen) && passes(op, order(seen, val))
}

fn is_one_of(seen: &Seen, vals: &[Val]) -> bool
    ensures { result ≡ is_one_of (seen_val seen.now) vals.now }
{
    for val in vals {
        if order(seen, val).is_eq() {
            return true;
        }
    }
    false
}

fn is_member(negated: bool, seen: &Seen, vals: &[Val]) -> bool
    ensures { result ≡ is_member negated (seen_val seen.now) vals.now }
{
    !is_null(seen) && is_one_of(seen, vals) != negated
}
