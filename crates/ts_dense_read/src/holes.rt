//! Whether a slot may have the origin that is stored for it.
ghost use Rattle.std.specs.Prelude.{◌≡◌, ◌≤◌, ◌<◌, ◌||◌, not, List, length, get_or, All};
ghost use Rattle.ts_base.specs.declared.values.Val.{Val as AnyVal};
ghost use Rattle.ts_base.specs.declared.values.Val.TheVariants as val;
ghost use Rattle.ts_table.specs.Columns.{val_seen};
ghost use Rattle.ts_sparse_read.specs.TileReads.{is_among};
ghost use Rattle.ts_dense_read.specs.SlotReads.{is_of_hole, are_of_hole, may_be_slot};
ghost use Rattle.ts_dense_read.specs.SpaceTakes.{row_there};

use crate::opened::Opened;
use crate::slots::NO_ORIGIN;
use ts_schema::Attr;
use ts_sparse_read::is_among;
use ts_table::{Column, Seen};

/// Whether the slot at a place may have this origin: one of so many, or none, where its values are those
/// of a hole.
pub(crate) fn may_be_slot(
    opened: &Opened,
    entries: u32,
    vals: &[Column],
    place: u64,
    origin: u32,
) -> bool
    requires few { length opened.now.attrs ≤ 64 }
    requires within { All (λ (column : List AnyVal). place < length column) vals.now }
    ensures { result ≡ may_be_slot entries opened.now.want.attrs opened.now.attrs (row_there vals.now place) origin }
{
    if origin < entries {
        return true;
    }
    let (places, attrs) = (opened.want.attrs.as_slice(), opened.attrs.as_slice());
    origin == NO_ORIGIN && are_of_hole(places, attrs, vals, place)
}

// Whether the values at a place are those of a hole; one that is not read may be any.
#[tactic(auto, using(crate::proofs::HoleLaws::hole_steps))]
fn are_of_hole(places: &[u32], attrs: &[Attr], vals: &[Column], place: u64) -> bool
    requires few { length attrs.now ≤ 64 }
    requires within { All (λ (column : List AnyVal). place < length column) vals.now }
    ensures { result ≡ are_of_hole places.now 0 attrs.now (row_there vals.now place) }
{
    let count = attrs.len().min(vals.len());
    for attr in 0..count {
        if !may_be_of_hole(places, attr as u8, &attrs[attr], &vals[attr], place) {
            return false;
        }
    }
    true
}

// Whether the value of an attribute at a place may be that of a hole.
fn may_be_of_hole(places: &[u32], attr: u8, form: &Attr, column: &Column, place: u64) -> bool
    requires { place < length column.now }
    ensures { result ≡ (not (is_among places.now attr) || is_of_hole form.now (get_or column.now place val.Null)) }
{
    !is_among(places, attr) || is_of_hole(form, column.at(place))
}

// Whether a value is the one that a hole has.
fn is_of_hole(attr: &Attr, seen: Seen<'_>) -> bool
    ensures { result ≡ is_of_hole attr.now (val_seen seen.entry) }
{
    match seen {
        Seen::Null => true,
        Seen::Int(number) => !attr.nullable && number == 0,
        Seen::Bytes(bytes) => !attr.nullable && bytes.is_empty(),
    }
}
