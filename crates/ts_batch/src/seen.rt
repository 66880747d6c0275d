//! Values of rows, seen in their places.
ghost use Rattle.std.specs.Prelude.{◌≡◌, slice_get, option_map};
ghost use Rattle.ts_table.specs.Columns.{val_seen};
ghost use Rattle.ts_batch.specs.Rows.{val_eq};

use ts_base::Val;
use ts_table::Seen;

/// A value, seen in its place.
pub fn seen_of(val: &Val) -> Seen<'_>
    ensures { val_seen result ≡ val.now }
{
    match val {
        Val::Null => Seen::Null,
        Val::Int(number) => Seen::Int(*number),
        Val::Bytes(bytes) => Seen::Bytes(bytes.as_slice()),
    }
}

/// The value at a place of a row, if there is one.
pub(crate) fn seen_in(row: &[Val], place: u64) -> Option<Seen<'_>>
    ensures { option_map val_seen result ≡ slice_get row.now place }
{
    match row.get(place as usize) {
        Some(val) => Some(seen_of(val)),
        None => None,
    }
}

/// Whether two values are the same.
pub(crate) fn is_same(first: &Seen, second: &Seen) -> bool
    ensures { result ≡ val_eq (val_seen first.now) (val_seen second.now) }
{
    match (first, second) {
        (Seen::Null, Seen::Null) => true,
        (Seen::Int(a), Seen::Int(b)) => a == b,
        (Seen::Bytes(a), Seen::Bytes(b)) => a == b,
        _ => false,
    }
}
