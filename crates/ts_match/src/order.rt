//! The order of values that are seen in their places.
ghost use Rattle.std.specs.Prelude.{◌≡◌};
ghost use Rattle.ts_table.specs.Columns.{val_seen};
ghost use Rattle.ts_value.specs.Order.{val_cmp};

use std::cmp::Ordering;
use ts_base::Val;
use ts_table::Seen;

/// How a value that is seen in its place stands to another value, in the order of values: see
/// [`ts_value::compare`]. It takes no memory.
pub(crate) fn compare_seen(seen: &Seen, val: &Val) -> Ordering
    ensures { result ≡ val_cmp (val_seen seen.now) val.now }
{
    match seen {
        Seen::Null => match val {
            Val::Null => Ordering::Equal,
            _ => Ordering::Less,
        },
        Seen::Int(x) => match val {
            Val::Null => Ordering::Greater,
            Val::Int(y) => x.cmp(y),
            Val::Bytes(_) => Ordering::Less,
        },
        Seen::Bytes(xs) => match val {
            Val::Bytes(ys) => xs.cmp(&ys.as_slice()),
            _ => Ordering::Greater,
        },
    }
}
