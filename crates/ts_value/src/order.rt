//! The order of values.
ghost use Rattle.std.specs.Prelude.{◌≡◌};
ghost use Rattle.std.specs.Cmp.{IsTotalOrder};
ghost use Rattle.std.specs.FinMap.{IsAntisymmetric};
ghost use Rattle.ts_value.specs.Order.{val_cmp};

use std::cmp::Ordering;
use ts_base::Val;

/// How two values stand in the order: null comes first, then the integers by number, then the
/// bytes of texts and blobs in dictionary order. It takes no memory.
pub fn compare(a: &Val, b: &Val) -> Ordering
    ensures { result ≡ val_cmp a.now b.now }
{
    match a {
        Val::Null => match b {
            Val::Null => Ordering::Equal,
            _ => Ordering::Less,
        },
        Val::Int(x) => match b {
            Val::Null => Ordering::Greater,
            Val::Int(y) => x.cmp(y),
            Val::Bytes(_) => Ordering::Less,
        },
        Val::Bytes(xs) => match b {
            Val::Bytes(ys) => xs.as_slice().cmp(&ys.as_slice()),
            _ => Ordering::Greater,
        },
    }
}

/// The order of values is a total order, and only equal values tie. The call itself does nothing.
pub fn values_are_ordered()
    ensures total { IsTotalOrder val_cmp }
    ensures exact { IsAntisymmetric val_cmp }
{}
