//! Versions in row order.
ghost use Rattle.std.specs.Prelude.{◌≡◌, ◌↔◌, IsTrue};
ghost use Rattle.std.specs.Cmp.Lexicographic.{slice_cmp};
ghost use Rattle.std.specs.List.Sorted.{IsStrictlySortedBy};
ghost use Rattle.std.specs.Ordering.{int_cmp};
ghost use Rattle.ts_base.specs.declared.heads.Version.{Version as AnyVersion};

use std::cmp::Ordering;
use ts_batch::BatchCell;

/// How two versions stand in row order. It takes no memory.
pub(crate) fn compare(version: &BatchCell, other: &BatchCell) -> Ordering
    ensures { result ≡ slice_cmp int_cmp version.now.coords other.now.coords }
{
    for dim in 0..8 {
        let number = version.coord(dim);
        let against = other.coord(dim);
        match number.cmp(&against) {
            Ordering::Equal => {}
            apart => return apart,
        }
    }
    version.coords().cmp(&other.coords())
}

/// Whether the versions ascend in row order as they stand, which those of one cell do not.
pub(crate) fn ascend(versions: &[BatchCell]) -> bool
    ensures { IsTrue result ↔ IsStrictlySortedBy (λ (a b : AnyVersion). slice_cmp int_cmp a.coords b.coords) versions.now }
{
    for place in 1..versions.len() {
        let (version, next) = (&versions[place - 1], &versions[place]);
        if compare(version, next) != Ordering::Less {
            return false;
        }
    }
    true
}
