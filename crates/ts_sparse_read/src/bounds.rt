//! Whether a box is one of an array.
ghost use Rattle.std.specs.Prelude.{◌≡◌};
ghost use Rattle.ts_domain.specs.Bounds.{are_bounds};
ghost use Rattle.ts_sparse_read.specs.Opens.{is_box_in};

use ts_domain::SubBox;
use ts_schema::Frame;

/// Whether the bounds are those of a box in the array.
#[tactic(auto, using(crate::proofs::BoundLaws::domain_readable, crate::proofs::BoundLaws::other_dims))]
pub fn is_box_in(frame: &Frame, sub: &SubBox) -> bool
    ensures { result ≡ is_box_in frame.now.domain sub.now }
{
    let count = frame.domain.count();
    sub.low.len() == count && are_bounds(sub.low.as_slice(), sub.high.as_slice())
}

/// Whether no low bound is above its high bound, and there are as many of both.
#[tactic(auto, using(crate::proofs::BoundLaws::bounds_uneven, crate::proofs::BoundLaws::bounds_on, crate::proofs::BoundLaws::bounds_here, crate::proofs::BoundLaws::bounds_end))]
pub fn are_bounds(low: &[i128], high: &[i128]) -> bool
    ensures { result ≡ are_bounds low.now high.now }
{
    if low.len() != high.len() {
        return false;
    }
    for dim in 0..low.len() {
        if low[dim] > high[dim] {
            return false;
        }
    }
    true
}
