//! The part that two boxes share.
ghost use Rattle.std.specs.Prelude.{◌≡◌, [], length, IfNone, IfSome};
ghost use Rattle.ts_domain.specs.declared.orders.Order.{Order as AnyOrder};
ghost use Rattle.ts_domain.specs.Bounds.{least_corner, greatest_corner};
ghost use Rattle.ts_domain.specs.Boxes.{IsBox};
ghost use Rattle.ts_gather.specs.Parts.{shared_cells, IsSharedPart};

use ts_base::Coords;
use ts_domain::SubBox;

/// The box of the cells of `a` that lie in `b`, if there are any. `b` may have crossed bounds or other
/// dimensions: then there are none.
pub fn shared_part(a: &SubBox, b: &SubBox) -> Option<SubBox>
    requires { IsBox a.now }
    ensures some { IfSome result (λ part. IsSharedPart part a.now b.now) }
    ensures none { IfNone result ((order : AnyOrder) → shared_cells order a.now b.now ≡ []) }
{
    let count = a.low.len();
    if b.low.len() != count || b.high.len() != count {
        return None;
    }
    let part = SubBox {
        low: greatest_corner(&a.low, &b.low),
        high: least_corner(&a.high, &b.high),
    };
    if part.contains(&part.low) {
        Some(part)
    } else {
        None
    }
}

// The lesser coordinate along each dimension.
fn least_corner(a: &Coords, b: &Coords) -> Coords
    requires { length b.now ≡ length a.now }
    ensures { result ≡ least_corner a.now b.now }
{
    let count = a.len() as usize;
    let (a, b) = (a.as_slice(), b.as_slice());
    let mut numbers = [0; 8];
    for dim in 0..count {
        numbers[dim] = a[dim].min(b[dim]);
    }
    Coords::new(&numbers[..count])
}

// The greater coordinate along each dimension.
fn greatest_corner(a: &Coords, b: &Coords) -> Coords
    requires { length b.now ≡ length a.now }
    ensures { result ≡ greatest_corner a.now b.now }
{
    let count = a.len() as usize;
    let (a, b) = (a.as_slice(), b.as_slice());
    let mut numbers = [0; 8];
    for dim in 0..count {
        numbers[dim] = a[dim].max(b[dim]);
    }
    Coords::new(&numbers[..count])
}
