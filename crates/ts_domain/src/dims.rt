//! Dimensions, and what can be wrong with them.
ghost use Rattle.std.specs.Prelude.{◌≡◌, ◌≤◌, ◌<◌, ◌≤ℤ◌, [], length, pos};
ghost use Rattle.std.specs.List.{All};
ghost use Rattle.ts_domain.specs.Dims.{IsDim, has_bad_extent, is_past_type, has_name, dim_fault, fault_behind, end_of_tiles};

use ts_base::{Label, Sequence, ValType};

/// A dimension: the integers from `low` to `high`, in space tiles.
///
/// The first space tile begins at `low`, and each has `extent` numbers. The last one can reach
/// past `high`. See the TileDB format specification, "Dimension".
#[derive(Clone, Copy, Debug, PartialEq, Eq)]
pub struct Dim {
    /// The name.
    pub name: Label,
    /// The type of the coordinates.
    pub ty: ValType,
    /// The least coordinate.
    pub low: i128,
    /// The greatest coordinate.
    pub high: i128,
    /// The number of coordinates in a space tile.
    pub extent: i128,
}

/// A list of dimensions.
pub type DimList = Sequence<Dim>;

/// What is wrong with the dimensions of a domain. A dimension is named by its place, counted
/// from 0.
#[derive(Clone, Copy, Debug, PartialEq, Eq)]
pub enum DomainFault {
    /// There are more than 8 dimensions.
    TooManyDims { count: u64 },
    /// The low bound is above the high bound.
    EmptyDim { dim: u8 },
    /// The extent is below 1, or larger than the dimension.
    BadExtent { dim: u8 },
    /// The low bound is below the least value of the type, or the last space tile reaches past
    /// the greatest.
    PastType { dim: u8 },
    /// An earlier dimension has the name.
    DuplicateName { dim: u8 },
}

// The first fault of a dimension behind earlier ones.
fn fault_of(earlier: &[Dim], dim: &Dim) -> Option<DomainFault>
    requires few { length earlier.now < 8 }
    requires valid { IsDim dim.now }
    ensures { result ≡ dim_fault earlier.now dim.now }
{
    let place = earlier.len() as u8;
    if dim.low > dim.high {
        Some(DomainFault::EmptyDim { dim: place })
    } else if has_bad_extent(dim) {
        Some(DomainFault::BadExtent { dim: place })
    } else if is_past_type(dim) {
        Some(DomainFault::PastType { dim: place })
    } else if has_name(earlier, &dim.name) {
        Some(DomainFault::DuplicateName { dim: place })
    } else {
        None
    }
}

// The first fault of at most 8 dimensions.
pub(crate) fn fault_in(dims: &[Dim]) -> Option<DomainFault>
    requires few { length dims.now ≤ 8 }
    requires valid { All IsDim dims.now }
    ensures { result ≡ fault_behind [] dims.now }
{
    for (place, dim) in dims.iter().enumerate() {
        if let Some(fault) = fault_of(&dims[..place], dim) {
            return Some(fault);
        }
    }
    None
}

fn has_bad_extent(dim: &Dim) -> bool
    requires { IsDim dim.now }
    ensures { result ≡ has_bad_extent dim.now }
{
    dim.extent < 1 || dim.high - dim.low + 1 < dim.extent
}

fn is_past_type(dim: &Dim) -> bool
    requires valid { IsDim dim.now }
    requires ordered { dim.now.low ≤ℤ dim.now.high }
    requires some { pos 1 ≤ℤ dim.now.extent }
    ensures { result ≡ is_past_type dim.now }
{
    dim.low < dim.ty.least() || dim.ty.greatest() < end_of_tiles(dim)
}

// The last number of the last space tile.
fn end_of_tiles(dim: &Dim) -> i128
    requires valid { IsDim dim.now }
    requires ordered { dim.now.low ≤ℤ dim.now.high }
    requires some { pos 1 ≤ℤ dim.now.extent }
    ensures { result ≡ end_of_tiles dim.now }
{
    let into_tile = (dim.high - dim.low) % dim.extent;
    dim.high + (dim.extent - 1 - into_tile)
}

/// Whether one of the dimensions has the name.
pub fn has_name(dims: &[Dim], name: &Label) -> bool
    ensures { result ≡ has_name dims.now name.now }
{
    dims.iter().any(|dim| dim.name == *name)
}
