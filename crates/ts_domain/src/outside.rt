//! Whether coordinates lie in their dimensions.
ghost use Rattle.std.specs.Prelude.{◌≡◌, ◌≤◌, length};
ghost use Rattle.std.specs.Result.{result_err};
ghost use Rattle.ts_domain.specs.Domains.{outside_dim, first_outside, first_bound_outside_from};

use crate::dims::Dim;

/// A coordinate, or a bound of a box, that lies outside its dimension.
#[derive(Clone, Copy, Debug, PartialEq, Eq)]
pub struct Outside {
    /// The place of the dimension, counted from 0.
    pub dim: u8,
    /// The coordinate.
    pub value: i128,
}

pub(crate) fn first_outside(dims: &[Dim], at: &[i128]) -> Result<(), Outside>
    requires few { length dims.now ≤ 8 }
    requires same { length at.now ≡ length dims.now }
    ensures { result_err result ≡ first_outside dims.now at.now }
{
    for (place, dim) in dims.iter().enumerate() {
        check_dim(place as u8, dim, at[place])?;
    }
    Ok(())
}

pub(crate) fn first_bound_outside(dims: &[Dim], low: &[i128], high: &[i128]) -> Result<(), Outside>
    requires few { length dims.now ≤ 8 }
    requires lows { length low.now ≡ length dims.now }
    requires highs { length high.now ≡ length dims.now }
    ensures { result_err result ≡ first_bound_outside_from 0 dims.now low.now high.now }
{
    for (place, dim) in dims.iter().enumerate() {
        check_dim(place as u8, dim, low[place])?;
        check_dim(place as u8, dim, high[place])?;
    }
    Ok(())
}

fn check_dim(place: u8, dim: &Dim, value: i128) -> Result<(), Outside>
    ensures { result_err result ≡ outside_dim place dim.now value }
{
    if dim.low <= value && value <= dim.high {
        Ok(())
    } else {
        Err(Outside { dim: place, value })
    }
}
