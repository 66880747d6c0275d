//! Domains: the cells that an array has.
ghost use Rattle.std.specs.Prelude.{◌≡◌, ◌≤◌, ◌<◌, ◌↔◌, None, IsTrue, IsOk, IfOk, length, slice_get, Some};
ghost use Rattle.std.specs.List.{All};
ghost use Rattle.std.specs.Result.{result_err};

use crate::boxes::SubBox;
use crate::dims::{Dim, DomainFault, fault_in};
use crate::outside::{Outside, first_bound_outside, first_outside};
use std::marker::Model;
use ts_base::Coords;

/// The domain of an array: 1 to 8 dimensions, in a buffer of fixed size.
///
/// Contracts see the list of the dimensions. A domain has no fault: see `Domain::new`.
#[derive(Clone, Copy, Debug)]
pub struct Domain {
    dims: [Dim; 8],
    count: u8,
}

impl Model for Domain {
    ghost use Rattle.std.specs.Prelude.{List};
    ghost use Rattle.ts_domain.specs.declared.dims.Dim.{Dim};

    ghost Value = { List Dim };

    ghost use Rattle.ts_domain.specs.DomainBuffer.{dims_of, IsDomainBuffer, buffer_of, buffer_of-dims_of};

    ghost view = { dims_of };

    ghost invariant = { IsDomainBuffer };

    ghost inverse = { buffer_of };

    ghost inverse_ok = { buffer_of-dims_of };
}

impl Domain {
    ghost use Rattle.ts_domain.specs.Dims.{IsDim, IsSoundDim, IsDomain, domain_fault};
    ghost use Rattle.ts_domain.specs.Domains.{is_in_domain, LiesInDomain, first_outside, first_bound_outside};

    /// The domain of these dimensions.
    ///
    /// It gives the first fault, if there is one: `TooManyDims` comes first. Then, dimension by
    /// dimension, in this order: `EmptyDim`, `BadExtent`, `PastType`, `DuplicateName`.
    pub fn new(dims: &[Dim]) -> Result<Domain, DomainFault>
        requires some { 1 ≤ length dims.now }
        requires valid { All IsDim dims.now }
        ensures ok { IfOk result (λ domain. domain ≡ dims.now) }
        ensures fault { result_err result ≡ domain_fault dims.now }
    {
        if dims.len() > 8 {
            return Err(DomainFault::TooManyDims {
                count: dims.len() as u64,
            });
        }
        match fault_in(dims) {
            Some(fault) => Err(fault),
            None => Ok(Domain::of(dims)),
        }
    }

    fn of(dims: &[Dim]) -> Domain
        requires some { 1 ≤ length dims.now }
        requires valid { All IsDim dims.now }
        requires sound { domain_fault dims.now ≡ None }
        ensures { result ≡ dims.now }
    {
        let mut buffer = [dims[0]; 8];
        buffer[..dims.len()].copy_from_slice(dims);
        Domain {
            dims: buffer,
            count: dims.len() as u8,
        }
    }

    /// The number of dimensions.
    pub fn count(&self) -> u8
        ensures count { result ≡ length self.now }
        ensures some { 1 ≤ result }
        ensures room { result ≤ 8 }
        ensures domain { IsDomain self.now }
    {
        self.count
    }

    /// The dimension at a place, counted from 0.
    pub fn dim(&self, dim: u8) -> &Dim
        requires { dim < length self.now }
        ensures place { slice_get self.now dim ≡ Some result.now }
        ensures sound { IsSoundDim result.now }
    {
        &self.as_slice()[dim as usize]
    }

    /// The dimensions as a slice, to go over them.
    pub fn as_slice(&self) -> &[Dim]
        ensures value { result.now ≡ self.now }
        ensures domain { IsDomain self.now }
        ensures sound { All IsSoundDim self.now }
    {
        &self.dims[..self.count as usize]
    }

    /// Whether coordinates lie in the domain. The error is the first coordinate outside.
    pub fn check(&self, at: &Coords) -> Result<(), Outside>
        requires { length at.now ≡ length self.now }
        ensures first { result_err result ≡ first_outside self.now at.now }
        ensures inside { IsOk result ↔ IsTrue (is_in_domain self.now at.now) }
    {
        first_outside(self.as_slice(), at.as_slice())
    }

    /// Whether a box lies in the domain. The error is the first bound outside, dimension by
    /// dimension, the low bound before the high one.
    pub fn check_box(&self, sub: &SubBox) -> Result<(), Outside>
        requires low { length sub.now.low ≡ length self.now }
        requires high { length sub.now.high ≡ length self.now }
        ensures first { result_err result ≡ first_bound_outside self.now sub.now }
        ensures inside { IsOk result ↔ LiesInDomain self.now sub.now }
    {
        first_bound_outside(self.as_slice(), sub.low.as_slice(), sub.high.as_slice())
    }
}

impl PartialEq for Domain {
    ghost use Rattle.std.specs.Cmp.Lexicographic.{pointwise, lists_per};
    ghost use Rattle.ts_domain.specs.contracts.dims.DimPartialEq.TheImpl as dim;
    ghost use Rattle.ts_domain.specs.contracts.dims.DimPartialEq.TheImpl.Laws.{laws-law};

    ghost eq = { pointwise (dim.ghosts).eq };

    ghost laws = { lists_per laws-law };

    fn eq(&self, other: &Self) -> bool {
        self.as_slice() == other.as_slice()
    }
}

impl Eq for Domain {
    ghost use Rattle.std.specs.Cmp.Lexicographic.{lists_equiv};
    ghost use Rattle.ts_domain.specs.contracts.dims.DimEq.TheImpl.Laws.{laws-law};

    ghost laws = { lists_equiv laws-law };
}
