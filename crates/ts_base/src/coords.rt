//! Coordinates of cells.
ghost use Rattle.std.specs.Prelude.{◌≡◌, ◌<◌, ◌≤◌, length, slice_get, refl};
ghost use Rattle.std.specs.Cmp.{int_eq_equiv, int_cmp_total, partial_equiv_from_equiv, partial_order_from_agreeing_total};
ghost use Rattle.std.specs.Cmp.Lexicographic.{pointwise, slice_cmp, lists_per, lists_equiv, lists_total, lists_ties};
ghost use Rattle.std.specs.Ordering.{int_eq, int_cmp, as_partial_cmp};

use std::cmp::Ordering;
use std::marker::Model;

/// The coordinates of a cell: a number for each dimension, in the order of the dimensions.
///
/// There are 1 to 8 of them, in a buffer of fixed size. Contracts see the list of the numbers.
///
/// Coordinates are ordered along the first dimension first.
#[derive(Clone, Copy, Debug)]
pub struct Coords {
    numbers: [i128; 8],
    count: u8,
}

impl Model for Coords {
    ghost use Rattle.std.specs.Prelude.{List, ℤ};
    ghost use Rattle.std.specs.Coded.{coded_list, coded_ℤ};

    ghost Value = { List ℤ };

    ghost coded = { coded_list coded_ℤ };

    ghost use Rattle.ts_base.specs.Coords.{numbers_of, AreCoords, buffer_of, buffer_of-numbers_of};

    ghost view = { numbers_of };

    ghost invariant = { AreCoords };

    ghost inverse = { buffer_of };

    ghost inverse_ok = { buffer_of-numbers_of };
}

impl Coords {
    /// The coordinates of these numbers, one for each dimension.
    pub fn new(numbers: &[i128]) -> Coords
        requires some { 1 ≤ length numbers.now }
        requires room { length numbers.now ≤ 8 }
        ensures { result ≡ numbers.now }
    {
        let mut buffer = [0; 8];
        buffer[..numbers.len()].copy_from_slice(numbers);
        Coords {
            numbers: buffer,
            count: numbers.len() as u8,
        }
    }

    /// The number of dimensions.
    #[allow(clippy::len_without_is_empty)]
    pub fn len(&self) -> u8
        ensures count { result ≡ length self.now }
        ensures some { 1 ≤ result }
        ensures room { result ≤ 8 }
    {
        self.count
    }

    /// The coordinate along a dimension, counted from 0.
    pub fn at(&self, dim: u8) -> i128
        requires { dim < length self.now }
        ensures { slice_get self.now dim ≡ Some result }
    {
        self.as_slice()[dim as usize]
    }

    /// The coordinates as a slice.
    pub fn as_slice(&self) -> &[i128]
        ensures { result.now ≡ self.now }
    {
        &self.numbers[..self.count as usize]
    }
}

impl PartialEq for Coords {
    ghost eq = { pointwise int_eq };

    ghost laws = { lists_per (partial_equiv_from_equiv int_eq_equiv) };

    fn eq(&self, other: &Self) -> bool {
        self.as_slice() == other.as_slice()
    }
}

impl Eq for Coords {
    ghost laws = { lists_equiv int_eq_equiv };
}

impl Ord for Coords {
    ghost cmp = { slice_cmp int_cmp };

    ghost total = { lists_total int_cmp_total };

    ghost matches_partial_cmp = { λ x y. refl };

    ghost matches_eq = { lists_ties int_cmp (λ x y. refl) };

    fn cmp(&self, other: &Coords) -> Ordering {
        self.as_slice().cmp(&other.as_slice())
    }
}

impl PartialOrd for Coords {
    ghost partial_cmp = { as_partial_cmp (slice_cmp int_cmp) };

    ghost laws = { partial_order_from_agreeing_total (slice_cmp int_cmp) (lists_total int_cmp_total) (λ x y. refl) (lists_ties int_cmp (λ x y. refl)) };

    fn partial_cmp(&self, other: &Coords) -> Option<Ordering> {
        Some(self.cmp(other))
    }
}
