//! Tables of versions.
ghost use Rattle.std.specs.Prelude.{◌≡◌, ◌<◌, ◌≤◌, ◌↔◌, ℤ, List, length, slice_get, slice_index_or, All, IfOk, IfSome, IfNone, IsTrue, option_map};
ghost use Rattle.std.specs.List.{AllAdjacentBelow};
ghost use Rattle.std.specs.Cmp.Lexicographic.{slice_cmp};
ghost use Rattle.std.specs.Ordering.{int_cmp};
ghost use Rattle.std.specs.declared.cmp.Ordering.TheVariants.{Less};
ghost use Rattle.ts_base.specs.declared.heads.Version.{Version as AnyVersion};
ghost use Rattle.ts_base.specs.declared.values.Val.{Val as AnyVal};
ghost use Rattle.ts_table.specs.Columns.{val_seen};
ghost use Rattle.ts_table.specs.Tables.{across, column_of, no_origin, versions_from, HaveRows, HasVals, IsTable, version_or};

use crate::column::{Column, Seen};
use crate::numbers::Numbers;
use crate::order::{compare_at, compare_between};
use crate::origins::Origin;
use crate::rows::{coords_across, row_across};
use std::alloc::Global;
use std::cmp::Ordering;
use std::marker::Model;
use ts_base::{Coords, Key, OutOfMemory, Row, Version, VersionList};

/// Versions of cells, field by field.
///
/// Contracts see the list of the versions.
#[derive(Debug, Drop)]
pub struct Table {
    origins: Vec<Origin>,
    dims: Vec<Numbers>,
    attrs: Vec<Column>,
    cells: Vec<u32>,
}

impl Model for Table {
    ghost use Rattle.std.specs.Prelude.{List};
    ghost use Rattle.ts_base.specs.declared.heads.Version.{Version};

    ghost Value = { List Version };

    ghost use Rattle.ts_table.specs.Tables.{versions_from, IsTable};

    ghost view = { λ table. versions_from table.origins.items table.dims.items table.attrs.items 0 table.cells.items };

    ghost invariant = { λ table. IsTable table.origins.items table.dims.items table.attrs.items table.cells.items };
}

impl Table {
    /// The versions in these columns. It takes no memory.
    pub fn of(
        origins: Vec<Origin>,
        dims: Vec<Numbers>,
        attrs: Vec<Column>,
        cells: Vec<u32>,
    ) -> Table
        requires { IsTable origins.items dims.items attrs.items cells.items }
        ensures { result ≡ versions_from origins.items dims.items attrs.items 0 cells.items }
    {
        Table {
            origins,
            dims,
            attrs,
            cells,
        }
    }

    /// The values, one column for each attribute, which are moved.
    pub fn into_attrs(self) -> Vec<Column>
        ensures { HaveRows self result.items }
    {
        let Table {
            origins: _,
            dims: _,
            attrs,
            cells: _,
        } = self;
        attrs
    }

    /// The values of an attribute, if the table has a column of them. No clause says when it has.
    pub fn vals(&self, attr: u64) -> Option<&Column>
        ensures { IfSome result (λ column. HasVals self.now attr column.now) }
    {
        let (attr, attrs) = (attr as usize, self.attrs.as_slice());
        if attr < attrs.len() {
            Some(&attrs[attr])
        } else {
            None
        }
    }

    /// The number of versions.
    #[tactic(auto, using(crate::proofs::Tables::lengths))]
    pub fn len(&self) -> u64
        ensures { result ≡ length self.now }
    {
        self.cells.as_slice().len() as u64
    }

    /// The write that laid the version at a place, and its schema.
    #[tactic(auto, using(crate::proofs::Tables::gets))]
    pub fn origin(&self, place: u64) -> Origin
        requires { place < length self.now }
        ensures key { result.key ≡ (version_or self.now place).key }
        ensures schema { result.schema ≡ (version_or self.now place).schema }
    {
        let origin = self.cells.as_slice()[place as usize];
        self.origins.as_slice()[origin as usize]
    }

    /// The coordinate along a dimension of the version at a place, if it has one there.
    #[inline(always)]
    #[tactic(auto, using(crate::proofs::Tables::gets))]
    pub fn coord(&self, place: u64, dim: u8) -> Option<i128>
        requires { place < length self.now }
        ensures { result ≡ slice_get (version_or self.now place).coords dim }
    {
        coord_of(self.dims.as_slice(), place, dim)
    }

    /// The coordinates of all versions along a dimension, if the columns of the table have it.
    pub fn column(&self, dim: u8) -> Option<&Numbers>
        ensures some { IfSome result (λ column. column.now ≡ column_of self.now dim) }
        ensures none { IfNone result (All (λ (v : AnyVersion). length v.coords ≤ dim) self.now) }
    {
        let dims = self.dims.as_slice();
        if (dim as usize) < dims.len() {
            Some(&dims[dim as usize])
        } else {
            None
        }
    }

    /// The coordinates of the version at a place. It takes no memory.
    #[tactic(auto, using(crate::proofs::Tables::gets))]
    pub fn coords(&self, place: u64) -> Coords
        requires { place < length self.now }
        ensures { result ≡ (version_or self.now place).coords }
    {
        coords_across(self.dims.as_slice(), place)
    }

    /// The version at a place, with a row of its own.
    pub fn version(&self, alloc: Global, place: u64) -> Result<Version, OutOfMemory>
        requires { place < length self.now }
        ensures { IfOk result (λ version. version ≡ version_or self.now place) }
    {
        let origin = self.origin(place);
        Ok(Version {
            key: origin.key,
            schema: origin.schema,
            coords: self.coords(place),
            row: self.row(alloc, place)?,
        })
    }

    /// A copy of the values of the version at a place.
    #[tactic(auto, using(crate::proofs::Tables::gets))]
    pub fn row(&self, alloc: Global, place: u64) -> Result<Row, OutOfMemory>
        requires { place < length self.now }
        ensures { IfOk result (λ row. row ≡ (version_or self.now place).row) }
    {
        row_across(alloc, self.attrs.as_slice(), place)
    }

    /// All versions, each with a row of its own.
    #[tactic(auto, using(crate::proofs::Tables::steps))]
    pub fn to_rows(&self, alloc: Global) -> Result<VersionList, OutOfMemory>
        ensures { IfOk result (λ list. list ≡ self.now) }
    {
        let mut list = VersionList::new(alloc);
        for place in 0..self.len() {
            list.push(self.version(alloc, place)?)?;
        }
        Ok(list)
    }

    /// Whether the versions ascend in row order.
    pub fn is_in_row_order(&self) -> bool
        ensures { IsTrue result ↔ AllAdjacentBelow (λ (a b : AnyVersion). slice_cmp int_cmp a.coords b.coords ≡ Less) self.now (length self.now) }
    {
        for place in 1..self.len() {
            if self.compare(place - 1, place) != Ordering::Less {
                return false;
            }
        }
        true
    }

    /// How the versions at two places stand in row order.
    #[tactic(auto, using(crate::proofs::Tables::gets))]
    pub fn compare(&self, a: u64, b: u64) -> Ordering
        requires first { a < length self.now }
        requires second { b < length self.now }
        ensures { result ≡ slice_cmp int_cmp (version_or self.now a).coords (version_or self.now b).coords }
    {
        compare_at(self.dims.as_slice(), a, b)
    }

    /// The key of the write that laid the version at a place.
    pub fn key(&self, place: u64) -> Key
        requires { place < length self.now }
        ensures { result ≡ (version_or self.now place).key }
    {
        self.origin(place).key
    }

    /// How a version and one of another table stand in row order.
    #[tactic(auto, using(crate::proofs::Tables::gets))]
    pub fn compare_with(&self, a: u64, other: &Table, b: u64) -> Ordering
        requires first { a < length self.now }
        requires second { b < length other.now }
        ensures { result ≡ slice_cmp int_cmp (version_or self.now a).coords (version_or other.now b).coords }
    {
        compare_between(self.dims.as_slice(), a, other.dims.as_slice(), b)
    }

    /// The value of an attribute of the version at a place, if it has one there.
    #[tactic(auto, using(crate::proofs::Tables::gets))]
    pub fn val(&self, place: u64, attr: u64) -> Option<Seen<'_>>
        requires { place < length self.now }
        ensures { option_map val_seen result ≡ slice_get (version_or self.now place).row attr }
    {
        val_of(self.attrs.as_slice(), place, attr)
    }
}

// The item at a place of the column of a dimension.
#[inline(always)]
#[tactic(auto, using(crate::proofs::Tables::acrosses))]
fn coord_of(dims: &[Numbers], place: u64, dim: u8) -> Option<i128>
    requires { All (λ (column : List ℤ). place < length column) dims.now }
    ensures { result ≡ slice_get (across place dims.now) dim }
{
    let dim = dim as usize;
    if dim < dims.len() {
        Some(dims[dim].at(place))
    } else {
        None
    }
}

// The value at a place of the column of an attribute.
#[tactic(auto, using(crate::proofs::Tables::acrosses))]
pub(crate) fn val_of(attrs: &[Column], place: u64, attr: u64) -> Option<Seen<'_>>
    requires { All (λ (column : List AnyVal). place < length column) attrs.now }
    ensures { option_map val_seen result ≡ slice_get (across place attrs.now) attr }
{
    let attr = attr as usize;
    if attr < attrs.len() {
        Some(attrs[attr].at(place))
    } else {
        None
    }
}

/// Whether columns make a table: there are 1 to 8 dimensions, each cell names an origin, and each
/// column has an item for each cell.
pub fn is_table(origins: &[Origin], dims: &[Numbers], attrs: &[Column], cells: &[u32]) -> bool
    ensures { IsTrue result ↔ IsTable origins.now dims.now attrs.now cells.now }
{
    let count = cells.len() as u64;
    1 <= dims.len()
        && dims.len() <= 8
        && are_named(origins, cells)
        && are_dims_long(dims, count)
        && are_attrs_long(attrs, count)
}

// Whether each cell names an origin.
fn are_named(origins: &[Origin], cells: &[u32]) -> bool
    ensures { IsTrue result ↔ All (λ o. o < length origins.now) cells.now }
{
    for cell in cells {
        if *cell as usize >= origins.len() {
            return false;
        }
    }
    true
}

// Whether each column of a dimension has so many items.
fn are_dims_long(dims: &[Numbers], count: u64) -> bool
    ensures { IsTrue result ↔ All (λ (column : List ℤ). length column ≡ count) dims.now }
{
    for column in dims {
        if column.len() != count {
            return false;
        }
    }
    true
}

// Whether each column of an attribute has so many values.
fn are_attrs_long(attrs: &[Column], count: u64) -> bool
    ensures { IsTrue result ↔ All (λ (column : List AnyVal). length column ≡ count) attrs.now }
{
    for column in attrs {
        if column.len() != count {
            return false;
        }
    }
    true
}
