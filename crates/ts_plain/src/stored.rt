//! A fragment as its one plain object stores it.
//!
//! The piece that a fragment holds follows from what is stored: a cell names its write by a place in
//! the list of the fragment's origins, where a version has the write's key.
use ts_base::{Coords, Key, KeyList, Row, Sequence};

/// The coordinates along one dimension from `low` to `high`, which both count.
#[derive(Clone, Copy, Debug, PartialEq, Eq)]
pub struct Side {
    /// The least coordinate.
    pub low: i128,
    /// The greatest coordinate.
    pub high: i128,
}

/// A side for each dimension of an array.
pub type SideList = Sequence<Side>;

/// What stands before the cells, in the order of the layout.
#[derive(Debug, Drop, PartialEq, Eq)]
pub struct StoredHead {
    /// The key of the schema that the cells are written in.
    pub schema: Key,
    /// Whether the array is dense.
    pub dense: bool,
    /// Whether the fragment was made of others by a consolidation.
    pub consolidated: bool,
    /// Between which coordinates the cells lie: a side for each dimension.
    pub hull: SideList,
    /// The number of cells: in a plain object and in sparse metadata of those that are stored, in dense
    /// metadata of those of the hull.
    pub cells: u64,
    /// The keys of the writes whose cells the fragment has, ascending.
    pub origins: KeyList,
}

/// A cell.
#[derive(Debug, Drop, PartialEq, Eq)]
pub struct StoredCell {
    /// The coordinates.
    pub coords: Coords,
    /// The write that laid the cell, by its place among the origins, counted from 0.
    pub origin: u32,
    /// The values, one for each attribute.
    pub row: Row,
}

/// A list of cells.
pub type StoredCellList = Sequence<StoredCell>;

/// All that a plain object stores.
#[derive(Debug, Drop, PartialEq, Eq)]
pub struct StoredPiece {
    /// What stands before the cells.
    pub head: StoredHead,
    /// The cells, ascending in global order and then by their origins.
    pub cells: StoredCellList,
}
