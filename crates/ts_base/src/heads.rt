//! Heads of fragments, the versions of cells that fragments keep, and where a job may be stopped.
use crate::coords::Coords;
use crate::keys::{FragKey, Key, KeyList};
use crate::lists::{Duplicate, OutOfMemory, Sequence};
use crate::values::Row;
use std::alloc::Global;

/// What a fragment's metadata says of the fragment as a whole.
#[derive(Clone, Debug, Drop, PartialEq, Eq)]
pub struct Head {
    /// The key of the fragment.
    pub frag: FragKey,
    /// The key of the schema that the cells are written in.
    pub schema: Key,
    /// Whether the array is dense.
    pub dense: bool,
    /// Whether the fragment was made of others by a consolidation.
    pub consolidated: bool,
    /// The least coordinate of the fragment's box, along each dimension.
    pub low: Coords,
    /// The greatest coordinate of the fragment's box, along each dimension.
    pub high: Coords,
    /// The number of cells: in a dense array those of the box, holes among them, and 2^64 - 1 where there
    /// are more; in a sparse array those that are stored.
    pub cells: u64,
    /// The keys of the writes whose cells went into the fragment, ascending.
    pub origins: KeyList,
}

/// A list of heads.
pub type HeadList = Sequence<Head>;

impl Duplicate for Head {
    fn copy(&self, _alloc: Global) -> Result<Head, OutOfMemory> {
        Ok(self.clone()?)
    }
}

/// A cell as one write laid it.
#[derive(Clone, Debug, Drop, PartialEq, Eq)]
pub struct Version {
    /// The key of the write.
    pub key: Key,
    /// The key of the schema that the row is written in.
    pub schema: Key,
    /// The coordinates of the cell.
    pub coords: Coords,
    /// The values of the cell, one for each attribute of that schema.
    pub row: Row,
}

/// A list of versions.
pub type VersionList = Sequence<Version>;

/// A list of lists of versions, one for each fragment.
pub type VersionLists = Sequence<VersionList>;

impl Duplicate for Version {
    fn copy(&self, _alloc: Global) -> Result<Version, OutOfMemory> {
        Ok(self.clone()?)
    }
}

/// A fragment as its readers see it: the head, and each version of a cell that it keeps.
#[derive(Clone, Debug, Drop, PartialEq, Eq)]
pub struct Piece {
    /// The head of the fragment.
    pub head: Head,
    /// The versions.
    pub versions: VersionList,
}

impl Duplicate for Piece {
    fn copy(&self, _alloc: Global) -> Result<Piece, OutOfMemory> {
        Ok(self.clone()?)
    }
}

/// A cell and the values that a write gives it.
#[derive(Clone, Debug, Drop, PartialEq, Eq)]
pub struct Cell {
    /// The coordinates of the cell.
    pub coords: Coords,
    /// The values, one for each attribute of the write's schema.
    pub row: Row,
}

/// A list of cells.
pub type CellList = Sequence<Cell>;

impl Duplicate for Cell {
    fn copy(&self, _alloc: Global) -> Result<Cell, OutOfMemory> {
        Ok(self.clone()?)
    }
}

/// A kind of call that a job may be stopped before.
#[derive(Clone, Copy, Debug, PartialEq, Eq)]
pub enum Point {
    /// The first put of the list of a consolidation's sources, the `.vac` object.
    Vac,
    /// The first put of a commit of a fragment, the `.wrt` object.
    Wrt,
    /// The first removal of a part of a fragment.
    PartGone,
}

/// Where a job is stopped, as by a crash of its process.
#[derive(Clone, Copy, Debug, PartialEq, Eq)]
pub enum Stop {
    /// Nowhere: the job goes on to its end.
    Never,
    /// After so many calls, where it would make the next.
    Calls(u64),
    /// Where its next call would be the first of that kind.
    Before(Point),
}
