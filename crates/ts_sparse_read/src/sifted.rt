//! What is taken of the cells of tiles.
use ts_base::Coords;
use ts_batch::Batches;

/// Where a cell stands in the order of its fragment.
#[derive(Clone, Copy, Debug, PartialEq, Eq)]
pub(crate) struct Spot {
    /// The coordinates of the cell.
    pub(crate) coords: Coords,
    /// The write that laid the cell, by its place among the origins, counted from 0.
    pub(crate) origin: u32,
}

/// What was taken of the cells so far.
#[derive(Debug, Drop)]
pub(crate) struct Sifted {
    /// The versions that are wanted, in the order of their cells: a batch for each tile that has any.
    pub(crate) found: Batches,
    /// Where the last cell stands, whether it is wanted or not.
    pub(crate) last: Option<Spot>,
}
