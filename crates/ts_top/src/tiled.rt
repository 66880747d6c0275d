//! The way in which the program writes and reads fragments.

use ts_dense_read::DensePieces;
use ts_sparse_read::SparsePieces;

/// Fragments stand in tiles, one object for each column: those of dense arrays in space tiles, and those
/// of sparse arrays in tiles of as many cells as the capacity, with their coordinates.
pub(crate) type Tiled = DensePieces<SparsePieces>;
