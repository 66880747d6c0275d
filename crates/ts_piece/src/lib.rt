//! Pieces whose versions stand in batches.
#![tactic(auto)]

mod pieces;
mod spots;

pub use pieces::{BatchPiece, PieceCells, PieceParts};
pub use spots::{Spot, all_spots, cell_at};
