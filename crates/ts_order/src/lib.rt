//! The orders of cells: comparisons, the place of a cell in a box, and the space tiles of a box.
#![tactic(auto)]

mod compare;
mod places;
mod tile_order;
mod tiles;

pub use compare::{cmp_global, cmp_plain};
pub use places::{coords_at, position_of};
pub use tiles::{tile_numbers, tiles_of};
pub use ts_domain::{Layout, Order};
