//! Which cells of batches match a condition, asked of the cells in their places.
#![tactic(auto)]

mod comparing;
mod keeping;
mod matching;
mod order;

pub use keeping::matches_all;
pub use matching::matches_cell;
