//! Strips: cells that stand one after another in row order, in a box and in a batch of versions of a box.
#![tactic(auto)]

mod strips;

pub use strips::{Strip, in_order, strips_of};
