//! Trees of boxes, to find the boxes that meet a box without looking at all of them.
#![tactic(auto)]

mod building;
mod hulls;
mod searching;
mod trees;

pub use hulls::hulls_of;
pub use trees::Tree;
