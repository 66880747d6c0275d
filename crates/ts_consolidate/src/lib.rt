//! Consolidating: what the pieces of several fragments are merged into, and the machine of a job that
//! merges them.
#![tactic(auto)]

mod bytes;
mod candidates;
mod consolidator;
mod ends;
mod fetching;
mod heads;
mod merging;
mod named;
mod placing;
mod planning;
mod puts;
mod putting;
mod ranks;
mod steps;
mod surveying;
mod versions;

pub use consolidator::Consolidator;
pub use merging::{Unmerged, merge_pieces};
pub use steps::Merges;
