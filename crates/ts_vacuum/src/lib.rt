//! What stands around fragments once they are written: the commits that there are, the fragments that
//! consolidations replaced, and the leases that jobs left behind.
#![tactic(auto)]

mod leases;
mod lister;
mod removals;
mod removed;
mod steps;
mod sweeping;
mod sweeps;
mod unlocker;
mod vacuum;

pub use lister::Lister;
pub use steps::Lists;
pub use sweeps::Sweeps;
pub use unlocker::Unlocker;
pub use vacuum::Vacuum;
