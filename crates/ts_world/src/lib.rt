//! The world of every interleaving: actors that share one store, and whatever may happen to them.
#![tactic(auto)]

mod breaks;
mod events;
mod leases;
mod parts;
mod slots;
mod told;
mod world;

pub use events::{Event, WorldFault};
pub use world::World;
