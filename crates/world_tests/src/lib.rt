//! The tests of worlds of actors that share one store.
//!
//! A crate with tests is proved twice, so these stand in a crate that holds nothing else.
#![tactic(auto)]

#[cfg(test)]
mod worlds;
