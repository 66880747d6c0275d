//! The tests of whole runs, through the public `run`: over stores and streams that fail, and over objects
//! that no run left so.
//!
//! A crate with tests is proved twice, so these stand in a crate that holds nothing else.
#![tactic(auto)]

#[cfg(test)]
mod runs;
