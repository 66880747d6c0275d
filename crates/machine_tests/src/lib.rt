//! The tests of the machines: drives, consolidations, vacuums, unlocks and listings alone; and those of the
//! stores: in a folder, and shared by lanes.
//!
//! A crate with tests is proved twice, so these stand in a crate that holds nothing else.
#![tactic(auto)]

#[cfg(test)]
mod consolidate;
#[cfg(test)]
mod drives;
#[cfg(test)]
mod folder;
#[cfg(test)]
mod lanes;
#[cfg(test)]
mod turnstile;
#[cfg(test)]
mod vacuum;
