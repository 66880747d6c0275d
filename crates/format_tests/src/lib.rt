//! The tests of the libraries that the model does not need to know of, each over their public calls: what no
//! case or session shows of values, boxes, orders, and the objects of fragments.
//!
//! A crate with tests is proved twice, so these stand in a crate that holds nothing else.
#![tactic(auto)]

#[cfg(test)]
mod base;
#[cfg(test)]
mod column;
#[cfg(test)]
mod domain;
#[cfg(test)]
mod footer;
#[cfg(test)]
mod order;
#[cfg(test)]
mod plain;
#[cfg(test)]
mod rtree;
#[cfg(test)]
mod table;
#[cfg(test)]
mod value;
#[cfg(test)]
mod wire;
