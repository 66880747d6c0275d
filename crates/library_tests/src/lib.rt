//! The tests of the libraries from conditions up to printed ends, each over their public calls: what no
//! script shows of conditions, commits, leases, stores, histories and printed ends.
//!
//! A crate with tests is proved twice, so these stand in a crate that holds nothing else.
#![tactic(auto)]

#[cfg(test)]
mod commit;
#[cfg(test)]
mod cond;
#[cfg(test)]
mod lease;
#[cfg(test)]
mod model;
#[cfg(test)]
mod query;
#[cfg(test)]
mod store;
