//! Reading: the machine of a job that reads the domain.
#![tactic(auto)]

mod answers;
mod bindings;
mod ends;
mod fetching;
mod getting_deletes;
mod getting_vacs;
mod known;
mod laid;
mod left;
mod listing;
mod loading;
mod named;
mod newest;
mod opening;
mod reader;
mod row_order;
mod shown;
mod sides;
mod slots;
mod sources;
mod steps;
mod used;
mod vals;

pub use reader::Reader;
pub use steps::Reads;
