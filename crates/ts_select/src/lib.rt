//! The rows that a query selects of cells in a batch, as columns.
#![tactic(auto)]

mod columns;
mod coordinates;
mod layout;
mod places;
mod selecting;
mod sites;
mod sorted;
mod taking;
mod whole;

pub use selecting::rows_of;
