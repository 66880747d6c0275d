//! Versions in batches, each of which lies in memory as rows or as columns, and rows in the same two
//! ways.
#![tactic(auto)]

mod batch;
mod batches;
mod cell;
mod row_batch;
mod seen;

pub use batch::Batch;
pub use batches::{Batches, BatchesList};
pub use cell::{BatchCell, BatchCellList};
pub use row_batch::RowBatch;
pub use seen::seen_of;
