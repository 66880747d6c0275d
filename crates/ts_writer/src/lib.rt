//! Writing: the machines of the jobs that make an array, declare a schema, write cells or delete.
#![tactic(auto)]

mod columns;
mod creating;
mod creator;
mod deleter;
mod deleting;
mod ends;
mod evolver;
mod evolving;
mod laying;
mod making;
mod pieces;
mod places;
mod puts;
mod runs;
mod spots;
mod tables;
mod values;
mod writer;
mod writing;

pub use creating::Creates;
pub use creator::Creator;
pub use deleter::Deleter;
pub use deleting::Deletes;
pub use evolver::Evolver;
pub use evolving::Evolves;
pub use making::{Makes, Making};
pub use writer::Writer;
pub use writing::Writes;
