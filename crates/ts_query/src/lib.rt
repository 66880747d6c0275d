//! What is said to whoever asks: queries that are known to fit, the rows that they select, and the
//! printed text of each end.
#![tactic(auto)]

mod ends;
mod printed;
mod refusals;
mod rows;

pub use ends::{command_name, print_outcome};
pub use printed::{Printed, PrintedParts};
pub use ts_model::{QueryFault, Ready, Shown, ShownList, check_query, rows_of};
