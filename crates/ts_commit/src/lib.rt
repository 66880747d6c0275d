//! What a listing of the commits says: which fragments a read loads, what a consolidation merges and
//! names, and which fragments a vacuum removes.
#![tactic(auto)]

mod choices;
mod hulls;
mod lines;
mod named;
mod plans;
mod selection;
mod totals;
mod vacs;

pub use lines::{decode_vac, encode_vac};
pub use named::{names_merged, removal_set, set_of};
pub use plans::plan;
pub use selection::{Selection, select, selection_of};
pub use vacs::{Limits, Planned, VacList, VacOf};
