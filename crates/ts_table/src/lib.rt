//! Cells in typed columns: lists of integers, of byte lists, of values and of versions, which
//! contracts see as plain lists.
#![tactic(auto)]

mod box_table;
mod cell;
mod column;
mod kinds;
mod long;
mod merging;
mod numbers;
mod order;
mod ordering;
mod origins;
mod picked;
mod ranks;
mod rows;
mod slices;
mod spots;
mod table;
mod texts;

pub use box_table::{BoxParts, BoxTable};
pub use cell::Cell;
pub use column::{Column, Seen};
pub use kinds::{Kind, Kinds};
pub use merging::{CellList, merge_tables, merge_two, newest_alone};
pub use numbers::{Integers, Numbers};
pub use order::CellOrder;
pub use ordering::{are_versions_in_order, is_in_order, is_inside, ordered_places};
pub use origins::Origin;
pub use picked::{Picked, stamped};
pub use table::{Table, is_table};
pub use texts::Texts;
