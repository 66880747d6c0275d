//! Tables of some rows of columns, and the coordinates of a box as columns.
#![tactic(auto)]

mod boxes;
mod chosen;
mod parts;
mod rows;
mod runs;
mod shared;
mod sides;
mod starts;

pub use boxes::box_of;
pub use parts::part_over;
pub use rows::table_of;
pub use shared::shared_part;
pub use sides::coords_columns;
pub use starts::{does_cover, run_in, run_starts};
