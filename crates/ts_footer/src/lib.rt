//! The metadata of fragments in tiles: which columns a fragment has, where their tiles start, and the
//! tree over the boxes of its tiles.
#![tactic(auto)]

mod columns;
mod footers;
mod leaves;
mod metas;
mod sizes;
mod tilings;
mod trees;
mod writing;

pub use columns::{ColumnForm, ColumnSize, FormList, SizeList};
pub use footers::{Footer, read_dense_footer, read_footer};
pub use leaves::leaves_of;
pub use metas::{Meta, read_dense_head, read_head};
