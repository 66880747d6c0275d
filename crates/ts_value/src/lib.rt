//! Values: which fit a type, what fills a cell that was not written, and how values are ordered.
#![tactic(auto)]

mod fills;
mod fitting;
mod order;

pub use fills::default_fill;
pub use fitting::{fits, fits_are_tested, is_text};
pub use order::{compare, values_are_ordered};
pub use ts_base::{Duplicate, Row, RowList, Val, ValType};
