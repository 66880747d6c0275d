//! Names, labels, values, lists and heads.

mod boxes;
mod coords;
mod heads;
mod labels;
mod lists;
mod names;
mod parse;
mod spelling;
mod values;
