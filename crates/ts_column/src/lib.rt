//! Tiles of columns: the values of some cells of one attribute as bytes, and as a column.
#![tactic(auto)]

mod bulk;
mod bytes;
mod coords;
mod decoding;
mod encoding;
mod numbers;
mod objects;
mod origins;
mod parallel;
mod rows;
mod stored;
mod texts;
mod tiles;
mod words;

pub use coords::decode_coords;
pub use decoding::decode_column;
pub use encoding::{encode_column, is_signed};
pub use objects::column_object;
pub use origins::{decode_origins, encode_origins};
pub use parallel::{ColumnList, decode_all};
pub use rows::{decode_tile, encode_tile};
pub use tiles::{Tile, TileFault, TileView, TileViewList};
