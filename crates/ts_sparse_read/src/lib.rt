//! Reading sparse fragments in tiles: which tiles of which columns a fetch gets, and what they hold.
#![tactic(auto)]

mod bounds;
mod cells;
mod columns;
mod decoding;
mod faults;
mod forms;
mod judging;
mod laws;
mod near;
mod opened;
mod opening;
mod ordering;
mod pieces;
mod planning;
mod ranges;
mod reading;
mod sifted;
mod spans;
mod tiles;
mod used;
mod versions;

pub use bounds::{are_bounds, is_box_in};
pub use columns::vals_or_read;
pub use decoding::{TileColumns, decode_tiles};
pub use faults::CellFault;
pub use forms::column_forms;
pub use judging::told;
pub use laws::{
    fetches_get_the_tiles_that_meet_their_box, fetches_take_cells_in_order,
    fragments_in_tiles_are_read_again, what_is_refused_is_broken,
};
pub use near::is_cell_in;
pub use opened::{
    MOST_ATTRS, Opened, Span, SpanList, UsedColumn, UsedList, WantedTile, WantedTiles,
};
pub use opening::open;
pub use pieces::SparsePieces;
pub use planning::plan_of;
pub use ranges::Ranges;
pub use used::{NamedParts, column_parts, is_among, used_among};
pub use versions::origin_key;
