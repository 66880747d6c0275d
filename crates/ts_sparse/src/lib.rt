//! Sparse fragments in tiles: each column in an object of its own, and metadata with a tree over the
//! boxes of the tiles.
#![tactic(auto)]

mod building;
mod columns;
mod coords;
mod laws;
mod laying;
mod metadata;
mod text_objects;
mod values;

pub use building::build;
pub use columns::{
    is_there, number_of, numbers_object, origins_object, text_of, texts_of, validity_object,
};
pub use laws::{
    a_leaf_is_the_hull_of_its_cells, metadata_is_read_back, parts_spell_their_piece,
    parts_store_one_piece, pieces_have_one_form, the_last_box_is_the_hull, tiles_are_ranges,
    tiles_keep_the_order, tiles_that_meet_suffice,
};
pub use laying::Laid;
pub use metadata::write_sizes;
