//! Dense fragments in tiles: each column in an object of its own, cut by the space tiles of the array,
//! and metadata that says where the tiles start. Coordinates are not stored.
#![tactic(auto)]

mod building;
mod columns;
mod laws;
mod metadata;
mod slots;
mod starts;

pub use building::build;
pub use laws::{
    parts_spell_their_piece, parts_store_one_piece, pieces_have_one_form,
    slots_stand_in_global_order, tiles_that_meet_suffice,
};
