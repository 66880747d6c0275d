//! Reading dense fragments in space tiles: which tiles of which columns a fetch gets, and what they hold.
#![tactic(auto)]

mod before;
mod boxed;
mod holes;
mod judging;
mod opened;
mod opening;
mod origins;
mod parts;
mod pieces;
mod ranges;
mod reading;
mod rows;
mod slots;
mod spans;
mod tiles;
mod used;
mod versions;

pub use boxed::BoxedFetch;
pub use opened::Opened;
pub use opening::open;
pub use pieces::DensePieces;
