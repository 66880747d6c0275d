//! Plain fragments: a whole fragment in one object, over any frame and schema.
#![tactic(auto)]

mod merging;
mod pieces;
mod reading;
mod rules;
mod stored;
mod writing;

pub use merging::{merge_all, merge_two, newest_alone};
pub use pieces::{head_of, highs, lows};
pub use reading::{read_fields, read_full_fields, read_head, read_plain};
pub use stored::{Side, SideList, StoredCell, StoredCellList, StoredHead, StoredPiece};
pub use ts_schema::{Want, taken};
pub use writing::{place_of, write_head, write_plain, write_plain_head};
