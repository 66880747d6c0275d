//! What is known of a fragment from its metadata when its tiles are read.
use ts_plain::StoredHead;
use ts_schema::{AttrList, Frame, Want};
use ts_sparse_read::WantedTiles;

/// What is known of a dense fragment when its tiles are read: what is wanted of it, and in which tiles.
#[derive(Debug, Drop)]
pub struct Opened {
    /// The frame of the array.
    pub frame: Frame,
    /// The attributes of the schema that the cells are written in.
    pub attrs: AttrList,
    /// What is wanted.
    pub want: Want,
    /// What the metadata says before the number of tiles.
    pub head: StoredHead,
    /// The space tiles that meet the box that is wanted, each cut to the fragment's hull.
    pub tiles: WantedTiles,
}
