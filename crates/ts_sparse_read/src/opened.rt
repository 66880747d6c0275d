//! What is known of a fragment from its metadata when its tiles are read.
use ts_base::{Part, Sequence};
use ts_domain::SubBox;
use ts_footer::{ColumnForm, ColumnSize};
use ts_plain::StoredHead;
use ts_schema::{AttrList, Frame, Want};

/// The most attributes of a schema.
pub const MOST_ATTRS: usize = 64;

/// The object of a column, and what the metadata says of it.
#[derive(Debug, Drop, PartialEq, Eq)]
pub struct UsedColumn {
    /// The part that the object is.
    pub part: Part,
    /// How many bytes it has for each cell.
    pub form: ColumnForm,
    /// How long it is, and where its tiles start if its cells differ in length.
    pub size: ColumnSize,
}

/// A list of objects of columns.
pub type UsedList = Sequence<UsedColumn>;

/// Where the bytes of a tile stand in the object of a column.
#[derive(Clone, Copy, Debug, PartialEq, Eq)]
pub struct Span {
    /// The part that the object is.
    pub part: Part,
    /// The offset of the first byte, from the object's start.
    pub from: u64,
    /// The number of bytes.
    pub count: u64,
}

/// A list of spans.
pub type SpanList = Sequence<Span>;

/// A tile that a fetch reads.
#[derive(Debug, Drop, PartialEq, Eq)]
pub struct WantedTile {
    /// The number of its cells.
    pub cells: u64,
    /// The least box that has its cells.
    pub leaf: SubBox,
    /// Where its bytes stand, in each object of a column that the fetch reads.
    pub spans: SpanList,
}

/// A list of tiles.
pub type WantedTiles = Sequence<WantedTile>;

/// What is known of a fragment when its tiles are read: what is wanted of it, and in which tiles.
#[derive(Debug, Drop)]
pub struct Opened {
    /// The frame of the array.
    pub frame: Frame,
    /// The attributes of the schema that the cells are written in.
    pub attrs: AttrList,
    /// What is wanted.
    pub want: Want,
    /// What the metadata says before the number of tiles.
    pub head: StoredHead,
    /// The tiles whose boxes meet the box that is wanted.
    pub tiles: WantedTiles,
}
