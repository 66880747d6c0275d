//! The small types that every layer shares: keys, names, coordinates, values and the pieces of
//! fragments.
#![tactic(auto)]

mod ascii;
mod boxes;
mod coords;
mod heads;
mod keys;
mod labels;
mod lists;
mod names;
mod parse;
mod spelling;
mod values;

pub use boxes::Boxed;
pub use coords::Coords;
pub use heads::{
    Cell, CellList, Head, HeadList, Piece, Point, Stop, Version, VersionList, VersionLists,
};
pub use keys::{FragKey, FragList, Key, KeyList};
pub use labels::{Label, LabelList};
pub use lists::{
    ByteList, CountList, Duplicate, IndexList, LengthList, OutOfMemory, Sequence, StartList,
};
pub use names::{CommitKind, LeaseMode, Name, NameList, Part, PartBytes, PartList, Place, Prefix};
pub use spelling::NameText;
pub use values::{Row, RowList, Val, ValType};
