//! The places of versions, by which those of several fragments are put in order.

use crate::places::GlobalPlace;
use ts_base::Key;

/// The place of a version: that of its cell in global order, and at one cell the key of its write.
#[derive(Clone, Copy, Debug, PartialEq, Eq, PartialOrd, Ord)]
pub struct VersionPlace {
    /// The place of the cell.
    pub place: GlobalPlace,
    /// The key of the write.
    pub key: Key,
}
