//! What a read asks for.

use std::alloc::Global;
use ts_base::{ByteList, Duplicate, Label, LabelList, OutOfMemory, Sequence};
use ts_domain::Layout;

/// The bounds of a box in one dimension, both included.
#[derive(Clone, Copy, Debug, PartialEq, Eq)]
pub struct NamedBox {
    /// The name of the dimension.
    pub name: Label,
    /// The least coordinate.
    pub low: i128,
    /// The greatest coordinate, at least the least one.
    pub high: i128,
}

/// The bounds of a box by the names of the dimensions. A dimension that is not named has its whole
/// domain.
pub type NamedBoxList = Sequence<NamedBox>;

/// What a read asks for.
#[derive(Clone, Debug, Drop, PartialEq, Eq)]
pub struct Query {
    /// The box of the cells.
    pub sub: NamedBoxList,
    /// The fields that are shown, in order; a field may be named twice. None means all dimensions
    /// and then all attributes of the schema that holds at the end of the interval.
    pub fields: LabelList,
    /// The text of a condition; only the rows that match it are shown, each as it shows through the
    /// schema that holds at the end of the interval.
    pub filter: Option<ByteList>,
    /// The order of the rows.
    pub layout: Layout,
}

impl Duplicate for Query {
    fn copy(&self, _alloc: Global) -> Result<Query, OutOfMemory> {
        Ok(self.clone()?)
    }
}
