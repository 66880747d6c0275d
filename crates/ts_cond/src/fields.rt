//! What a condition knows of the fields that it names.

use std::alloc::Global;
use ts_base::{Duplicate, Label, OutOfMemory, Sequence, Val, ValType};

/// A field of an array, a dimension or an attribute, as a condition records it.
#[derive(Clone, Debug, Drop, PartialEq, Eq)]
pub struct CondField {
    /// The field's name.
    pub name: Label,
    /// The dimension's index, from 0, or None for an attribute.
    pub dim: Option<u8>,
    /// The type of the values.
    pub ty: ValType,
    /// Whether the values may be null. A dimension's may not.
    pub nullable: bool,
    /// The value that stands where a cell has no value of this field.
    pub fill: Val,
}

/// A list of fields.
pub type CondFieldList = Sequence<CondField>;

/// Where the value of one of a condition's fields is found.
#[derive(Debug, Drop, PartialEq, Eq)]
pub enum Pick {
    /// In the coordinates, at this dimension.
    Coord(u8),
    /// In the row, at this place.
    Attr(u32),
    /// Nowhere: this value stands in its place.
    Fill(Val),
}

/// For each field of a condition where its value is found.
pub type PickList = Sequence<Pick>;

impl Duplicate for CondField {
    fn copy(&self, _alloc: Global) -> Result<CondField, OutOfMemory> {
        Ok(self.clone()?)
    }
}
