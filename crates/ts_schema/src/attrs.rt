//! Attributes: what a cell holds beside its coordinates.
ghost use Rattle.std.specs.Prelude.{◌≡◌};
ghost use Rattle.ts_schema.specs.Attrs.{has_attr};

use std::alloc::Global;
use ts_base::{Duplicate, Label, OutOfMemory, Sequence, Val, ValType};

/// An attribute: a value that each cell has. See the TileDB format specification, "Attribute".
#[derive(Clone, Debug, Drop, PartialEq, Eq)]
pub struct Attr {
    /// The name.
    pub name: Label,
    /// The type of the values.
    pub ty: ValType,
    /// Whether a value may be null.
    pub nullable: bool,
    /// What a cell shows where nothing was written.
    pub fill: Val,
}

/// A list of attributes.
pub type AttrList = Sequence<Attr>;

impl Duplicate for Attr {
    fn copy(&self, _alloc: Global) -> Result<Attr, OutOfMemory> {
        Ok(self.clone()?)
    }
}

/// Whether one of the attributes has the name.
pub fn has_attr(attrs: &[Attr], name: &Label) -> bool
    ensures { result ≡ has_attr attrs.now name.now }
{
    attrs.iter().any(|attr| attr.name == *name)
}
