//! What can be wrong with the attributes of a schema.
ghost use Rattle.std.specs.Prelude.{◌≡◌};
ghost use Rattle.ts_schema.specs.declared.faults.SchemaFault.TheVariants as fault;

use ts_base::{Label, OutOfMemory};

/// Why there is no schema of some attributes.
#[derive(Clone, Copy, Debug, PartialEq, Eq)]
pub enum SchemaFault {
    /// An earlier attribute, or a dimension, has this name.
    DuplicateAttr(Label),
    /// No attribute has this name, which was to be taken away; or it was to be taken away twice.
    UnknownAttr(Label),
    /// There is no attribute.
    NoAttrLeft,
    /// There are more than 64 attributes.
    TooManyAttrs { count: u64 },
    /// The fill of the attribute of this name does not fit its type and nullability.
    BadFill(Label),
    /// There was no memory for the schema.
    OutOfMemory,
}

impl From<OutOfMemory> for SchemaFault {
    ghost from_gives = { λ _ made. made ≡ fault.OutOfMemory };

    fn from(_error: OutOfMemory) -> SchemaFault {
        SchemaFault::OutOfMemory
    }
}
