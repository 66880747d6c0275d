//! The kinds of objects.
ghost use Rattle.std.specs.Prelude.{◌≡◌};
ghost use Rattle.ts_wire.specs.Envelope.{kind_code};

/// The kind of an object, which its envelope names by a number.
///
/// The commit markers and the leases of an array are empty objects, and have no envelope.
#[derive(Clone, Copy, Debug, PartialEq, Eq)]
pub enum Kind {
    /// The frame of the array: its dimensions, orders and capacity.
    Domain = 1,
    /// A schema: the attributes.
    Schema = 2,
    /// A delete condition.
    Delete = 3,
    /// The sources of a consolidation.
    Vac = 4,
    /// The metadata of a fragment.
    Meta = 5,
    /// A column of a fragment: its tiles, one after another.
    Column = 6,
    /// A fragment in one plain object.
    Plain = 7,
}

impl Kind {
    /// The number that the envelope holds.
    pub fn code(self) -> u8
        ensures { result ≡ kind_code self }
    {
        self as u8
    }
}
