//! Keys of schemas, writes and deletes, and of fragments.
ghost use Rattle.std.specs.Prelude.{◌≡◌};
ghost use Rattle.ts_base.specs.Keys.{is_within};

use crate::lists::Sequence;

/// The key of a schema, a write or a delete: a timestamp and an identifier.
///
/// Keys are compared by timestamp, then by identifier, so that two writes at one timestamp still
/// have an order.
#[derive(Clone, Copy, Debug, PartialEq, Eq, PartialOrd, Ord)]
pub struct Key {
    /// The timestamp, in milliseconds since 1970-01-01.
    pub t: u64,
    /// The identifier: 128 bits that no other key of the array has.
    pub id: u128,
}

impl Key {
    /// Whether the key is stamped in the interval from `from` to `to`, which both count as inside.
    pub fn is_within(&self, from: u64, to: u64) -> bool
        ensures { result ≡ is_within from to self.now }
    {
        from <= self.t && self.t <= to
    }
}

/// The key of a fragment: the span of its timestamps, its identifier and its format version.
///
/// It is ordered by its fields in turn. The names of fragments are those of the TileDB format
/// specification, `__t1_t2_uuid_v`.
#[derive(Clone, Copy, Debug, PartialEq, Eq, PartialOrd, Ord)]
pub struct FragKey {
    /// The least timestamp of the fragment, in milliseconds since 1970-01-01.
    pub t1: u64,
    /// The greatest timestamp of the fragment, in milliseconds since 1970-01-01.
    pub t2: u64,
    /// The identifier of the job that made the fragment.
    pub id: u128,
    /// The version of the format that the fragment is written in.
    pub v: u8,
}

/// A list of keys.
pub type KeyList = Sequence<Key>;

/// A list of keys of fragments.
pub type FragList = Sequence<FragKey>;
