//! Names of the objects of an array, and the prefixes by which they are listed.
ghost use Rattle.std.specs.Prelude.{◌≡◌, ◌↔◌, IsTrue};
ghost use Rattle.ts_base.specs.Names.{is_under};
ghost use Rattle.ts_base.specs.Spelling.{Begins, FitsName, FitsPrefix, name_text, prefix_text};

use crate::keys::{FragKey, Key};
use crate::lists::{ByteList, Duplicate, OutOfMemory, Sequence};
use std::alloc::Global;

/// One part of a fragment: its metadata, or one of its columns.
///
/// The numbers of attributes run from 0 to 63, those of dimensions from 0 to 7.
#[derive(Clone, Copy, Debug, PartialEq, Eq, PartialOrd, Ord)]
pub enum Part {
    /// The fragment's metadata, `__fragment_metadata.tdb`.
    Meta,
    /// The values of an attribute, `aN.tdb`; of one of variable length, the offsets of its values.
    Attr(u8),
    /// The bytes of an attribute of variable length, `aN_var.tdb`.
    Var(u8),
    /// Which cells of a nullable attribute have a value, `aN_validity.tdb`.
    Validity(u8),
    /// The coordinates of a dimension, `dN.tdb`.
    Dim(u8),
    /// For each cell of a consolidated fragment the write that it came from, `o.tdb`.
    Origin,
    /// A whole fragment in one object, `plain.tdb`.
    Plain,
}

/// What an object among the commits says of its fragment.
#[derive(Clone, Copy, Debug, PartialEq, Eq, PartialOrd, Ord)]
pub enum CommitKind {
    /// The fragment is committed, `.wrt`; the object is empty.
    Wrt,
    /// A condition by which cells are deleted, `.del`.
    Del,
    /// The fragments that a consolidation merged into this one, `.vac`.
    Vac,
}

/// How a lease lets others hold one beside it.
#[derive(Clone, Copy, Debug, PartialEq, Eq, PartialOrd, Ord)]
pub enum LeaseMode {
    /// Beside others that are shared, `.shr`.
    Shr,
    /// Beside no other, `.exc`.
    Exc,
}

/// The name of an object of an array.
///
/// Names are ordered by kind, and then by content: this is the order of listings. The layout
/// follows the array directories of the TileDB format specification.
#[derive(Clone, Copy, Debug, PartialEq, Eq, PartialOrd, Ord)]
pub enum Name {
    /// The frame of the array, `__domain.tdb`: kind, dimensions, orders and capacity.
    Domain,
    /// A schema, `__schema/__t_t_id`.
    Schema(Key),
    /// What is said of a fragment or a delete, `__commits/__t1_t2_id_1.wrt`, `.del` or `.vac`.
    Commit(FragKey, CommitKind),
    /// A part of a fragment, in the folder `__fragments/__t1_t2_id_1/`.
    Part(FragKey, Part),
    /// A lease, `__leases/__t_t_id.shr` or `.exc`; the object is empty.
    Lease(Key, LeaseMode),
}

impl Name {
    /// Whether the name stands under the prefix, which is whether its spelling begins with the
    /// prefix's spelling.
    #[tactic(auto, using(crate::proofs::Prefixes::under_begins))]
    pub fn under(&self, prefix: Prefix) -> bool
        ensures same { result ≡ is_under prefix self.now }
        ensures begins { IsTrue result ↔ Begins (name_text self.now) (prefix_text prefix) }
    {
        stands_under(*self, prefix)
    }
}

/// Whether the name stands under the prefix, by their kinds and what they hold.
fn stands_under(name: Name, prefix: Prefix) -> bool
    ensures same { result ≡ is_under prefix name }
    ensures name { FitsName name }
    ensures prefix { FitsPrefix prefix }
{
    match (name, prefix) {
        (Name::Schema(_), Prefix::Schemas) => true,
        (Name::Commit(_, _), Prefix::Commits) => true,
        (Name::Lease(_, _), Prefix::Leases) => true,
        (Name::Part(frag, _), Prefix::Fragment(folder)) => frag == folder,
        _ => false,
    }
}

/// The beginning of names that a listing asks for.
#[derive(Clone, Copy, Debug, PartialEq, Eq)]
pub enum Prefix {
    /// All schemas, `__schema/`.
    Schemas,
    /// All commits, `__commits/`.
    Commits,
    /// All leases, `__leases/`.
    Leases,
    /// The parts of one fragment, `__fragments/__t1_t2_id_1/`.
    Fragment(FragKey),
}

/// What a call to a store speaks of: one object, or all below a prefix.
#[derive(Clone, Copy, Debug, PartialEq, Eq)]
pub enum Place {
    /// One object.
    Name(Name),
    /// All objects whose names begin with the prefix.
    Prefix(Prefix),
}

/// A part of a fragment with the bytes of its object.
#[derive(Clone, Debug, Drop, PartialEq, Eq)]
pub struct PartBytes {
    /// Which part it is.
    pub part: Part,
    /// The bytes of the whole object.
    pub bytes: ByteList,
}

/// A list of names.
pub type NameList = Sequence<Name>;

/// The parts of a fragment with their bytes.
pub type PartList = Sequence<PartBytes>;

impl Duplicate for PartBytes {
    fn copy(&self, _alloc: Global) -> Result<PartBytes, OutOfMemory> {
        Ok(self.clone()?)
    }
}
