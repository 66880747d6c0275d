//! Which fragments a consolidation may merge.
ghost use Rattle.std.specs.Prelude.{◌≡◌, length};
ghost use Rattle.ts_base.specs.Keys.{key_eq};
ghost use Rattle.ts_commit.specs.Plans.{is_inside};
ghost use Rattle.ts_commit.specs.Passes.{passes, passed};

use std::collections::BTreeSet;
use ts_base::{FragKey, Head, Key};

/// The committed fragments in an interval that no `.vac` names.
#[derive(Drop)]
pub(crate) struct Eligible {
    /// The fragments that `.vac` objects name.
    pub(crate) merged: BTreeSet<FragKey>,
    /// The least timestamp of the interval.
    pub(crate) from: u64,
    /// The greatest timestamp of the interval.
    pub(crate) to: u64,
}

impl Eligible {
    /// Whether the fragment of the head is one of them.
    pub(crate) fn has(&self, head: &Head) -> bool
        ensures { result ≡ passes self.now head.now }
    {
        is_inside(head.frag, self.from, self.to) && !self.merged.contains(&head.frag)
    }

    /// How many of the heads are of such fragments.
    pub(crate) fn count(&self, heads: &[Head]) -> u64
        ensures { result ≡ length (passed self.now heads.now) }
    {
        heads.iter().filter(|head| self.has(head)).count() as u64
    }
}

/// Whether the fragment of the head is written in the schema.
pub(crate) fn is_of_schema(head: &Head, schema: Key) -> bool
    ensures { result ≡ key_eq head.now.schema schema }
{
    head.schema == schema
}

// Whether both timestamps of the fragment are in the interval.
fn is_inside(frag: FragKey, a: u64, b: u64) -> bool
    ensures { result ≡ is_inside a b frag }
{
    a <= frag.t1 && frag.t1 <= b && a <= frag.t2 && frag.t2 <= b
}
