//! The head of a merged piece: what follows from the heads of its sources.
ghost use Rattle.std.specs.Prelude.{◌≡◌, [], ◌∷◌, length, All, IfOk, OnOk};
ghost use Rattle.std.specs.BTreeSet.{insert_key};
ghost use Rattle.std.specs.List.{fold};
ghost use Rattle.ts_base.specs.Keys.{key_cmp};
ghost use Rattle.ts_base.specs.declared.heads.Head.{Head as AnyHead};
ghost use Rattle.ts_domain.specs.Boxes.{IsBox};
ghost use Rattle.ts_model.specs.Consolidated.{box_in};
ghost use Rattle.ts_model.specs.Merging.{HasBox, cells_told, first_from, hull_from, last_from, merged_head, origins_of_all};

use std::alloc::{AllocError, Global};
use std::collections::BTreeSet;
use ts_base::{FragKey, Head, Key, KeyList, OutOfMemory};
use ts_domain::SubBox;
use ts_schema::Frame;

/// The head of a first source and others, which keep so many versions, with the origins of all of
/// them.
///
/// In a dense array it counts the cells of its hull, `u64::MAX` at most; in a sparse one the versions.
pub(crate) fn merged_head(
    frame: &Frame,
    id: u128,
    first: &Head,
    others: &[Head],
    origins: KeyList,
    many: u64,
) -> Head
    requires own { HasBox frame.now first.now }
    requires boxes { All (HasBox frame.now) others.now }
    requires all { origins ≡ origins_of_all (first.now ∷ others.now) }
    ensures { result ≡ merged_head id first.now others.now many }
{
    let hull = hull_from(frame, box_in(first), others);
    let cells = cells_told(first.dense, &hull, many);
    Head {
        frag: FragKey {
            t1: first_from(first.frag.t1, others),
            t2: last_from(first.frag.t2, others),
            id,
            v: 1,
        },
        schema: first.schema,
        dense: first.dense,
        consolidated: true,
        low: hull.low,
        high: hull.high,
        cells,
        origins,
    }
}

// The number that a head has for its cells.
fn cells_told(dense: bool, hull: &SubBox, many: u64) -> u64
    requires own { IsBox hull.now }
    ensures { result ≡ cells_told dense hull.now many }
{
    if dense { hull.cells() } else { many }
}

// The least timestamp of a fragment and of others.
fn first_from(t: u64, heads: &[Head]) -> u64
    ensures { result ≡ first_from t heads.now }
{
    let mut least = t;
    for head in heads {
        least = least.min(head.frag.t1);
    }
    least
}

// The greatest timestamp of a fragment and of others.
fn last_from(t: u64, heads: &[Head]) -> u64
    ensures { result ≡ last_from t heads.now }
{
    let mut greatest = t;
    for head in heads {
        greatest = greatest.max(head.frag.t2);
    }
    greatest
}

// The least box that has a box and those of heads.
fn hull_from(frame: &Frame, own: SubBox, heads: &[Head]) -> SubBox
    requires own { IsBox own }
    requires dims { length own.low ≡ length frame.now.domain }
    requires boxes { All (HasBox frame.now) heads.now }
    ensures least { result ≡ hull_from own heads.now }
    ensures valid { IsBox result }
{
    let mut hull = own;
    for head in heads {
        hull = hull.hull(&box_in(head));
    }
    hull
}

// The box between the corners of a head.
fn box_in(head: &Head) -> SubBox
    ensures { result ≡ box_in head.now }
{
    SubBox {
        low: head.low,
        high: head.high,
    }
}

/// The origins of a first source and others, ascending and each once.
pub(crate) fn origins_of_all(
    alloc: Global,
    first: &Head,
    others: &[Head],
) -> Result<KeyList, OutOfMemory>
    ensures { IfOk result (λ origins. origins ≡ origins_of_all (first.now ∷ others.now)) }
{
    let mut origins = BTreeSet::new(alloc);
    add_all(&mut origins, first.origins.as_slice())?;
    for head in others {
        add_all(&mut origins, head.origins.as_slice())?;
    }
    Ok(KeyList::from_vec(in_list(alloc, &origins)?))
}

// Adds keys to others.
fn add_all(set: &mut BTreeSet<Key>, keys: &[Key]) -> Result<(), OutOfMemory>
    ensures { OnOk result (set.new.keys ≡ fold (insert_key key_cmp) set.old.keys keys.now) }
{
    for key in keys {
        set.insert(*key)?;
    }
    Ok(())
}

// The keys as a list, ascending.
fn in_list(alloc: Global, set: &BTreeSet<Key>) -> Result<Vec<Key>, AllocError>
    ensures { IfOk result (λ keys. keys.items ≡ set.now.keys) }
{
    set.iter().copied().collect(alloc)
}
