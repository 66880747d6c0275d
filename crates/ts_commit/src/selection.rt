//! Which fragments a read loads, and which it does without although they hold what it asks for.
ghost use Rattle.std.specs.Prelude.{◌≡◌, ◌&&◌, ◌||◌, not, IfOk, OnOk, map as list_map};
ghost use Rattle.std.specs.BTreeSet.{contains};
ghost use Rattle.std.specs.List.{list_any};
ghost use Rattle.ts_base.specs.Keys.{frag_cmp, key_cmp, key_eq, is_within};
ghost use Rattle.ts_base.specs.declared.keys.FragKey.{FragKey};
ghost use Rattle.ts_base.specs.declared.keys.Key.{Key};
ghost use Rattle.ts_commit.specs.Selections.{meets, lies_in, has_origin, is_usable, usable, is_head_of, is_named, loaded, clips, clipped_names};
ghost use Rattle.ts_commit.specs.Asked.{AreHeadsOf, AreOfKind, DoCount};

use crate::named::add_named_by;
use crate::vacs::{VacList, VacOf};
use std::alloc::Global;
use std::collections::BTreeSet;
use ts_base::{FragKey, FragList, Head, HeadList, Key, OutOfMemory};

/// Which fragments a read loads, and which are clipped.
#[derive(Debug, Drop, PartialEq, Eq)]
pub struct Selection {
    /// The fragments that the read loads.
    pub loaded: FragList,
    /// The fragments that the read can't use although a write went into them that is stamped in the
    /// interval and went into no fragment that the read can use.
    pub clipped: FragList,
}

/// What a read of the interval from `a` to `b`, both ends included, loads of the committed fragments.
///
/// The heads are those of the committed fragments whose span meets the interval, and each agrees with
/// `dense`, the kind of the array. The `.vac` objects are those that count: their own fragments are
/// committed.
///
/// A fragment can be used where its span meets the interval; of a dense array, where a consolidation
/// kept of each cell the last version alone, where its span lies in the interval. A read loads those
/// that it can use, but for what the `.vac` of one that it can use names. Both lists are in the order
/// of the heads.
pub fn select(
    alloc: Global,
    dense: bool,
    committed: &FragList,
    heads: &HeadList,
    vacs: &VacList,
    a: u64,
    b: u64,
) -> Result<Selection, OutOfMemory>
    requires heads { AreHeadsOf committed.now a b heads.now }
    requires kind { AreOfKind dense heads.now }
    requires count { DoCount committed.now vacs.now }
    ensures loaded { IfOk result (λ selection. selection.loaded ≡ list_map (λ head. head.frag) (loaded a b heads.now vacs.now)) }
    ensures clipped { IfOk result (λ selection. selection.clipped ≡ clipped_names a b heads.now) }
{
    selection_of(alloc, heads, vacs, a, b)
}

/// The same of any heads and `.vac` objects, whether they agree with a listing or not: a read asks it
/// of what it was told.
pub fn selection_of(
    alloc: Global,
    heads: &HeadList,
    vacs: &VacList,
    a: u64,
    b: u64,
) -> Result<Selection, OutOfMemory>
    ensures loaded { IfOk result (λ selection. selection.loaded ≡ list_map (λ head. head.frag) (loaded a b heads.now vacs.now)) }
    ensures clipped { IfOk result (λ selection. selection.clipped ≡ clipped_names a b heads.now) }
{
    let heads = heads.as_slice();
    let loaded = loaded_of(alloc, heads, vacs.as_slice(), a, b)?;
    let clipped = clipped_of(alloc, heads, a, b)?;
    Ok(Selection { loaded, clipped })
}

// The fragments that are loaded.
fn loaded_of(
    alloc: Global,
    heads: &[Head],
    vacs: &[VacOf],
    a: u64,
    b: u64,
) -> Result<FragList, OutOfMemory>
    ensures { IfOk result (λ frags. frags ≡ list_map (λ head. head.frag) (loaded a b heads.now vacs.now)) }
{
    let named = named_by_usable(alloc, heads, vacs, a, b)?;
    let mut frags = FragList::new(alloc);
    for head in heads {
        if is_loaded(&named, head, a, b) {
            frags.push(head.frag)?;
        }
    }
    Ok(frags)
}

// The fragments that are clipped.
fn clipped_of(alloc: Global, heads: &[Head], a: u64, b: u64) -> Result<FragList, OutOfMemory>
    ensures { IfOk result (λ frags. frags ≡ clipped_names a b heads.now) }
{
    let kept = origins_of_usable(alloc, heads, a, b)?;
    let mut frags = FragList::new(alloc);
    for head in heads {
        if is_clipped(&kept, head, a, b) {
            frags.push(head.frag)?;
        }
    }
    Ok(frags)
}

// Whether the fragment is usable and not named.
fn is_loaded(named: &BTreeSet<FragKey>, head: &Head, a: u64, b: u64) -> bool
    ensures { result ≡ (is_usable a b head.now && not (contains frag_cmp named.now head.now.frag)) }
{
    is_usable(head, a, b) && !named.contains(&head.frag)
}

// Whether the fragment is not usable, and a write in the interval went into it that is not kept.
fn is_clipped(kept: &BTreeSet<Key>, head: &Head, a: u64, b: u64) -> bool
    ensures { result ≡ (not (is_usable a b head.now) && list_any (λ k. is_within a b k && not (contains key_cmp kept.now k)) head.now.origins) }
{
    !is_usable(head, a, b) && has_other(kept, head.origins.as_slice(), a, b)
}

// The fragments that the `.vac` objects of usable ones name.
fn named_by_usable(
    alloc: Global,
    heads: &[Head],
    vacs: &[VacOf],
    a: u64,
    b: u64,
) -> Result<BTreeSet<FragKey>, OutOfMemory>
    ensures { IfOk result (λ named. (f : FragKey) → contains frag_cmp named f ≡ is_named (usable a b heads.now) vacs.now f) }
{
    let usable = usable_frags(alloc, heads, a, b)?;
    let mut named = BTreeSet::new(alloc);
    add_named_by(&mut named, &usable, vacs)?;
    Ok(named)
}

// The usable fragments.
#[tactic(auto, using(crate::proofs::Steps::found_yes, crate::proofs::Steps::found_no))]
fn usable_frags(
    alloc: Global,
    heads: &[Head],
    a: u64,
    b: u64,
) -> Result<BTreeSet<FragKey>, OutOfMemory>
    ensures { IfOk result (λ frags. (f : FragKey) → contains frag_cmp frags f ≡ list_any (is_head_of f) (usable a b heads.now)) }
{
    let mut frags = BTreeSet::new(alloc);
    for head in heads {
        if is_usable(head, a, b) {
            frags.insert(head.frag)?;
        }
    }
    Ok(frags)
}

// The writes that went into usable fragments.
#[tactic(auto, using(crate::proofs::Steps::found_yes, crate::proofs::Steps::found_no))]
fn origins_of_usable(
    alloc: Global,
    heads: &[Head],
    a: u64,
    b: u64,
) -> Result<BTreeSet<Key>, OutOfMemory>
    ensures { IfOk result (λ origins. (k : Key) → contains key_cmp origins k ≡ list_any (has_origin k) (usable a b heads.now)) }
{
    let mut origins = BTreeSet::new(alloc);
    for head in heads {
        if is_usable(head, a, b) {
            add_keys(&mut origins, head.origins.as_slice())?;
        }
    }
    Ok(origins)
}

// Adds keys to others.
fn add_keys(set: &mut BTreeSet<Key>, keys: &[Key]) -> Result<(), OutOfMemory>
    ensures { OnOk result ((k : Key) → contains key_cmp set.new k ≡ (contains key_cmp set.old k || list_any (key_eq k) keys.now)) }
{
    for key in keys {
        set.insert(*key)?;
    }
    Ok(())
}

// Whether one of these keys is stamped in the interval and is none of the others.
fn has_other(others: &BTreeSet<Key>, keys: &[Key], a: u64, b: u64) -> bool
    ensures { result ≡ list_any (λ k. is_within a b k && not (contains key_cmp others.now k)) keys.now }
{
    for key in keys {
        if is_other(others, *key, a, b) {
            return true;
        }
    }
    false
}

// Whether the key is stamped in the interval and is none of the others.
fn is_other(others: &BTreeSet<Key>, key: Key, a: u64, b: u64) -> bool
    ensures { result ≡ (is_within a b key && not (contains key_cmp others.now key)) }
{
    a <= key.t && key.t <= b && !others.contains(&key)
}

// Whether a read of the interval can use the fragment.
fn is_usable(head: &Head, a: u64, b: u64) -> bool
    ensures { result ≡ is_usable a b head.now }
{
    meets(head.frag, a, b) && (!head.dense || lies_in(head.frag, a, b))
}

// Whether the span of the fragment meets the interval.
fn meets(frag: FragKey, a: u64, b: u64) -> bool
    ensures { result ≡ meets a b frag }
{
    a <= b && frag.t1 <= b && a <= frag.t2
}

// Whether the span of the fragment lies in the interval.
fn lies_in(frag: FragKey, a: u64, b: u64) -> bool
    ensures { result ≡ lies_in a b frag }
{
    a <= frag.t1 && frag.t2 <= b
}
