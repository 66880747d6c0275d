//! What a listing of the commits names: fragments, deletes and the `.vac` objects that count.
ghost use Rattle.std.specs.Prelude.{◌≡◌, ◌++◌, filter, filter_map, option_to_list, All, IfOk, IfSome, OnOk};
ghost use Rattle.std.specs.BTreeSet.{contains};
ghost use Rattle.ts_base.specs.Keys.{frag_cmp};
ghost use Rattle.ts_base.specs.Names.{IsSpelled};
ghost use Rattle.ts_model.specs.States.{counting_in};
ghost use Rattle.ts_actor.specs.Listings.{IsSpelledAs, IsSpelledVac, frag_in};

use std::alloc::Global;
use std::collections::BTreeSet;
use ts_base::{CommitKind, FragKey, FragList, Name, OutOfMemory};
use ts_commit::set_of;

/// What the objects of a kind name, in the order of the listing.
pub fn frags_in(alloc: Global, kind: CommitKind, names: &[Name]) -> Result<FragList, OutOfMemory>
    requires { All IsSpelled names.now }
    ensures is { IfOk result (λ frags. frags ≡ filter_map (frag_in kind) names.now) }
    ensures spelled { IfOk result (All (IsSpelledAs kind)) }
{
    let mut frags = FragList::new(alloc);
    for name in names {
        add_frag(&mut frags, kind, *name)?;
    }
    Ok(frags)
}

// Adds what an object names, where it is of the kind.
fn add_frag(frags: &mut FragList, kind: CommitKind, name: Name) -> Result<(), OutOfMemory>
    requires name_spelled { IsSpelled name }
    requires frags_spelled { All (IsSpelledAs kind) frags.old }
    ensures is { OnOk result (frags.new ≡ frags.old ++ option_to_list (frag_in kind name)) }
    ensures spelled { OnOk result (All (IsSpelledAs kind) frags.new) }
{
    match frag_in(kind, name) {
        Some(frag) => frags.push(frag),
        None => Ok(()),
    }
}

// What an object of the kind names.
fn frag_in(kind: CommitKind, name: Name) -> Option<FragKey>
    requires { IsSpelled name }
    ensures is { result ≡ frag_in kind name }
    ensures spelled { IfSome result (IsSpelledAs kind) }
{
    match (kind, name) {
        (CommitKind::Wrt, Name::Commit(frag, CommitKind::Wrt)) => Some(frag),
        (CommitKind::Del, Name::Commit(frag, CommitKind::Del)) => Some(frag),
        (CommitKind::Vac, Name::Commit(frag, CommitKind::Vac)) => Some(frag),
        _ => None,
    }
}

/// The fragments whose `.vac` counts, in the order of the listing: they are committed.
pub fn counting_in(alloc: Global, names: &[Name]) -> Result<FragList, OutOfMemory>
    requires { All IsSpelled names.now }
    ensures is { IfOk result (λ frags. frags ≡ counting_in names.now) }
    ensures spelled { IfOk result (All IsSpelledVac) }
{
    let committed = frags_in(alloc, CommitKind::Wrt, names)?;
    let set = set_of(alloc, committed.as_slice())?;
    let merged = frags_in(alloc, CommitKind::Vac, names)?;
    among(alloc, &set, merged)
}

// Those fragments that are in a set, in their order.
fn among(alloc: Global, set: &BTreeSet<FragKey>, frags: FragList) -> Result<FragList, OutOfMemory>
    ensures { IfOk result (λ chosen. chosen ≡ filter (contains frag_cmp set.now) frags) }
{
    let mut chosen = FragList::new(alloc);
    for frag in frags.into_vec() {
        if set.contains(&frag) {
            chosen.push(frag)?;
        }
    }
    Ok(chosen)
}
