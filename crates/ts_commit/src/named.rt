//! What the `.vac` objects of a listing name.
ghost use Rattle.std.specs.Prelude.{◌≡◌, [], IfOk, OnOk, filter};
ghost use Rattle.std.specs.BTreeSet.{contains, IsOrdered};
ghost use Rattle.std.specs.List.{flat_map, list_any};
ghost use Rattle.std.specs.List.Sorted.{IsStrictlySortedBy};
ghost use Rattle.ts_base.specs.Keys.{frag_cmp};
ghost use Rattle.ts_base.specs.declared.keys.FragKey.{FragKey};
ghost use Rattle.ts_commit.specs.Selections.{with_names, is_among, is_merged, is_taken, removal_set, names_merged};

use crate::vacs::{VacList, VacOf};
use std::alloc::{AllocError, Global};
use std::collections::BTreeSet;
use ts_base::{FragKey, FragList, OutOfMemory};

/// The removal set of a vacuum: every fragment that the `.vac` objects name which count, ascending
/// and each once.
pub fn removal_set(alloc: Global, vacs: &VacList) -> Result<FragList, OutOfMemory>
    ensures set { IfOk result (λ names. names ≡ removal_set vacs.now) }
    ensures ascend { IfOk result (IsStrictlySortedBy frag_cmp) }
    ensures named { IfOk result (λ names. (f : FragKey) → is_among f names ≡ is_merged vacs.now f) }
{
    let named = all_named(alloc, vacs.as_slice())?;
    in_list(alloc, &named)
}

/// The names of a consolidation's `.vac`: its sources, and every fragment that the `.vac` objects of
/// these sources name, ascending and each once.
pub fn names_merged(
    alloc: Global,
    vacs: &VacList,
    sources: &FragList,
) -> Result<FragList, OutOfMemory>
    ensures set { IfOk result (λ names. names ≡ names_merged vacs.now sources.now) }
    ensures ascend { IfOk result (IsStrictlySortedBy frag_cmp) }
    ensures named { IfOk result (λ names. (f : FragKey) → is_among f names ≡ is_taken vacs.now sources.now f) }
{
    let own = set_of(alloc, sources.as_slice())?;
    let mut merged = set_of(alloc, sources.as_slice())?;
    add_named_by(&mut merged, &own, vacs.as_slice())?;
    in_list(alloc, &merged)
}

/// Every fragment that one of the `.vac` objects names.
#[tactic(auto, using(crate::proofs::Steps::folded_more, crate::proofs::Sets::among_removed))]
pub(crate) fn all_named(alloc: Global, vacs: &[VacOf]) -> Result<BTreeSet<FragKey>, OutOfMemory>
    ensures set { IfOk result (λ named. named.keys ≡ removal_set vacs.now) }
    ensures named { IfOk result (λ named. (f : FragKey) → contains frag_cmp named f ≡ is_merged vacs.now f) }
{
    let mut named = BTreeSet::new(alloc);
    for vac in vacs {
        add_names(&mut named, vac.names.as_slice())?;
    }
    Ok(named)
}

/// Adds what the `.vac` objects name that belong to one of these fragments.
#[tactic(auto, using(crate::proofs::Steps::folded_yes, crate::proofs::Steps::folded_no))]
pub(crate) fn add_named_by(
    named: &mut BTreeSet<FragKey>,
    frags: &BTreeSet<FragKey>,
    vacs: &[VacOf],
) -> Result<(), OutOfMemory>
    ensures { OnOk result (named.new.keys ≡ with_names named.old.keys (flat_map (λ v. v.names) (filter (λ v. contains frag_cmp frags.now v.frag) vacs.now))) }
{
    for vac in vacs {
        if frags.contains(&vac.frag) {
            add_names(named, vac.names.as_slice())?;
        }
    }
    Ok(())
}

/// The fragments of a list, as a set.
#[tactic(auto, using(crate::proofs::Sets::among_in_order))]
pub fn set_of(alloc: Global, frags: &[FragKey]) -> Result<BTreeSet<FragKey>, OutOfMemory>
    ensures set { IfOk result (λ set. set.keys ≡ with_names [] frags.now) }
    ensures same { IfOk result (λ set. (f : FragKey) → contains frag_cmp set f ≡ is_among f frags.now) }
{
    let mut set = BTreeSet::new(alloc);
    add_names(&mut set, frags)?;
    Ok(set)
}

// Adds fragments to others.
fn add_names(set: &mut BTreeSet<FragKey>, names: &[FragKey]) -> Result<(), OutOfMemory>
    ensures { OnOk result (set.new.keys ≡ with_names set.old.keys names.now) }
{
    for name in names {
        set.insert(*name)?;
    }
    Ok(())
}

// The fragments as a list, ascending.
fn in_list(alloc: Global, set: &BTreeSet<FragKey>) -> Result<FragList, OutOfMemory>
    ensures list { IfOk result (λ names. names ≡ set.now.keys) }
    ensures ascend { IsOrdered frag_cmp set.now }
{
    let names: Result<Vec<FragKey>, AllocError> = set.iter().copied().collect(alloc);
    Ok(FragList::from_vec(names?))
}
