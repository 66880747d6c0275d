//! What a vacuum removes, in order.
ghost use Rattle.std.specs.Prelude.{◌≡◌, ◌++◌, ◌∷◌, [], cond, IfOk, OnOk};
ghost use Rattle.ts_base.specs.Names.{wrt_of};
ghost use Rattle.ts_model.specs.States.{names_of_all, names_removed, vac_of, vacs_beside};
ghost use Rattle.ts_vacuum.specs.Removed.{where_in};
ghost use Rattle.ts_vacuum.specs.Sweeping.{AreListed, AreRemovable, IsSweep};

use std::alloc::Global;
use std::collections::BTreeSet;
use ts_base::{CommitKind, FragKey, FragList, Name, NameList, OutOfMemory};
use ts_commit::{VacOf, set_of};
use ts_model::{NameLists, Sweep};

/// All that a vacuum removes, in order: of each fragment of the set its `.wrt`, the parts that were
/// listed and its own `.vac`, and then the `.vac` objects that it got of other fragments. A `.wrt` or a
/// `.vac` of the set that was not listed is left out.
pub(crate) fn names_removed(
    alloc: Global,
    sweep: &Sweep,
    set: &FragList,
    listed: &NameLists,
) -> Result<NameList, OutOfMemory>
    requires sweep { IsSweep sweep.now }
    requires listed { AreListed listed.now }
    ensures is { IfOk result (λ names. names ≡ names_removed sweep.now set.now listed.now) }
    ensures may { IfOk result AreRemovable }
{
    let mut names = names_of_all(alloc, sweep, set.as_slice(), listed.as_slice())?;
    add_vacs_beside(alloc, &mut names, sweep.vacs.as_slice(), set.as_slice())?;
    Ok(names)
}

// The objects of the fragments of the set, of each in turn.
fn names_of_all(
    alloc: Global,
    sweep: &Sweep,
    set: &[FragKey],
    listed: &[NameList],
) -> Result<NameList, OutOfMemory>
    ensures { IfOk result (λ names. names ≡ names_of_all sweep.now set.now listed.now) }
{
    let committed = set_of(alloc, sweep.committed.as_slice())?;
    let with_vac = set_of(alloc, sweep.with_vac.as_slice())?;
    let mut names = NameList::new(alloc);
    for (frag, parts) in set.iter().zip(listed) {
        add_names_of(&mut names, &committed, &with_vac, *frag, parts)?;
    }
    Ok(names)
}

// Adds the objects of one fragment: its `.wrt` before its parts, and these before its `.vac`.
fn add_names_of(
    names: &mut NameList,
    committed: &BTreeSet<FragKey>,
    with_vac: &BTreeSet<FragKey>,
    frag: FragKey,
    parts: &NameList,
) -> Result<(), OutOfMemory>
    ensures { OnOk result (names.new ≡ names.old ++ (where_in committed.now wrt_of frag ++ (parts.now ++ where_in with_vac.now vac_of frag))) }
{
    let wrt = Name::Commit(frag, CommitKind::Wrt);
    let vac = Name::Commit(frag, CommitKind::Vac);
    add_where(names, committed.contains(&frag), wrt)?;
    add_names(names, parts.as_slice())?;
    add_where(names, with_vac.contains(&frag), vac)
}

// Adds a name, where it is wanted.
fn add_where(names: &mut NameList, wanted: bool, name: Name) -> Result<(), OutOfMemory>
    ensures { OnOk result (names.new ≡ names.old ++ cond wanted (name ∷ []) []) }
{
    if wanted { names.push(name) } else { Ok(()) }
}

// Adds several names.
fn add_names(names: &mut NameList, more: &[Name]) -> Result<(), OutOfMemory>
    ensures { OnOk result (names.new ≡ names.old ++ more.now) }
{
    for name in more {
        names.push(*name)?;
    }
    Ok(())
}

// Adds the `.vac` objects of fragments that are not in the set.
fn add_vacs_beside(
    alloc: Global,
    names: &mut NameList,
    vacs: &[VacOf],
    set: &[FragKey],
) -> Result<(), OutOfMemory>
    ensures { OnOk result (names.new ≡ names.old ++ vacs_beside vacs.now set.now) }
{
    let gone = set_of(alloc, set)?;
    for vac in vacs {
        let name = Name::Commit(vac.frag, CommitKind::Vac);
        add_where(names, !gone.contains(&vac.frag), name)?;
    }
    Ok(())
}
