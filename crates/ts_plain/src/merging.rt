//! Merging lists of versions.
ghost use Rattle.std.specs.Prelude.{◌≡◌, ◌<◌, ◌++◌, [], ◌∷◌, IfOk, OnOk};
ghost use Rattle.std.specs.List.{All};
ghost use Rattle.ts_plain.specs.Merges.{newer, merged, Climbs, global_order, LiesInside, IsMerged, VersionsAscend, is_last, last_alone, IsMergedAll};

use std::alloc::Global;
use std::cmp::Ordering;
use ts_base::{Duplicate, OutOfMemory, Version, VersionList};
use ts_order::cmp_global;
use ts_schema::Frame;

// Of two versions the one with the greater key, the first where they tie.
fn newer<'a>(first: &'a Version, second: &'a Version) -> &'a Version
    ensures { result.now ≡ newer first.now second.now }
{
    if first.key < second.key {
        second
    } else {
        first
    }
}

// Appends copies of versions.
fn append(alloc: Global, list: &mut VersionList, versions: &[Version]) -> Result<(), OutOfMemory>
    ensures { OnOk result (list.new ≡ list.old ++ versions.now) }
{
    for version in versions {
        list.push(version.copy(alloc)?)?;
    }
    Ok(())
}

#[tactic(auto, using(crate::proofs::MergeSteps::merge_loop))]
fn merge_slices(
    alloc: Global,
    frame: &Frame,
    first: &[Version],
    second: &[Version],
) -> Result<VersionList, OutOfMemory>
    requires first { All (LiesInside frame.now) first.now }
    requires second { All (LiesInside frame.now) second.now }
    ensures { IfOk result (λ list. list ≡ merged (global_order frame.now) first.now second.now) }
{
    let mut list = VersionList::new(alloc);
    let (mut i, mut j) = (0, 0);
    while i < first.len() && j < second.len() {
        let (v, w) = (&first[i], &second[j]);
        match cmp_global(&frame.domain, frame.tile, frame.cell, &v.coords, &w.coords) {
            Ordering::Less => {
                list.push(v.copy(alloc)?)?;
                i += 1;
            }
            Ordering::Greater => {
                list.push(w.copy(alloc)?)?;
                j += 1;
            }
            Ordering::Equal => {
                list.push(newer(v, w).copy(alloc)?)?;
                i += 1;
                j += 1;
            }
        }
    }
    append(alloc, &mut list, &first[i..])?;
    append(alloc, &mut list, &second[j..])?;
    Ok(list)
}

/// Two lists of versions in global order as one: at each coordinate the version with the greater
/// key, that of the first list where keys tie.
///
/// Each list has a coordinate once: of a list with several versions of a coordinate take the newest
/// first.
pub fn merge_two(
    alloc: Global,
    frame: &Frame,
    first: &VersionList,
    second: &VersionList,
) -> Result<VersionList, OutOfMemory>
    requires first { All (LiesInside frame.now) first.now }
    requires second { All (LiesInside frame.now) second.now }
    requires first_climbs { Climbs (global_order frame.now) first.now }
    requires second_climbs { Climbs (global_order frame.now) second.now }
    ensures merged { IfOk result (IsMerged (global_order frame.now) first.now second.now) }
    ensures inside { IfOk result (All (LiesInside frame.now)) }
{
    merge_slices(alloc, frame, first.as_slice(), second.as_slice())
}

// Whether the next version, if there is one, stands at another place.
fn is_last(frame: &Frame, version: &Version, others: &[Version]) -> bool
    requires version { LiesInside frame.now version.now }
    requires others { All (LiesInside frame.now) others.now }
    ensures { result ≡ is_last (global_order frame.now) version.now others.now }
{
    match others {
        [] => true,
        [next, ..] => {
            let order = cmp_global(
                &frame.domain,
                frame.tile,
                frame.cell,
                &version.coords,
                &next.coords,
            );
            order != Ordering::Equal
        }
    }
}

// Copies of the last version of each place.
fn last_alone(
    alloc: Global,
    frame: &Frame,
    versions: &[Version],
) -> Result<VersionList, OutOfMemory>
    requires { All (LiesInside frame.now) versions.now }
    ensures { IfOk result (λ list. list ≡ last_alone (global_order frame.now) versions.now) }
{
    let mut list = VersionList::new(alloc);
    for place in 0..versions.len() {
        let version = &versions[place];
        if is_last(frame, version, &versions[place + 1..]) {
            list.push(version.copy(alloc)?)?;
        }
    }
    Ok(list)
}

/// The newest version of each place, of a list of versions in global order in which those of one
/// place stand by ascending key.
pub fn newest_alone(
    alloc: Global,
    frame: &Frame,
    versions: &VersionList,
) -> Result<VersionList, OutOfMemory>
    requires inside { All (LiesInside frame.now) versions.now }
    requires ascends { VersionsAscend (global_order frame.now) versions.now }
    ensures newest { IfOk result (IsMergedAll (global_order frame.now) (versions.now ∷ [])) }
    ensures inside { IfOk result (All (LiesInside frame.now)) }
{
    last_alone(alloc, frame, versions.as_slice())
}

/// Many lists of versions as one in global order: at each place the version with the greatest key of
/// all lists, that of the first list where keys tie.
///
/// Each list stands in global order, its versions of one place by ascending key. Neighbours are
/// merged two by two, so each version is copied about as often as the number of lists has binary
/// digits. Each call takes half of the lists, so the calls nest at most 65 deep.
pub fn merge_all(
    alloc: Global,
    frame: &Frame,
    lists: &[VersionList],
) -> Result<VersionList, OutOfMemory>
    requires inside { All (All (LiesInside frame.now)) lists.now }
    requires ascend { All (VersionsAscend (global_order frame.now)) lists.now }
    ensures merged { IfOk result (IsMergedAll (global_order frame.now) lists.now) }
    ensures inside { IfOk result (All (LiesInside frame.now)) }
{
    match lists {
        [] => Ok(VersionList::new(alloc)),
        [list] => newest_alone(alloc, frame, list),
        _ => {
            let (left, right) = lists.split_at(lists.len() / 2);
            let first = merge_all(alloc, frame, left)?;
            let second = merge_all(alloc, frame, right)?;
            merge_two(alloc, frame, &first, &second)
        }
    }
}
