//! What a reader wants of a piece.
ghost use Rattle.std.specs.Prelude.{◌≡◌, true, filter, map, IfOk, OnOk};
ghost use Rattle.ts_schema.specs.Wants.{is_wanted, value_of, cut_row, cut, taken};

use std::alloc::Global;
use ts_base::{Duplicate, IndexList, OutOfMemory, Row, Val, Version, VersionList};
use ts_domain::SubBox;

/// The versions that a reader wants of a piece, and what it wants of their rows.
#[derive(Debug, Drop, PartialEq, Eq)]
pub struct Want {
    /// The box in which the cells lie.
    pub sub: SubBox,
    /// The attributes that are wanted, by their places in the schema, counted from 0.
    pub attrs: IndexList,
    /// The least timestamp of a version's write, in milliseconds since 1970.
    pub a: u64,
    /// The greatest timestamp of a version's write, in milliseconds since 1970.
    pub b: u64,
}

fn is_wanted(want: &Want, version: &Version) -> bool
    ensures { result ≡ is_wanted want.now version.now }
{
    version.key.is_within(want.a, want.b) && want.sub.contains(&version.coords)
}

fn value_of(alloc: Global, row: &Row, place: u32) -> Result<Val, OutOfMemory>
    ensures { IfOk result (λ val. val ≡ value_of row.now place) }
{
    match row.as_slice().get(place as usize) {
        Some(val) => val.copy(alloc),
        None => Ok(Val::Null),
    }
}

fn cut_row(alloc: Global, attrs: &IndexList, row: &Row) -> Result<Row, OutOfMemory>
    ensures { IfOk result (λ cut. cut ≡ cut_row attrs.now row.now) }
{
    let mut cut = Row::new(alloc);
    for place in attrs.as_slice() {
        cut.push(value_of(alloc, row, *place)?)?;
    }
    Ok(cut)
}

// Whether these are all places of a row in turn, so that nothing of it is cut.
#[tactic(auto, using(crate::proofs::WholeRows::all_in_turn))]
fn is_whole(attrs: &[u32], row: &[Val]) -> bool
    ensures { result ≡ true → cut_row attrs.now row.now ≡ row.now }
{
    if attrs.len() != row.len() {
        return false;
    }
    for place in 0..attrs.len() {
        if attrs[place] as usize != place {
            return false;
        }
    }
    true
}

// Cuts a version. One that is wanted whole is left as it is.
fn cut(alloc: Global, want: &Want, version: &mut Version) -> Result<(), OutOfMemory>
    ensures { OnOk result (version.new ≡ cut want.now version.old) }
{
    if !is_whole(want.attrs.as_slice(), version.row.as_slice()) {
        version.row = cut_row(alloc, &want.attrs, &version.row)?;
    }
    Ok(())
}

// Cuts each version in its place.
fn cut_all(alloc: Global, want: &Want, versions: &mut [Version]) -> Result<(), OutOfMemory>
    ensures { OnOk result (versions.new ≡ map (cut want.now) versions.old) }
{
    for version in versions.iter_mut() {
        cut(alloc, want, version)?;
    }
    Ok(())
}

// Drops the versions that are not wanted.
fn keep_wanted(want: &Want, versions: &mut Vec<Version>)
    ensures { versions.new.items ≡ filter (is_wanted want.now) versions.old.items }
{
    versions.retain(|version| is_wanted(want, version));
}

/// The versions that are wanted, in their order: those in the box whose writes have a timestamp
/// from `a` to `b`. Their rows have the values of the wanted attributes alone, in the order in which
/// these are wanted; an attribute that a row does not have is null there.
///
/// Nothing is copied but the rows that are not wanted whole.
pub fn taken(alloc: Global, want: &Want, versions: VersionList) -> Result<VersionList, OutOfMemory>
    ensures { IfOk result (λ found. found ≡ taken want.now versions) }
{
    let mut versions = versions.into_vec();
    keep_wanted(want, &mut versions);
    cut_all(alloc, want, versions.as_mut_slice())?;
    Ok(VersionList::from_vec(versions))
}
