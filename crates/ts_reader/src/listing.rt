//! What a read finds in a listing of the commits: the fragments and the deletes that it looks into.
ghost use Rattle.std.specs.Prelude.{◌≡◌, filter, filter_map, All, IfOk};
ghost use Rattle.ts_base.specs.Names.{IsSpelled};
ghost use Rattle.ts_model.specs.States.{looked_into, meets};
ghost use Rattle.ts_actor.specs.Listings.{IsSpelledAs, frag_in};
ghost use Rattle.ts_reader.specs.Reading.{AreListed, IsRead};

use std::alloc::Global;
use ts_actor::{counting_in, frags_in};
use ts_base::{CommitKind, FragKey, FragList, Name, OutOfMemory};
use ts_model::{Command, Listed};

/// What a read looks into of a listing of the commits.
pub(crate) fn look_into(
    alloc: Global,
    command: &Command,
    names: &[Name],
) -> Result<Listed, OutOfMemory>
    requires read { IsRead command.now }
    requires spelled { All IsSpelled names.now }
    ensures is { IfOk result (λ listed. listed ≡ looked_into command.now names.now) }
    ensures spelled { IfOk result AreListed }
{
    match command {
        Command::Read { from, to, query: _ } => Ok(Listed {
            fragments: stamped_near(alloc, CommitKind::Wrt, *from, *to, names)?,
            counting: counting_in(alloc, names)?,
            delete_names: stamped_near(alloc, CommitKind::Del, *from, *to, names)?,
        }),
        _ => unreachable!(),
    }
}

// What the objects of a kind name whose span meets the interval, in the order of the listing.
fn stamped_near(
    alloc: Global,
    kind: CommitKind,
    from: u64,
    to: u64,
    names: &[Name],
) -> Result<FragList, OutOfMemory>
    requires { All IsSpelled names.now }
    ensures is { IfOk result (λ fragments. fragments ≡ filter (meets from to) (filter_map (frag_in kind) names.now)) }
    ensures spelled { IfOk result (All (IsSpelledAs kind)) }
{
    let named = frags_in(alloc, kind, names)?;
    near(alloc, from, to, named)
}

// Those fragments whose span meets the interval, in their order.
fn near(alloc: Global, from: u64, to: u64, frags: FragList) -> Result<FragList, OutOfMemory>
    ensures { IfOk result (λ chosen. chosen ≡ filter (meets from to) frags) }
{
    let mut chosen = FragList::new(alloc);
    for frag in frags.into_vec() {
        if meets(from, to, &frag) {
            chosen.push(frag)?;
        }
    }
    Ok(chosen)
}

// Whether the span of a fragment meets the interval.
fn meets(from: u64, to: u64, frag: &FragKey) -> bool
    ensures { result ≡ meets from to frag.now }
{
    from <= to && frag.t1 <= to && from <= frag.t2
}
