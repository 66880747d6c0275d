//! What a consolidation chooses from, of a listing of the commits.
ghost use Rattle.std.specs.Prelude.{◌≡◌, filter, All, IfOk};
ghost use Rattle.ts_base.specs.Names.{IsSpelled, IsSpelledFrag};
ghost use Rattle.ts_commit.specs.Plans.{is_inside};
ghost use Rattle.ts_model.specs.States.{candidates_of, committed_in};
ghost use Rattle.ts_consolidate.specs.Merges.{AreCandidates, IsConsolidate};

use std::alloc::Global;
use ts_actor::{counting_in, frags_in};
use ts_base::{CommitKind, FragKey, FragList, Name, OutOfMemory};
use ts_model::{Candidates, Command};

/// What a consolidation chooses from, of a listing of the commits.
pub(crate) fn candidates_of(
    alloc: Global,
    command: &Command,
    names: &[Name],
) -> Result<Candidates, OutOfMemory>
    requires kind { IsConsolidate command.now }
    requires spelled { All IsSpelled names.now }
    ensures is { IfOk result (λ candidates. candidates ≡ candidates_of command.now names.now) }
    ensures spelled { IfOk result AreCandidates }
{
    match command {
        Command::Consolidate {
            from,
            to,
            limits: _,
        } => Ok(Candidates {
            fragments: committed_inside(alloc, *from, *to, names)?,
            counting: counting_in(alloc, names)?,
        }),
        _ => unreachable!(),
    }
}

// The committed fragments that are in the interval, in the order of the listing.
fn committed_inside(
    alloc: Global,
    from: u64,
    to: u64,
    names: &[Name],
) -> Result<FragList, OutOfMemory>
    requires { All IsSpelled names.now }
    ensures is { IfOk result (λ inside. inside ≡ filter (is_inside from to) (committed_in names.now)) }
    ensures spelled { IfOk result (All IsSpelledFrag) }
{
    let committed = frags_in(alloc, CommitKind::Wrt, names)?;
    inside_of(alloc, from, to, committed)
}

// Those of the fragments that are in the interval, in their order.
fn inside_of(alloc: Global, from: u64, to: u64, frags: FragList) -> Result<FragList, OutOfMemory>
    ensures { IfOk result (λ inside. inside ≡ filter (is_inside from to) frags) }
{
    let mut inside = FragList::new(alloc);
    for frag in frags.into_vec() {
        if is_inside(from, to, &frag) {
            inside.push(frag)?;
        }
    }
    Ok(inside)
}

// Whether both timestamps of the fragment are in the interval.
fn is_inside(from: u64, to: u64, frag: &FragKey) -> bool
    ensures { result ≡ is_inside from to frag.now }
{
    from <= frag.t1 && frag.t1 <= to && from <= frag.t2 && frag.t2 <= to
}
