//! Erasing: one delete after the other.
ghost use Rattle.std.specs.Prelude.{◌≡◌, ◌<◌, ◌≤◌, ◌+◌, ◌-◌, ◌^◌, length, IfOk, slice_get};
ghost use Rattle.ts_model.specs.States.{after_delete, getting_deletes, deletion_named, get_delete, on_bytes, with_deletion, with_item};
ghost use Rattle.ts_reader.specs.Reading.{IsKnown, IsReadState, reads_left};

use crate::ends::{damaged, ended};
use crate::fetching::{Gathered, fetch_from};
use std::alloc::Global;
use std::thread::Threads;
use ts_actor::{Pieces, get_all};
use ts_base::{Boxed, CommitKind, FragKey, Key, Name, OutOfMemory};
use ts_batch::Batches;
use ts_cond::Cond;
use ts_model::{Deletion, Outcome, State};
use ts_store::{Reply, SharedBytes};
use ts_wire::ReadFault;

/// A read gets the next delete, or begins to fetch.
pub(crate) fn next_delete<P: Pieces, R: Threads + Sync>(
    rt: &R,
    alloc: Global,
    gathered: Gathered,
) -> Result<State<P::Fetch>, OutOfMemory>
    requires { IsKnown gathered.reading gathered.opened gathered.schemas }
    ensures is { IfOk result (λ next. next ≡ getting_deletes P.codec gathered.reading gathered.opened gathered.schemas) }
    ensures may { IfOk result (IsReadState P.codec) }
    ensures bound { length gathered.reading.delete_names < 2 ^ 64 }
    ensures fewer { IfOk result (λ next. reads_left P.left next ≤ 2 ^ 192 + (length gathered.reading.delete_names - length gathered.reading.deletions)) }
{
    let count = gathered.reading.get().delete_names.len();
    if gathered.reading.get().deletions.len() < count {
        let deletes = Boxed::new(alloc, gathered.gets_deletes())?;
        return Ok(State::Collects(deletes));
    }
    fetch_from::<P, R>(rt, alloc, gathered, 0, Batches::new(alloc))
}

/// Where the reply to the get of a delete leads.
pub(crate) fn after_delete_reply<P: Pieces, R: Threads + Sync>(
    rt: &R,
    alloc: Global,
    gathered: Gathered,
    reply: Reply,
) -> Result<State<P::Fetch>, OutOfMemory>
    requires { IsKnown gathered.reading gathered.opened gathered.schemas }
    ensures is { IfOk result (λ next. next ≡ with_item (λ f. on_bytes (get_delete f) (after_delete P.codec gathered.reading gathered.opened gathered.schemas f) reply) (slice_get gathered.reading.delete_names (length gathered.reading.deletions))) }
    ensures may { IfOk result (IsReadState P.codec) }
    ensures fewer { IfOk result (λ next. length gathered.reading.deletions < length gathered.reading.delete_names → reads_left P.left next < 2 ^ 192 + (length gathered.reading.delete_names - length gathered.reading.deletions)) }
{
    let place = gathered.reading.get().deletions.len();
    if place >= gathered.reading.get().delete_names.len() {
        return Ok(State::Over(Outcome::OutOfMemory));
    }
    let frag = *gathered.reading.get().delete_names.at(place);
    match reply {
        Reply::Bytes(bytes) => after_delete::<P, R>(rt, alloc, gathered, frag, bytes),
        other => {
            let name = Name::Commit(frag, CommitKind::Del);
            Ok(ended::<P>(&get_all(name), &other))
        }
    }
}

// Where the object of a delete leads.
fn after_delete<P: Pieces, R: Threads + Sync>(
    rt: &R,
    alloc: Global,
    gathered: Gathered,
    frag: FragKey,
    bytes: SharedBytes,
) -> Result<State<P::Fetch>, OutOfMemory>
    requires known { IsKnown gathered.reading gathered.opened gathered.schemas }
    requires within { length gathered.reading.deletions < length gathered.reading.delete_names }
    ensures is { IfOk result (λ next. next ≡ after_delete P.codec gathered.reading gathered.opened gathered.schemas frag bytes) }
    ensures may { IfOk result (IsReadState P.codec) }
    ensures fewer { IfOk result (λ next. reads_left P.left next < 2 ^ 192 + (length gathered.reading.delete_names - length gathered.reading.deletions)) }
{
    match Cond::decode(alloc, bytes.as_slice()) {
        Ok(cond) => next_delete::<P, R>(rt, alloc, with_deletion(alloc, gathered, frag, cond)?),
        Err(ReadFault::Damaged(fault)) => {
            Ok(damaged::<P>(Name::Commit(frag, CommitKind::Del), fault.at))
        }
        Err(ReadFault::OutOfMemory) => Err(OutOfMemory),
    }
}

// One delete more was got.
fn with_deletion(
    alloc: Global,
    gathered: Gathered,
    frag: FragKey,
    cond: Cond,
) -> Result<Gathered, OutOfMemory>
    ensures { IfOk result (λ more. more ≡ record { reading = with_deletion gathered.reading (deletion_named frag cond); opened = gathered.opened; schemas = gathered.schemas }) }
{
    let key = Key {
        t: frag.t1,
        id: frag.id,
    };
    gathered.with_deletion(alloc, Deletion { key, cond })
}
