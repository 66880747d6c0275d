//! Merged fragments: one `.vac` after the other.
ghost use Rattle.std.specs.Prelude.{◌≡◌, ◌<◌, ◌≤◌, ◌+◌, ◌-◌, ◌^◌, length, IfOk, slice_get};
ghost use Rattle.ts_model.specs.States.{after_vac, get_vac, getting_vacs, on_bytes, with_item, with_vac};
ghost use Rattle.ts_reader.specs.Reading.{IsReading, IsReadState, reads_left};

use crate::ends::{damaged, ended};
use crate::opening::open_next;
use std::alloc::Global;
use std::thread::Threads;
use ts_actor::{Pieces, get_all};
use ts_base::{Boxed, CommitKind, FragKey, FragList, Name, OutOfMemory};
use ts_commit::{VacOf, decode_vac};
use ts_model::{Collecting, OpenedList, Outcome, Reading, State};
use ts_store::{Reply, SharedBytes};
use ts_wire::ReadFault;

/// A read gets the next `.vac`, or opens its fragments.
pub(crate) fn next_vac<P: Pieces, R: Threads + Sync>(
    rt: &R,
    alloc: Global,
    reading: Boxed<Reading>,
) -> Result<State<P::Fetch>, OutOfMemory>
    requires { IsReading reading }
    ensures is { IfOk result (λ next. next ≡ getting_vacs P.codec reading) }
    ensures may { IfOk result (IsReadState P.codec) }
    ensures bound { length reading.counting < 2 ^ 64 }
    ensures fewer { IfOk result (λ next. reads_left P.left next ≤ 2 ^ 194 + 2 ^ 193 + (length reading.counting - length reading.vacs)) }
{
    let count = reading.get().counting.len();
    if reading.get().vacs.len() < count {
        let vacs = Boxed::new(alloc, Collecting::GetsVacs { reading })?;
        return Ok(State::Collects(vacs));
    }
    open_next::<P, R>(rt, alloc, reading, OpenedList::new(alloc))
}

/// Where the reply to the get of a `.vac` leads.
pub(crate) fn after_vac_reply<P: Pieces, R: Threads + Sync>(
    rt: &R,
    alloc: Global,
    reading: Boxed<Reading>,
    reply: Reply,
) -> Result<State<P::Fetch>, OutOfMemory>
    requires { IsReading reading }
    ensures is { IfOk result (λ next. next ≡ with_item (λ f. on_bytes (get_vac f) (after_vac P.codec reading f) reply) (slice_get reading.counting (length reading.vacs))) }
    ensures may { IfOk result (IsReadState P.codec) }
    ensures fewer { IfOk result (λ next. length reading.vacs < length reading.counting → reads_left P.left next < 2 ^ 194 + 2 ^ 193 + (length reading.counting - length reading.vacs)) }
{
    let place = reading.get().vacs.len();
    if place >= reading.get().counting.len() {
        return Ok(State::Over(Outcome::OutOfMemory));
    }
    let frag = *reading.get().counting.at(place);
    match reply {
        Reply::Bytes(bytes) => after_vac::<P, R>(rt, alloc, reading, frag, bytes),
        other => {
            let name = Name::Commit(frag, CommitKind::Vac);
            Ok(ended::<P>(&get_all(name), &other))
        }
    }
}

// Where the object of a `.vac` leads.
fn after_vac<P: Pieces, R: Threads + Sync>(
    rt: &R,
    alloc: Global,
    reading: Boxed<Reading>,
    frag: FragKey,
    bytes: SharedBytes,
) -> Result<State<P::Fetch>, OutOfMemory>
    requires known { IsReading reading }
    requires within { length reading.vacs < length reading.counting }
    ensures is { IfOk result (λ next. next ≡ after_vac P.codec reading frag bytes) }
    ensures may { IfOk result (IsReadState P.codec) }
    ensures fewer { IfOk result (λ next. reads_left P.left next < 2 ^ 194 + 2 ^ 193 + (length reading.counting - length reading.vacs)) }
{
    match decode_vac(alloc, bytes.as_slice()) {
        Ok(names) => next_vac::<P, R>(rt, alloc, with_vac(alloc, reading, frag, names)?),
        Err(ReadFault::Damaged(fault)) => {
            Ok(damaged::<P>(Name::Commit(frag, CommitKind::Vac), fault.at))
        }
        Err(ReadFault::OutOfMemory) => Err(OutOfMemory),
    }
}

// One `.vac` more was got.
fn with_vac(
    alloc: Global,
    reading: Boxed<Reading>,
    frag: FragKey,
    names: FragList,
) -> Result<Boxed<Reading>, OutOfMemory>
    ensures { IfOk result (λ more. more ≡ with_vac reading frag names) }
{
    let mut reading = reading.into_inner();
    reading.vacs.push(VacOf { frag, names })?;
    Boxed::new(alloc, reading)
}
