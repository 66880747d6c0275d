//! Sweeping: what a vacuum does from its listing of the commits up to its removals.
ghost use Rattle.std.specs.Prelude.{◌≡◌, ◌<◌, ◌≤◌, ◌+◌, ◌-◌, ◌^◌, ◌++◌, ◌∷◌, [], length, true, All, IfOk, IfSome, option_map, slice_get};
ghost use Rattle.ts_base.specs.Names.{IsSpelled};
ghost use Rattle.ts_store.specs.Calls.{IsSpelledReply};
ghost use Rattle.ts_schema.specs.Evolutions.{schema_at};
ghost use Rattle.ts_model.specs.declared.states.Sweeping.TheVariants as sweeping;
ghost use Rattle.ts_model.specs.declared.states.State.TheVariants.{Sweeps};
ghost use Rattle.ts_actor.specs.Fetches.{IsWorkCall};
ghost use Rattle.ts_actor.specs.Listings.{IsSpelledVac};
ghost use Rattle.ts_model.specs.States.{after_swept, get_vac, list_commits, list_parts, list_schemas, listing_parts, on_bytes, on_names, schemas_in, sweep_of, sweep_with, sweeping_vacs, where_swept, with_item};
ghost use Rattle.ts_vacuum.specs.Sweeping.{AreListed, AreRemovable, IsSweep, IsSweepState, sweeps_left};

use crate::removals::remove;
use crate::removed::names_removed;
use std::alloc::Global;
use ts_actor::{counting_in, end_by, end_damaged, frags_in, get_all, schemas_in};
use ts_base::{CommitKind, FragKey, FragList, Name, NameList, OutOfMemory, Prefix};
use ts_commit::{VacList, VacOf, decode_vac, removal_set};
use ts_model::{NameLists, Outcome, Refusal, State, Sweep, Sweeping};
use ts_schema::schema_at;
use ts_store::{Call, Reply, SharedBytes};
use ts_wire::ReadFault;

/// Where the reply to the listing of the commits leads.
pub(crate) fn after_commits<F: Drop>(alloc: Global, reply: Reply) -> Result<State<F>, OutOfMemory>
    requires { IsSpelledReply reply }
    ensures is { IfOk result (λ next. next ≡ on_names list_commits (λ names. Sweeps (sweeping.ListsSchemas (sweep_of names))) reply) }
    ensures may { IfOk result IsSweepState }
    ensures fewer { IfOk result (λ next. sweeps_left next < 2 ^ 66 + 2) }
{
    match reply {
        Reply::Names(names) => {
            let sweep = sweep_of(alloc, names.as_slice())?;
            Ok(State::Sweeps(Sweeping::ListsSchemas { sweep }))
        }
        other => Ok(State::Over(end_by(&Call::List(Prefix::Commits), &other))),
    }
}

// What a vacuum finds in a listing of the commits.
fn sweep_of(alloc: Global, names: &[Name]) -> Result<Sweep, OutOfMemory>
    requires { All IsSpelled names.now }
    ensures is { IfOk result (λ sweep. sweep ≡ sweep_of names.now) }
    ensures spelled { IfOk result IsSweep }
{
    Ok(Sweep {
        committed: frags_in(alloc, CommitKind::Wrt, names)?,
        with_vac: frags_in(alloc, CommitKind::Vac, names)?,
        counting: counting_in(alloc, names)?,
        vacs: VacList::new(alloc),
    })
}

/// Where the reply to the listing of the schemas leads: on, if a schema holds at `at`.
pub(crate) fn after_schemas<F: Drop>(
    alloc: Global,
    sweep: Sweep,
    at: u64,
    reply: Reply,
) -> Result<State<F>, OutOfMemory>
    requires { IsSweep sweep }
    ensures is { IfOk result (λ next. next ≡ on_names list_schemas (λ names. where_swept sweep at (schema_at (schemas_in names) at)) reply) }
    ensures may { IfOk result IsSweepState }
    ensures fewer { IfOk result (λ next. sweeps_left next < 2 ^ 66 + 1) }
{
    match reply {
        Reply::Names(names) => {
            let keys = schemas_in(alloc, names.as_slice())?;
            match schema_at(&keys, at) {
                Some(_) => next_vac(alloc, sweep),
                None => Ok(State::Over(Outcome::Refused(Refusal::NoSchema { at }))),
            }
        }
        other => Ok(State::Over(end_by(&Call::List(Prefix::Schemas), &other))),
    }
}

// A vacuum gets the next `.vac`, or goes on to the parts of what they name.
fn next_vac<F: Drop>(alloc: Global, sweep: Sweep) -> Result<State<F>, OutOfMemory>
    requires { IsSweep sweep }
    ensures is { IfOk result (λ next. next ≡ sweeping_vacs sweep) }
    ensures may { IfOk result IsSweepState }
    ensures bound { length sweep.counting < 2 ^ 64 }
    ensures fewer { IfOk result (λ next. sweeps_left next ≤ 2 ^ 65 + (length sweep.counting - length sweep.vacs)) }
{
    let count = sweep.counting.len();
    if sweep.vacs.len() < count {
        return Ok(State::Sweeps(Sweeping::GetsVacs { sweep }));
    }
    let set = removal_set(alloc, &sweep.vacs)?;
    next_parts(alloc, sweep, set, NameLists::new(alloc))
}

/// Where the reply to the get of a `.vac` leads.
pub(crate) fn after_vac_reply<F: Drop>(
    alloc: Global,
    sweep: Sweep,
    reply: Reply,
) -> Result<State<F>, OutOfMemory>
    requires { IsSweep sweep }
    ensures is { IfOk result (λ next. next ≡ with_item (λ f. on_bytes (get_vac f) (after_swept sweep f) reply) (slice_get sweep.counting (length sweep.vacs))) }
    ensures may { IfOk result IsSweepState }
    ensures fewer { IfOk result (λ next. length sweep.vacs < length sweep.counting → sweeps_left next < 2 ^ 65 + (length sweep.counting - length sweep.vacs)) }
{
    let place = sweep.vacs.len();
    if place >= sweep.counting.len() {
        return Ok(State::Over(Outcome::OutOfMemory));
    }
    let frag = *sweep.counting.at(place);
    match reply {
        Reply::Bytes(bytes) => after_vac(alloc, sweep, frag, bytes),
        other => {
            let name = Name::Commit(frag, CommitKind::Vac);
            Ok(State::Over(end_by(&get_all(name), &other)))
        }
    }
}

// Where the object of a `.vac` leads.
fn after_vac<F: Drop>(
    alloc: Global,
    sweep: Sweep,
    frag: FragKey,
    bytes: SharedBytes,
) -> Result<State<F>, OutOfMemory>
    requires known { IsSweep sweep }
    requires spelled { IsSpelledVac frag }
    requires within { length sweep.vacs < length sweep.counting }
    ensures is { IfOk result (λ next. next ≡ after_swept sweep frag bytes) }
    ensures may { IfOk result IsSweepState }
    ensures fewer { IfOk result (λ next. sweeps_left next < 2 ^ 65 + (length sweep.counting - length sweep.vacs)) }
{
    match decode_vac(alloc, bytes.as_slice()) {
        Ok(names) => next_vac(alloc, sweep_with(sweep, frag, names)?),
        Err(ReadFault::Damaged(fault)) => {
            let name = Name::Commit(frag, CommitKind::Vac);
            Ok(State::Over(end_damaged(name, fault.at)))
        }
        Err(ReadFault::OutOfMemory) => Err(OutOfMemory),
    }
}

// One `.vac` more was got.
fn sweep_with(sweep: Sweep, frag: FragKey, names: FragList) -> Result<Sweep, OutOfMemory>
    requires sweep { IsSweep sweep }
    requires frag { IsSpelledVac frag }
    ensures is { IfOk result (λ more. more ≡ sweep_with sweep frag names) }
    ensures spelled { IfOk result IsSweep }
{
    let mut sweep = sweep;
    sweep.vacs.push(VacOf { frag, names })?;
    Ok(sweep)
}

// A vacuum lists the parts of the next fragment, or goes on to its removals. The list of these is
// whole before the first one.
fn next_parts<F: Drop>(
    alloc: Global,
    sweep: Sweep,
    set: FragList,
    listed: NameLists,
) -> Result<State<F>, OutOfMemory>
    requires sweep { IsSweep sweep }
    requires listed { AreListed listed }
    ensures is { IfOk result (λ next. next ≡ listing_parts sweep set listed) }
    ensures may { IfOk result IsSweepState }
    ensures bound { length set < 2 ^ 64 }
    ensures fewer { IfOk result (λ next. sweeps_left next ≤ 2 ^ 64 + (length set - length listed)) }
{
    let count = set.len();
    if listed.len() < count {
        return Ok(State::Sweeps(Sweeping::ListsParts { sweep, set, listed }));
    }
    let names = names_removed(alloc, &sweep, &set, &listed)?;
    Ok(remove(names, 0, Outcome::Vacuumed(count)))
}

/// Where the reply to the listing of the parts of a fragment leads. A reply with other names than
/// those of parts of the fragment, which no store gives, leads nowhere: none of these is removed.
pub(crate) fn after_parts_reply<F: Drop>(
    alloc: Global,
    sweep: Sweep,
    set: FragList,
    listed: NameLists,
    reply: Reply,
) -> Result<State<F>, OutOfMemory>
    requires sweep { IsSweep sweep }
    requires listed { AreListed listed }
    requires reply { IsSpelledReply reply }
    ensures is { IfOk result (λ next. next ≡ with_item (λ f. on_names (list_parts f) (λ names. listing_parts sweep set (listed ++ names ∷ [])) reply) (slice_get set (length listed))) }
    ensures may { IfOk result IsSweepState }
    ensures fewer { IfOk result (λ next. length listed < length set → sweeps_left next < 2 ^ 64 + (length set - length listed)) }
{
    let place = listed.len();
    if place >= set.len() {
        return Ok(State::Over(Outcome::OutOfMemory));
    }
    let frag = *set.at(place);
    match reply {
        Reply::Names(names) => {
            if !are_parts(frag, names.as_slice()) {
                return Err(OutOfMemory);
            }
            let mut listed = listed;
            listed.push(names)?;
            next_parts(alloc, sweep, set, listed)
        }
        other => Ok(State::Over(end_by(&Call::List(Prefix::Fragment(frag)), &other))),
    }
}

// Whether each of the names is that of a part of the fragment.
fn are_parts(frag: FragKey, names: &[Name]) -> bool
    requires { All IsSpelled names.now }
    ensures { result ≡ true → AreRemovable names.now }
{
    for name in names {
        if !name.under(Prefix::Fragment(frag)) {
            return false;
        }
    }
    true
}

/// The listing of the parts of the fragment at a place, if there is one.
pub(crate) fn parts_asked(set: &FragList, place: u64) -> Option<Call>
    ensures is { result ≡ option_map list_parts (slice_get set.now place) }
    ensures works { IfSome result IsWorkCall }
{
    if place < set.len() {
        Some(Call::List(Prefix::Fragment(*set.at(place))))
    } else {
        None
    }
}
