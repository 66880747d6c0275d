//! How a job removes objects, one after the other.
ghost use Rattle.std.specs.Prelude.{◌≡◌, ◌<◌, ◌≤◌, ◌^◌, suc, ◌-◌, length, slice_get, option_map};
ghost use Rattle.ts_model.specs.States.{on_removed, removing, with_item};
ghost use Rattle.ts_vacuum.specs.Removing.{IsRemoving, removals_left};

use ts_actor::end_by;
use ts_base::NameList;
use ts_model::{Outcome, State};
use ts_store::{Call, Reply};

/// A job removes objects from a place on, and ends after the last. It takes no memory.
pub(crate) fn remove<F: Drop>(names: NameList, next: u64, end: Outcome) -> State<F>
    ensures is { result ≡ removing names next end }
    ensures removes { IsRemoving names result }
    ensures few { removals_left result < 2 ^ 64 }
    ensures left { removals_left result ≤ length names - next }
{
    if next < names.len() {
        State::Removes { names, next, end }
    } else {
        State::Over(end)
    }
}

/// The removal of the object at a place, if there is one. It takes no memory.
pub(crate) fn next_removal(names: &NameList, next: u64) -> Option<Call>
    ensures { result ≡ option_map Call.Remove (slice_get names.now next) }
{
    if next < names.len() {
        Some(Call::Remove(*names.at(next)))
    } else {
        None
    }
}

/// Where the reply to the removal of the object at a place leads. It takes no memory.
pub(crate) fn after_removal<F: Drop>(
    names: NameList,
    next: u64,
    end: Outcome,
    reply: &Reply,
) -> State<F>
    ensures is { result ≡ with_item (λ n. on_removed (Call.Remove n) (removing names (suc next) end) reply.now) (slice_get names next) }
    ensures removes { IsRemoving names result }
    ensures fewer { next < length names → removals_left result < length names - next }
{
    if next >= names.len() {
        return State::Over(Outcome::OutOfMemory);
    }
    let name = *names.at(next);
    match reply {
        Reply::Removed => remove(names, next + 1, end),
        other => State::Over(end_by(&Call::Remove(name), other)),
    }
}
