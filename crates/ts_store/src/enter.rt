//! Making a call of a store and entering it in a journal.
ghost use Rattle.std.specs.Prelude.{◌≡◌, ◌⊎◌, ℕ, ◌+◌, ◌≤◌, false, Some, IfSome};
ghost use Rattle.ts_base.specs.Held.{Held};
ghost use Rattle.ts_store.specs.Calls.{is_no_memory, asked_after, FitsCall, IsSpelledCall, IsSpelledReply};
ghost use Rattle.ts_store.specs.Counts.{capped};
ghost use Rattle.ts_store.specs.Stores.{Answers, Steps, HasCause};
ghost use Rattle.ts_store.specs.Journals.{held_after, failures, Enters};
ghost use Rattle.ts_store.specs.Recorders.{Unmade, WasMade};

use crate::call::{Call, Reply};
use crate::fate::Fate;
use crate::journal::{Entry, Journal};
use crate::store::{Store, apply};
use std::alloc::Global;
use ts_base::Prefix;

/// Makes a call of a store for a lane, enters it in a journal and gives its reply.
///
/// The journal's memory is taken before the call, so that a call that was made is always entered.
/// Where there is no memory, for the journal or for the call, the reply is `NoMemory`: nothing was
/// done, and the journal is as before.
pub fn enter_call<S: Store>(
    alloc: Global,
    store: &mut S,
    journal: &mut Journal,
    lane: u32,
    call: Call,
) -> Reply
    requires { IsSpelledCall call }
    ensures fits { FitsCall call result }
    ensures spelled { IsSpelledReply result }
    ensures enters { Enters journal.old journal.new lane call (S.last store.new) result }
    ensures cause { HasCause (S.faults store.old) (S.faults store.new) result }
    ensures answers { is_no_memory result ≡ false → Answers (S.held store.old) (S.held store.new) (S.last store.new) call result }
    ensures told { IfSome (S.held store.old) (λ m. Steps (is_no_memory result) m (S.held store.new) (S.last store.new) call result) }
    ensures asked { (S.asked store.new ≡ S.asked store.old) ⊎ (S.asked store.new ≡ asked_after (S.asked store.old) call) }

    // The store made the call, unless there was no memory to enter it.
    ensures notes { Unmade store.old result store.new ⊎ WasMade S.asked S.notes store.old call result store.new }

    // The count of faults keeps up with the failed calls of the journal.
    ensures counted { (base : ℕ) → capped (base + failures journal.old) ≤ S.faults store.old → capped (base + failures journal.new) ≤ S.faults store.new }

    // What is held stays what the calls of the journal leave.
    ensures held { (m : Held) → S.held store.old ≡ Some (held_after m journal.old) → S.held store.new ≡ Some (held_after m journal.new) }
{
    let place = journal.len();
    if journal.push(vacant(lane)).is_err() {
        return Reply::NoMemory;
    }
    let reply = apply(alloc, store, &call);
    if reply.is_no_memory() {
        let _ = journal.pop();
        return reply;
    }
    let fate = store.fate();
    journal.set(place, Entry { lane, call, fate });
    reply
}

// An entry that holds the place of one to come.
fn vacant(lane: u32) -> Entry {
    Entry {
        lane,
        call: Call::List(Prefix::Schemas),
        fate: Fate::Done,
    }
}
