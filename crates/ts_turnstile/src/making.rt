//! Making the call of a turn.
ghost use Rattle.std.specs.Prelude.{◌≡◌, List, [], ◌∷◌, ◌++◌, length};
ghost use Rattle.ts_store.specs.declared.fate.Fate.{Fate as A_fate};
ghost use Rattle.ts_store.specs.declared.journal.Entry.{Entry as An_entry};
ghost use Rattle.ts_store.specs.Calls.{FitsCall, IsSpelledCall, IsSpelledReply};
ghost use Rattle.ts_turnstile.specs.Turns.{entries_in, turn};
ghost use Rattle.ts_turnstile.specs.Chains.{TurnDid};

use crate::told::Told;
use crate::turn::Turn;
use std::alloc::Global;
use ts_base::Prefix;
use ts_store::{Call, Entry, Fate, Journal, Reply, Store, apply};

// Makes the call of a turn, and enters it in the journal. It gives the reply, and what was done in
// the turn.
//
// The journal's memory is taken before the call. Where there is none the store is not asked.
pub(crate) fn make<S: Store>(
    alloc: Global,
    store: &mut S,
    journal: &mut Journal,
    lane: u32,
    number: u32,
    call: Call,
) -> (Reply, Told<Turn>)
    requires { IsSpelledCall call }
    ensures fits { FitsCall call result.0 }
    ensures spelled { IsSpelledReply result.0 }
    ensures turn { (did : A_fate) × (result.1.value ≡ turn lane number call did result.0) }
    ensures did { TurnDid S.held S.last S.faults S.asked S.notes store.old result.1.value store.new }
    ensures enters { journal.new ≡ journal.old ++ entries_in (result.1.value ∷ []) }
{
    let place = journal.len();
    if journal.push(vacant(lane)).is_err() {
        let turn = Turn {
            lane,
            number,
            call,
            fate: Fate::Done,
            reply: Reply::NoMemory,
        };
        return (Reply::NoMemory, Told::of(&turn));
    }
    let reply = apply(alloc, store, &call);
    let fate = store.fate();
    let turn = Turn {
        lane,
        number,
        call,
        fate,
        reply,
    };
    let done = Told::of(&turn);
    (settle(journal, place, turn), done)
}

// Enters a turn in the place that was taken for it, or gives the place back where there was no
// memory for its call. It gives the reply.
fn settle(journal: &mut Journal, place: u64, turn: Turn) -> Reply
    requires { (front : List An_entry) × (vacant : An_entry) × (journal.old ≡ front ++ vacant ∷ []) × (place ≡ length front) }
    ensures reply { result ≡ turn.reply }
    ensures enters { (front : List An_entry) (vacant : An_entry) → journal.old ≡ front ++ vacant ∷ [] → journal.new ≡ front ++ entries_in (turn ∷ []) }
{
    let Turn {
        lane,
        number: _,
        call,
        fate,
        reply,
    } = turn;
    if reply.is_no_memory() {
        let _ = journal.pop();
        return reply;
    }
    journal.set(place, Entry { lane, call, fate });
    reply
}

// An entry that holds the place of one to come.
fn vacant(lane: u32) -> Entry {
    Entry {
        lane,
        call: Call::List(Prefix::Schemas),
        fate: Fate::Done,
    }
}
