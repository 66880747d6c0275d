//! What a program asks of the place where the objects of an array are kept.
ghost use Rattle.std.specs.Prelude.{◌≡◌, ℕ, Option, IfOk, All};
ghost use Rattle.ts_base.specs.Names.{IsSpelled};
ghost use Rattle.ts_base.specs.Held.{Held};
ghost use Rattle.ts_store.specs.declared.fate.Fate.{Fate};
ghost use Rattle.ts_store.specs.declared.call.Call.{Call};
ghost use Rattle.ts_store.specs.declared.call.Reply.{Reply};
ghost use Rattle.ts_store.specs.Counts.{one_more};
ghost use Rattle.ts_store.specs.Calls.{put_reply, remove_reply, list_reply, get_reply, size_reply, asked_after, error_reply, FitsCall, IsSpelledCall, IsSpelledReply};
ghost use Rattle.ts_store.specs.Stores.{Answers, HasCause};

use crate::bytes::SharedBytes;
use crate::call::{Call, Made, Reply, StoreError};
use crate::fate::Fate;
use std::alloc::Global;
use ts_base::{Name, NameList, Prefix};

/// A place where objects are kept by name.
///
/// A store in memory tells what it holds; one over a device does not, and then the clauses say
/// only which kinds of answer come. The count of faults never falls, every call answers `Failed` only
/// where it went up, and `fate` tells what the call did all the same. A call that answers
/// `OutOfMemory` changed nothing.
pub trait Store: Send {
    /// The bytes of each object that is held, where the store tells them.
    ghost held: { Self → Option Held };

    /// How often the store has failed.
    ghost faults: { Self → ℕ };

    /// How many gets it was asked for. The count stays at 2^64 - 1 once it is there.
    ghost asked: { Self → ℕ };

    /// What the last call did.
    ghost last: { Self → Fate };

    /// What else this store says of a call, from what it was before to what it is after.
    ghost notes: { Self → Call → Reply → Self → Type 0 } = { λ _ _ _ _. Unit {0} };

    /// Puts an object, unless its name is held: then the answer is `Taken`, and nothing changed.
    fn put(&mut self, alloc: Global, name: Name, bytes: &SharedBytes) -> Result<Made, StoreError>
        requires { IsSpelled name }
        ensures answers { Answers (held self.old) (held self.new) (last self.new) (Call.Put name bytes.now) (put_reply result) }
        ensures cause { HasCause (faults self.old) (faults self.new) (put_reply result) }
        ensures notes { notes self.old (Call.Put name bytes.now) (put_reply result) self.new }
        ensures asked { asked self.new ≡ asked self.old };

    /// Removes an object. A name that is not held is no error.
    fn remove(&mut self, alloc: Global, name: Name) -> Result<(), StoreError>
        requires { IsSpelled name }
        ensures answers { Answers (held self.old) (held self.new) (last self.new) (Call.Remove name) (remove_reply result) }
        ensures cause { HasCause (faults self.old) (faults self.new) (remove_reply result) }
        ensures notes { notes self.old (Call.Remove name) (remove_reply result) self.new }
        ensures asked { asked self.new ≡ asked self.old };

    /// Lists the names under a prefix, ascending.
    fn list(&mut self, alloc: Global, prefix: Prefix) -> Result<NameList, StoreError>
        ensures spelled { IfOk result (All IsSpelled) }
        ensures answers { Answers (held self.old) (held self.new) (last self.new) (Call.List prefix) (list_reply result) }
        ensures cause { HasCause (faults self.old) (faults self.new) (list_reply result) }
        ensures notes { notes self.old (Call.List prefix) (list_reply result) self.new }
        ensures asked { asked self.new ≡ asked self.old };

    /// Gets the bytes of an object from a place on, at most `len` of them and none past its end,
    /// or None where the name is not held.
    fn get(
        &mut self,
        alloc: Global,
        name: Name,
        from: u64,
        len: u64,
    ) -> Result<Option<SharedBytes>, StoreError>
        requires { IsSpelled name }
        ensures answers { Answers (held self.old) (held self.new) (last self.new) (Call.Get name from len) (get_reply result) }
        ensures cause { HasCause (faults self.old) (faults self.new) (get_reply result) }
        ensures notes { notes self.old (Call.Get name from len) (get_reply result) self.new }
        ensures asked { asked self.new ≡ one_more (asked self.old) };

    /// Gives the length of an object in bytes, or None where the name is not held.
    fn size(&mut self, alloc: Global, name: Name) -> Result<Option<u64>, StoreError>
        requires { IsSpelled name }
        ensures answers { Answers (held self.old) (held self.new) (last self.new) (Call.Size name) (size_reply result) }
        ensures cause { HasCause (faults self.old) (faults self.new) (size_reply result) }
        ensures notes { notes self.old (Call.Size name) (size_reply result) self.new }
        ensures asked { asked self.new ≡ asked self.old };

    /// Tells what the last call did. It is `Done` exactly where that call did not answer `Failed`.
    fn fate(&self) -> Fate
        ensures { result ≡ last self.now };
}

/// Makes a call and gives its reply.
pub fn apply<S: Store>(alloc: Global, store: &mut S, call: &Call) -> Reply
    requires { IsSpelledCall call.now }
    ensures fits { FitsCall call.now result }
    ensures spelled { IsSpelledReply result }
    ensures answers { Answers (S.held store.old) (S.held store.new) (S.last store.new) call.now result }
    ensures cause { HasCause (S.faults store.old) (S.faults store.new) result }
    ensures notes { S.notes store.old call.now result store.new }
    ensures asked { S.asked store.new ≡ asked_after (S.asked store.old) call.now }
{
    match call {
        Call::Put(name, bytes) => match store.put(alloc, *name, bytes) {
            Ok(Made::New) => Reply::Made,
            Ok(Made::Taken) => Reply::Taken,
            Err(error) => refusal(error),
        },
        Call::Remove(name) => match store.remove(alloc, *name) {
            Ok(()) => Reply::Removed,
            Err(error) => refusal(error),
        },
        Call::List(prefix) => match store.list(alloc, *prefix) {
            Ok(names) => Reply::Names(names),
            Err(error) => refusal(error),
        },
        Call::Get(name, from, len) => match store.get(alloc, *name, *from, *len) {
            Ok(Some(bytes)) => Reply::Bytes(bytes),
            Ok(None) => Reply::Absent,
            Err(error) => refusal(error),
        },
        Call::Size(name) => match store.size(alloc, *name) {
            Ok(Some(len)) => Reply::Length(len),
            Ok(None) => Reply::Absent,
            Err(error) => refusal(error),
        },
    }
}

// The reply to a call that ended in an error.
fn refusal(error: StoreError) -> Reply
    ensures { result ≡ error_reply error }
{
    match error {
        StoreError::Failed => Reply::Failed,
        StoreError::OutOfMemory => Reply::NoMemory,
    }
}
