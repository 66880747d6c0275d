//! A call that was made in a world, with all that is known of it.
ghost use Rattle.std.specs.Prelude.{◌≡◌, false, IfOk, OnErr};
ghost use Rattle.ts_store.specs.Calls.{is_no_memory};
ghost use Rattle.ts_store.specs.Memory.{held_in};
ghost use Rattle.ts_model.specs.Told.{changes};
ghost use Rattle.ts_world.specs.Views.{HasList};

use std::alloc::Global;
use std::marker::Model;
use ts_base::{Duplicate, OutOfMemory};
use ts_store::{Call, Fate, MemStore, Reply};

/// A call that an actor made, or nobody, with its fate, its reply, and whether it changed what is
/// held.
///
/// Contracts see it as the call of the job that has the actor's number, if there is one.
#[derive(Drop)]
pub(crate) struct MadeCall {
    pub(crate) actor: Option<u32>,
    pub(crate) call: Call,
    pub(crate) fate: Fate,
    pub(crate) reply: Reply,
    pub(crate) changed: bool,
}

impl Model for MadeCall {
    ghost use Rattle.ts_model.specs.Told.{Told};

    ghost Value = { Told };

    ghost view = { λ made. record { job = made.actor; call = made.call; fate = made.fate; reply = made.reply; changed = made.changed } };
}

// Whether a call with this fate changes what the store holds.
pub(crate) fn changes(store: &MemStore, call: &Call, fate: Fate) -> bool
    ensures { result ≡ changes (held_in store.now) call.now fate }
{
    match call {
        Call::Put(name, _) => fate.took_effect() && !store.holds(*name),
        Call::Remove(name) => fate.took_effect() && store.holds(*name),
        _ => false,
    }
}

// A copy of the reply to a call that found memory. Only a reply with a list can want memory.
pub(crate) fn copy_reply(alloc: Global, reply: &Reply) -> Result<Reply, OutOfMemory>
    requires { is_no_memory reply.now ≡ false }
    ensures copy { IfOk result (λ twin. twin ≡ reply.now) }
    ensures short { OnErr result (HasList reply.now) }
{
    match reply {
        Reply::Start => Ok(Reply::Start),
        Reply::Made => Ok(Reply::Made),
        Reply::Taken => Ok(Reply::Taken),
        Reply::Removed => Ok(Reply::Removed),
        Reply::Names(names) => Ok(Reply::Names(names.copy(alloc)?)),
        Reply::Bytes(bytes) => Ok(Reply::Bytes(bytes.copy(alloc)?)),
        Reply::Absent => Ok(Reply::Absent),
        Reply::Length(len) => Ok(Reply::Length(*len)),
        Reply::Failed => Ok(Reply::Failed),
        Reply::NoMemory => Ok(Reply::NoMemory),
    }
}
