//! Machines that ask for their calls one by one.
ghost use Rattle.std.specs.Prelude.{◌≡◌, ℕ, List};
ghost use Rattle.ts_store.specs.declared.call.Reply.{Reply};
ghost use Rattle.std.specs.Thread.{IsSync};
ghost use Rattle.ts_store.specs.Calls.{IsSpelledReply};
ghost use Rattle.ts_model.specs.States.{Exchange};
ghost use Rattle.ts_actor.specs.Traces.{Trace, CanCome, Expects, Falls, GoesOn, IsSpelledStep, filled};

use std::alloc::Global;
use std::thread::Threads;
use ts_store::{Call, Reply};

/// What a machine does with a reply.
#[derive(Debug, Drop, PartialEq, Eq)]
pub enum Step<O> {
    /// It asks for this call, and waits for its reply.
    Ask(Call),
    /// It is done, and asks for nothing more.
    Done(O),
}

/// A machine that asks for its calls one by one.
///
/// Whoever runs it makes the call and hands it the reply; in between anybody else may make calls.
/// The first reply is `Start`, and after `Done` the machine takes no further one. A machine that
/// finds no memory goes to its end, with an end of its own for that.
pub trait Actor {
    /// What it ends with.
    type Out;

    /// What it is to do: plain data, the arguments of its constructor.
    type Task;

    /// What this machine is to do. It stays to the end.
    ghost task: { Self → Self.Task };

    /// The machine has asked for the calls of this trace, and they had these replies.
    ghost follows: { Self → Trace → Type 0 };

    /// A task may have this end by these calls.
    ghost ends: { Self.Task → List Exchange → Self.Out → Type 0 };

    /// More than the calls that it still asks for.
    ghost measure: { Self → ℕ };

    /// Takes the reply to the call that was asked for, and goes on to the next one.
    fn next<R: Threads + Sync>(&mut self, rt: &R, alloc: Global, reply: Reply) -> Step<Self::Out>
        requires due { Expects (follows self.old) reply }
        requires reply_spelled { IsSpelledReply reply }
        requires sync { IsSync R.row }
        ensures task { task self.new ≡ task self.old }
        ensures goes_on { (t : Trace) → follows self.old t → CanCome t.asked reply → GoesOn (follows self.new) (ends (task self.old)) (filled t reply) result }
        ensures falls { Falls (measure self.old) (measure self.new) result }
        ensures spelled { IsSpelledStep result };
}
