//! Crews: who does the commands of lanes.
ghost use Rattle.std.specs.Prelude.{◌≡◌, ℕ, ◌+◌, ◌<◌, List, IfOk};
ghost use Rattle.std.specs.Thread.{IsSync};
ghost use Rattle.ts_base.specs.declared.heads.Stop.{Stop as A_stop};
ghost use Rattle.ts_store.specs.Calls.{IsSpelledReply};
ghost use Rattle.ts_model.specs.declared.answers.Outcome.{Outcome as An_outcome};
ghost use Rattle.ts_model.specs.States.{Exchange};
ghost use Rattle.ts_actor.specs.Traces.{Trace, CanCome, Expects, Falls, GoesOn, IsSpelledStep, filled, start};
ghost use Rattle.ts_lanes.specs.Commands.{IsCommand};

use std::alloc::Global;
use std::thread::Threads;
use ts_actor::Step;
use ts_base::{OutOfMemory, Stop};
use ts_model::Outcome;
use ts_store::Reply;

/// A command that has begun.
pub struct Begun<A> {
    /// Who does it.
    pub actor: A,
    /// Where it is stopped.
    pub stop: Stop,
}

/// The commands of some lanes, and who does them. The commands of a lane are numbered from 1.
///
/// The commands that a lane has still to do are in a queue of its own, and each is taken off it when its turn
/// comes. So a machine owns its command, whose memory can be freed once it is done. What a queue has to have is
/// the crew's own to say. Which command is begun does not rest on it: `begin` owes a task of the command with
/// that number.
///
/// Each command is done by a machine of its own, which the crew makes, hands each reply and lets go:
/// its type is not asked to be an `Actor`, and what it does is said here as there.
pub trait Crew: Sync {
    /// Who does a command.
    type A;

    /// What a machine is to do: plain data.
    type Task;

    /// The commands of a lane that are still to be done.
    type Queue: Send + Drop;

    /// How many lanes there are.
    ghost lane_count: { Self → ℕ };

    /// How many commands a lane has.
    ghost command_count: { Self → ℕ → ℕ };

    /// Where the command of a lane with a number is stopped.
    ghost stop_of: { Self → ℕ → ℕ → A_stop };

    /// The queue has the commands of this lane from the one with this number on.
    ghost waits: { Self → ℕ → ℕ → Self.Queue → Type 0 };

    /// This task is one of the command of a lane with a number.
    ghost offers: { Self → ℕ → ℕ → Self.Task → Type 0 };

    /// What a machine is to do. It stays to the end.
    ghost task: { Self.A → Self.Task };

    /// The machine has asked for the calls of this trace, and they had these replies.
    ghost follows: { Self.A → Trace → Type 0 };

    /// A task may have this end by these calls.
    ghost ends: { Self.Task → List Exchange → An_outcome → Type 0 };

    /// More than the calls that a machine still asks for.
    ghost measure: { Self.A → ℕ };

    /// How many commands a lane has, all of which are in its queue.
    fn count(&self, lane: u32, queue: &Self::Queue) -> u32
        requires lane { lane < lane_count self.now }
        requires waits { waits self.now lane 1 queue.now }
        ensures { result ≡ command_count self.now lane };

    /// Takes the next command of a lane off its queue. It gives a machine for a task of that command, which has
    /// made no call yet, and says where it is to be stopped. Where there is no memory for a machine the command
    /// is off the queue all the same, and its task is chosen.
    fn begin(
        &self,
        alloc: Global,
        lane: u32,
        number: u32,
        queue: &mut Self::Queue,
    ) -> Result<Begun<Self::A>, OutOfMemory>
        requires command { IsCommand (lane_count self.now) (command_count self.now) lane number }
        requires waits { waits self.now lane number queue.old }
        ensures waits { waits self.now lane (number + 1) queue.new }
        ensures task { (k : Self.Task) × offers self.now lane number k × IfOk result (λ begun. follows begun.actor start × (task begun.actor ≡ k)) }
        ensures stop { IfOk result (λ begun. begun.stop ≡ stop_of self.now lane number) };

    /// Hands a machine the reply to the call that it asked for; the first one is `Start`.
    fn next<R: Threads + Sync>(
        &self,
        rt: &R,
        alloc: Global,
        actor: &mut Self::A,
        reply: Reply,
    ) -> Step<Outcome>
        requires due { Expects (follows actor.old) reply }
        requires reply_spelled { IsSpelledReply reply }
        requires sync { IsSync R.row }
        ensures task { task actor.new ≡ task actor.old }
        ensures goes_on { (t : Trace) → follows actor.old t → CanCome t.asked reply → GoesOn (follows actor.new) (ends (task actor.old)) (filled t reply) result }
        ensures falls { Falls (measure actor.old) (measure actor.new) result }
        ensures spelled { IsSpelledStep result };

    /// Lets a machine go, wherever it is.
    fn dismiss(&self, actor: Self::A);
}
