//! A machine that does the jobs of one kind.
ghost use Rattle.std.specs.Prelude.{◌≡◌, ◌≢◌, ◌<◌, ◌≤◌, ◌+◌, ℕ, List, true, false, IfOk, IfSome, OnErr, None};
ghost use Rattle.std.specs.Thread.{IsSync};
ghost use Rattle.ts_store.specs.Calls.{IsSpelledCall, IsSpelledReply};
ghost use Rattle.ts_model.specs.declared.commands.Job.{Job as AnyJob};
ghost use Rattle.ts_store.specs.declared.call.Call.{Call as AnyCall};
ghost use Rattle.ts_model.specs.declared.states.State.{State};
ghost use Rattle.ts_model.specs.declared.states.State.TheVariants.{Over};
ghost use Rattle.ts_model.specs.declared.states.Stage.TheVariants.{Works};
ghost use Rattle.ts_model.specs.Codecs.{Codec};
ghost use Rattle.ts_model.specs.States.{Exchange, asks, asks_memory, begun, goes, is_over, takes_memory};
ghost use Rattle.ts_model.specs.Stages.{first_stage, lease_of, stage_asks, stage_asks_memory, stage_goes, stage_of};
ghost use Rattle.ts_model.specs.Driven.{EndsBy};
ghost use Rattle.ts_actor.specs.Machines.{Advances, AsksNoRelease, CanLack, Follows, GivesUpSo, IsStageOf, KnowsEnds, SparesLease, calls_left, stage_left};
ghost use Rattle.ts_actor.specs.Traces.{CanCome, Expects, Trace, filled, start};

use crate::actor::{Actor, Step};
use crate::leases::{after_lease, after_leases, lease_of, put_lease, released, settled};
use std::alloc::Global;
use std::marker::PhantomData;
use std::mem;
use std::thread::Threads;
use ts_base::{Name, OutOfMemory, Prefix};
use ts_model::{Command, Job, Outcome, Stage, State};
use ts_store::{Call, Reply};

/// The code for the work of one kind of commands: where a job begins, the call that it makes next, and
/// where the reply leads it. Its lease, if it has one, is the machine's affair.
///
/// Each function computes what the model says of any job. Only memory can be wanting.
pub trait Automaton {
    /// How far the fetch of a fragment has come.
    type Fetch: Drop;

    /// How fragments are written and read.
    ghost codec: { Codec Self.Fetch };

    /// The jobs that it is for.
    ghost serves: { AnyJob → Type 0 };

    /// The states that these jobs can be in.
    ghost may: { AnyJob → State Self.Fetch → Type 0 };

    /// The most calls that a job makes from a state on.
    ghost left: { State Self.Fetch → ℕ };

    /// Every job may be over.
    ghost ends: { KnowsEnds may };

    /// The calls that the work of a job may make.
    ghost calls: { AnyJob → AnyCall → Type 0 };

    /// Each has a spelling, and none removes the lease of the job.
    ghost spares: { SparesLease serves calls };

    /// Where a job begins. It never ends for want of memory.
    fn begin(alloc: Global, job: &Job) -> State<Self::Fetch>
        requires { serves job.now }
        ensures is { result ≡ begun job.now.command }
        ensures may { may job.now result };

    /// The next call of a job, or None where it is over. Neither the end nor the removal of an object,
    /// whose name is at hand, takes memory.
    fn ask(
        alloc: Global,
        job: &Job,
        state: &State<Self::Fetch>,
    ) -> Result<Option<Call>, OutOfMemory>
        requires job { serves job.now }
        requires state { may job.now state.now }
        ensures is { IfOk result (λ call. call ≡ asks codec job.now state.now) }
        ensures lacks { OnErr result (asks_memory state.now ≡ true) }
        ensures works { IfOk result (λ call. IfSome call (calls job.now)) };

    /// Where a reply leads a job. A job that makes a call has fewer of them left afterwards. The reply
    /// to the put or the removal of an object leads on without memory.
    fn go<R: Threads + Sync>(
        rt: &R,
        alloc: Global,
        job: &Job,
        state: State<Self::Fetch>,
        reply: Reply,
    ) -> Result<State<Self::Fetch>, OutOfMemory>
        requires job { serves job.now }
        requires state { may job.now state }
        requires reply { IsSpelledReply reply }
        requires sync { IsSync R.row }
        ensures is { IfOk result (λ next. next ≡ goes codec job.now state reply) }
        ensures may { IfOk result (may job.now) }
        ensures lacks { OnErr result (takes_memory state ≡ true) }
        ensures fewer { IfOk result (λ next. asks codec job.now state ≢ None → left next < left state) };
}

/// How far a machine has come.
#[derive(Debug, Drop)]
pub enum Phase<F> {
    /// It waits for its first reply, `Start`.
    New,
    /// It waits for the reply to the call that the job asks for in this stage.
    Going(Stage<F>),
    /// There was no memory to go on, and it waits for the reply to the removal of its lease.
    GivesUp(Name),
    /// It is done.
    Ended,
}

/// A machine that does one job by the automaton of its kind.
///
/// A job that has a lease puts it first, lists the leases, and works where none of them opposes its
/// own. Its last call removes the lease, whatever end it came to, and also where there is no memory to
/// go on. That is never so between two removals of objects: a job that has removed one goes on to the
/// last, or to a removal that is not answered `Removed`.
#[derive(Drop)]
pub struct Machine<K: Automaton> {
    job: Job,
    phase: Phase<K::Fetch>,
    of: PhantomData<K>,
}

impl<K: Automaton> Machine<K> {
    /// A machine that has made no call of the job yet. It takes no memory.
    pub fn of(job: Job) -> Machine<K>
        requires { K.serves job }
        ensures new { Follows K.codec K.serves K.may result.job result.phase start }
        ensures task { result.job ≡ job }
    {
        Machine {
            job,
            phase: Phase::New,
            of: PhantomData,
        }
    }
}

impl<K: Automaton> Actor for Machine<K> {
    type Out = Outcome;

    type Task = Job;

    ghost task = { λ m. m.job };

    ghost follows = { λ m t. Follows K.codec K.serves K.may m.job m.phase t };

    ghost ends = { λ job past end. EndsBy K.codec job past end };

    ghost measure = { λ m. calls_left K.left m.job m.phase };

    fn next<R: Threads + Sync>(&mut self, rt: &R, alloc: Global, reply: Reply) -> Step<Outcome> {
        let phase = mem::replace(&mut self.phase, Phase::Ended);
        match advance::<K, R>(rt, alloc, &self.job, phase, reply) {
            Ok((phase, call)) => {
                self.phase = phase;
                Step::Ask(call)
            }
            Err(end) => Step::Done(end),
        }
    }
}

// Where a reply leads a job that has come so far: to a phase and the call that it asks for there, or
// to its end.
fn advance<K: Automaton, R: Threads + Sync>(
    rt: &R,
    alloc: Global,
    job: &Job,
    phase: Phase<K::Fetch>,
    reply: Reply,
) -> Result<(Phase<K::Fetch>, Call), Outcome>
    requires due { Expects (Follows K.codec K.serves K.may job.now phase) reply }
    requires reply_spelled { IsSpelledReply reply }
    requires sync { IsSync R.row }
    ensures goes { (t : Trace) → Follows K.codec K.serves K.may job.now phase t → CanCome t.asked reply → Advances K.codec K.serves K.may job.now (filled t reply) result }
    ensures fewer { IfOk result (λ next. calls_left K.left job.now next.0 < calls_left K.left job.now phase) }
    ensures spelled { IfOk result (λ next. IsSpelledCall next.1) }
{
    match phase {
        Phase::New => {
            let stage = first_stage::<K>(alloc, job);
            ask_from::<K>(alloc, job, stage)
        }
        Phase::Going(stage) => match stage_after::<K, R>(rt, alloc, job, stage, reply) {
            Ok(stage) => ask_from::<K>(alloc, job, stage),
            Err(_) => give_up(job),
        },
        Phase::GivesUp(_) | Phase::Ended => Err(Outcome::OutOfMemory),
    }
}

// What a job asks for in a stage that it has come to, or its end.
fn ask_from<K: Automaton>(
    alloc: Global,
    job: &Job,
    stage: Stage<K::Fetch>,
) -> Result<(Phase<K::Fetch>, Call), Outcome>
    requires serves { K.serves job.now }
    requires stage { IsStageOf K.may job.now stage }
    ensures asks { (past : List Exchange) → stage_of K.codec job.now past ≡ stage → Advances K.codec K.serves K.may job.now past result }
    ensures most { IfOk result (λ next. calls_left K.left job.now next.0 ≤ stage_left K.left job.now stage) }
    ensures spelled { IfOk result (λ next. IsSpelledCall next.1) }
{
    match ask_stage::<K>(alloc, job, &stage) {
        Ok(Some(call)) => Ok((Phase::Going(stage), call)),
        Ok(None) => match end_of(stage) {
            Some(end) => Err(end),
            None => give_up(job),
        },
        Err(_) => give_up(job),
    }
}

// The first stage of a job.
fn first_stage<K: Automaton>(alloc: Global, job: &Job) -> Stage<K::Fetch>
    requires { K.serves job.now }
    ensures is { result ≡ first_stage job.now }
    ensures stage { IsStageOf K.may job.now result }
    ensures most { stage_left K.left job.now result < K.left (begun job.now.command) + 5 }
{
    match lease_of(job) {
        Some(lease) => Stage::PutsLease(lease),
        None => Stage::Works(K::begin(alloc, job)),
    }
}

// Where the reply to the call that is asked for in a stage leads.
fn stage_after<K: Automaton, R: Threads + Sync>(
    rt: &R,
    alloc: Global,
    job: &Job,
    stage: Stage<K::Fetch>,
    reply: Reply,
) -> Result<Stage<K::Fetch>, OutOfMemory>
    requires serves { K.serves job.now }
    requires stage { IsStageOf K.may job.now stage }
    requires reply_spelled { IsSpelledReply reply }
    requires sync { IsSync R.row }
    ensures is { IfOk result (λ next. next ≡ stage_goes K.codec job.now stage reply) }
    ensures stage { IfOk result (IsStageOf K.may job.now) }
    ensures lacks { OnErr result (CanLack stage) }
    ensures fewer { IfOk result (λ next. stage_asks K.codec job.now stage ≢ None → stage_left K.left job.now next < stage_left K.left job.now stage) }
{
    match stage {
        Stage::PutsLease(lease) => Ok(after_lease(lease, &reply)),
        Stage::ListsLeases(lease) => Ok(after_leases(lease, K::begin(alloc, job), &reply)),
        Stage::Works(state) => {
            let next = K::go(rt, alloc, job, state, reply)?;
            Ok(settled(lease_of(job), next))
        }
        Stage::Releases { lease, end } => Ok(Stage::Works(State::Over(released(
            lease, end, &reply,
        )))),
    }
}

// The call that a job asks for in a stage, or None where it is over.
fn ask_stage<K: Automaton>(
    alloc: Global,
    job: &Job,
    stage: &Stage<K::Fetch>,
) -> Result<Option<Call>, OutOfMemory>
    requires serves { K.serves job.now }
    requires stage { IsStageOf K.may job.now stage.now }
    ensures is { IfOk result (λ call. call ≡ stage_asks K.codec job.now stage.now) }
    ensures no_release { IfOk result (λ call. AsksNoRelease K.codec job.now stage.now) }
    ensures lacks { OnErr result (stage_asks_memory stage.now ≡ true) }
    ensures spelled { IfOk result (λ call. IfSome call IsSpelledCall) }
{
    match stage {
        Stage::PutsLease(lease) => Ok(Some(put_lease(*lease))),
        Stage::ListsLeases(_) => Ok(Some(Call::List(Prefix::Leases))),
        Stage::Works(state) => K::ask(alloc, job, state),
        Stage::Releases { lease, end: _ } => Ok(Some(Call::Remove(*lease))),
    }
}

// For want of memory a job that has a lease removes it, and another one ends.
fn give_up<F: Drop>(job: &Job) -> Result<(Phase<F>, Call), Outcome>
    ensures is { GivesUpSo (lease_of job.now) result }
    ensures spelled { IfOk result (λ next. IsSpelledCall next.1) }
{
    match lease_of(job) {
        Some(lease) => Ok((Phase::GivesUp(lease), Call::Remove(lease))),
        None => Err(Outcome::OutOfMemory),
    }
}

// The end of a job that is over.
fn end_of<F: Drop>(stage: Stage<F>) -> Option<Outcome>
    ensures over { IfSome result (λ end. stage ≡ Works (Over end)) }
    ensures works { result ≡ None → (s : State F) → stage ≡ Works s → is_over s ≡ false }
{
    match stage {
        Stage::Works(state) => over_in(state),
        _other => None,
    }
}

// The end of a job whose work has come to this state, where that is over.
#[tactic(auto, using(crate::proofs::MachineLaws::not_over_state))]
fn over_in<F: Drop>(state: State<F>) -> Option<Outcome>
    ensures over { IfSome result (λ end. state ≡ Over end) }
    ensures works { result ≡ None → is_over state ≡ false }
{
    match state {
        State::Over(end) => Some(end),
        _other => None,
    }
}
