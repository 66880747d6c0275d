//! Fetching: one fragment after the other.
ghost use Rattle.std.specs.Prelude.{◌≡◌, ◌≤◌, ◌<◌, ◌-◌, ◌+◌, ◌^◌, ◌++◌, suc, drop, length, IfOk};
ghost use Rattle.ts_base.specs.Names.{IsSpelledFrag};
ghost use Rattle.ts_actor.specs.Fetches.{IsWorkCall};
ghost use Rattle.ts_model.specs.States.{after_fetched, fetch_leads, fetching, known_schema, with_deletion};
ghost use Rattle.ts_domain.specs.declared.boxes.SubBox.{SubBox as AnyBox};
ghost use Rattle.ts_actor.specs.PieceLaws.{AreInBox, IsFetchIn};
ghost use Rattle.ts_reader.specs.Reading.{IsFetching, IsKnown, IsReadState, fetches_left, reads_left};
ghost use Rattle.ts_actor.specs.Known.{AreRising};
ghost use Rattle.ts_reader.specs.Fetching.{AsksSpelled, HasFewer, LeadsInside, step_by, step_in};

use crate::answers::answer_of;
use crate::ends::ended;
use crate::known::{known_schema, want_of};
use std::alloc::Global;
use std::thread::Threads;
use ts_actor::{Fetched, Pieces};
use ts_base::{Boxed, FragKey, KeyList, Name, OutOfMemory};
use ts_batch::Batches;
use ts_model::{Collecting, Deletion, Opened, OpenedList, Outcome, Reading, Refusal, State};
use ts_schema::SchemaList;
use ts_store::{Call, Reply};
use ts_wire::ReadFault;

/// What a read has once it fetches.
pub(crate) struct Gathered {
    /// What it reads.
    pub reading: Boxed<Reading>,
    /// The fragments that it loads.
    pub opened: OpenedList,
    /// The further schemas that it knows.
    pub schemas: SchemaList,
}

// By hand and not derived, so that each drop is one call and its proof stays small.
impl Drop for Gathered {
    fn drop(self) {
        let Gathered {
            reading: _,
            opened: _,
            schemas: _,
        } = self;
    }
}

impl Gathered {
    /// A read gets the next further schema.
    pub(crate) fn gets_schemas<F>(self, keys: KeyList) -> Collecting<F>
        ensures { result ≡ Collecting.GetsSchemas self.reading self.opened keys self.schemas }
    {
        let Gathered {
            reading,
            opened,
            schemas,
        } = self;
        Collecting::GetsSchemas {
            reading,
            opened,
            keys,
            schemas,
        }
    }

    /// A read gets the next delete.
    pub(crate) fn gets_deletes<F>(self) -> Collecting<F>
        ensures { result ≡ Collecting.GetsDeletes self.reading self.opened self.schemas }
    {
        let Gathered {
            reading,
            opened,
            schemas,
        } = self;
        Collecting::GetsDeletes {
            reading,
            opened,
            schemas,
        }
    }

    /// One delete more was got.
    pub(crate) fn with_deletion(
        self,
        alloc: Global,
        deletion: Deletion,
    ) -> Result<Gathered, OutOfMemory>
        ensures { IfOk result (λ more. more ≡ record { reading = with_deletion self.reading deletion; opened = self.opened; schemas = self.schemas }) }
    {
        let Gathered {
            reading,
            opened,
            schemas,
        } = self;
        let mut reading = reading.into_inner();
        reading.deletions.push(deletion)?;
        Ok(Gathered {
            reading: Boxed::new(alloc, reading)?,
            opened,
            schemas,
        })
    }

    // A read waits for the reply to a call of a fetch.
    fn fetches<F>(self, ongoing: OngoingFetch<F>, asked: Call) -> Collecting<F>
        ensures { result ≡ Collecting.Fetches self.reading self.opened self.schemas ongoing.next ongoing.frag ongoing.got ongoing.fetch asked }
    {
        let Gathered {
            reading,
            opened,
            schemas,
        } = self;
        let OngoingFetch {
            next,
            frag,
            got,
            fetch,
        } = ongoing;
        Collecting::Fetches {
            reading,
            opened,
            schemas,
            next,
            frag,
            got,
            fetch,
            asked,
        }
    }
}

/// How far a fetch has come, as its state has it.
#[derive(Drop)]
pub(crate) struct OngoingFetch<F> {
    /// The place of the fragment.
    pub next: u64,
    /// The fragment.
    pub frag: FragKey,
    /// The versions in the fragments before it, in order.
    pub got: Batches,
    /// The fetch.
    pub fetch: F,
}

/// Where a step of a fetch leads.
#[derive(Drop)]
pub(crate) enum FetchStep<F> {
    /// It asks for this call, and waits for its reply.
    Asks(F, Call),
    /// These are all versions that are wanted of the fragment.
    Takes(Batches),
    /// The read ends.
    Ends(Outcome),
}

/// A read fetches the fragments from a place on, after the versions before; after the last it
/// answers.
pub(crate) fn fetch_from<P: Pieces, R: Threads + Sync>(
    rt: &R,
    alloc: Global,
    gathered: Gathered,
    next: u64,
    got: Batches,
) -> Result<State<P::Fetch>, OutOfMemory>
    requires known { IsKnown gathered.reading gathered.opened gathered.schemas }
    requires within { next ≤ length gathered.opened }
    requires inside { AreInBox gathered.reading.ready.sub got }
    ensures is { IfOk result (λ state. state ≡ fetching P.codec gathered.reading gathered.opened gathered.schemas next (drop next gathered.opened) got) }
    ensures may { IfOk result (IsReadState P.codec) }
    ensures bound { length gathered.opened < 2 ^ 64 }
    ensures fewer { IfOk result (λ state. reads_left P.left state ≤ fetches_left (length gathered.opened - next)) }
{
    let mut got = got;
    let count = gathered.opened.len();
    for place in next..count {
        let opened = gathered.opened.at(place);
        let frag = opened.frag;
        match start::<P, R>(rt, alloc, gathered.reading.get(), &gathered.schemas, opened)? {
            FetchStep::Asks(fetch, asked) => {
                let ongoing = OngoingFetch {
                    next: place,
                    frag,
                    got,
                    fetch,
                };
                let waiting = Boxed::new(alloc, gathered.fetches(ongoing, asked))?;
                return Ok(State::Collects(waiting));
            }
            FetchStep::Takes(versions) => got = joined(got, versions)?,
            FetchStep::Ends(end) => return Ok(State::Over(end)),
        }
    }
    let answer = answer_of(alloc, gathered.reading.get(), &gathered.schemas, got)?;
    Ok(State::Over(Outcome::Read(answer)))
}

// Begins to fetch a fragment.
fn start<P: Pieces, R: Threads + Sync>(
    rt: &R,
    alloc: Global,
    reading: &Reading,
    schemas: &SchemaList,
    opened: &Opened,
) -> Result<FetchStep<P::Fetch>, OutOfMemory>
    requires frag { IsSpelledFrag opened.now.frag }
    requires rise { AreRising schemas.now }
    ensures is { IfOk result (λ step. step ≡ step_in P.codec reading.now opened.now (known_schema reading.now schemas.now opened.now.head.schema)) }
    ensures inside { IfOk result (LeadsInside P.codec reading.now.ready.sub) }
    ensures few_calls { IfOk result (HasFewer P.left (2 ^ 128)) }
    ensures spelled { IfOk result AsksSpelled }
{
    let Some(schema) = known_schema(reading, schemas, opened.head.schema) else {
        return Ok(FetchStep::Ends(Outcome::OutOfMemory));
    };
    let want = want_of(alloc, reading, &schema.attrs)?;
    match P::fetch(
        rt,
        alloc,
        &reading.frame,
        schema,
        opened.frag,
        &opened.object,
        &want,
    ) {
        Ok(fetch) => go_on::<P, R>(rt, alloc, opened.frag, fetch, Reply::Start),
        Err(ReadFault::Damaged(fault)) => {
            let part = P::head_part(&reading.frame);
            let name = Name::Part(opened.frag, part);
            Ok(FetchStep::Ends(Outcome::Refused(Refusal::Damaged { name, at: fault.at })))
        }
        Err(ReadFault::OutOfMemory) => Err(OutOfMemory),
    }
}

// Goes on with the fetch of a fragment.
fn go_on<P: Pieces, R: Threads + Sync>(
    rt: &R,
    alloc: Global,
    frag: FragKey,
    fetch: P::Fetch,
    reply: Reply,
) -> Result<FetchStep<P::Fetch>, OutOfMemory>
    ensures is { IfOk result (λ step. step ≡ step_by frag (P.codec.steps fetch reply)) }
    ensures inside { (sub : AnyBox) → IsFetchIn P.codec sub fetch → IfOk result (LeadsInside P.codec sub) }
    ensures fewer { IfOk result (HasFewer P.left (P.left fetch)) }
    ensures spelled { IfOk result AsksSpelled }
{
    let mut fetch = fetch;
    match P::next(rt, alloc, &mut fetch, reply) {
        Fetched::Ask(call) => Ok(FetchStep::Asks(fetch, call)),
        Fetched::Got(versions) => Ok(FetchStep::Takes(versions)),
        Fetched::Damaged { part, at } => {
            let name = Name::Part(frag, part);
            Ok(FetchStep::Ends(Outcome::Refused(Refusal::Damaged { name, at })))
        }
        Fetched::OutOfMemory => Err(OutOfMemory),
    }
}

// The versions got so far, and after them some more.
fn joined(got: Batches, more: Batches) -> Result<Batches, OutOfMemory>
    ensures { IfOk result (λ all. all ≡ got ++ more) }
{
    let mut all = got;
    all.append(more)?;
    Ok(all)
}

/// Where the reply to a fetch's call leads.
pub(crate) fn after_fetched<P: Pieces, R: Threads + Sync>(
    rt: &R,
    alloc: Global,
    gathered: Gathered,
    ongoing: OngoingFetch<P::Fetch>,
    asked: Call,
    reply: Reply,
) -> Result<State<P::Fetch>, OutOfMemory>
    requires { IsFetching P.codec gathered.reading gathered.opened gathered.schemas ongoing.next ongoing.got ongoing.fetch }
    ensures is { IfOk result (λ next. next ≡ after_fetched P.codec gathered.reading gathered.opened gathered.schemas ongoing.next ongoing.frag ongoing.got ongoing.fetch asked reply) }
    ensures may { IfOk result (IsReadState P.codec) }
    ensures fewer { IfOk result (λ next. reads_left P.left next < fetches_left (length gathered.opened - suc ongoing.next) + suc (P.left ongoing.fetch)) }
{
    match reply {
        Reply::Bytes(bytes) => after_told::<P, R>(
            rt,
            alloc,
            gathered,
            ongoing,
            Reply::Bytes(bytes),
        ),
        Reply::Length(count) => after_told::<P, R>(
            rt,
            alloc,
            gathered,
            ongoing,
            Reply::Length(count),
        ),
        other => Ok(ended::<P>(&asked, &other)),
    }
}

// Where bytes or a length lead a fetch.
fn after_told<P: Pieces, R: Threads + Sync>(
    rt: &R,
    alloc: Global,
    gathered: Gathered,
    ongoing: OngoingFetch<P::Fetch>,
    reply: Reply,
) -> Result<State<P::Fetch>, OutOfMemory>
    requires { IsFetching P.codec gathered.reading gathered.opened gathered.schemas ongoing.next ongoing.got ongoing.fetch }
    ensures is { IfOk result (λ next. next ≡ fetch_leads gathered.reading gathered.opened gathered.schemas ongoing.next ongoing.frag ongoing.got (λ vs. fetching P.codec gathered.reading gathered.opened gathered.schemas (suc ongoing.next) (drop (suc ongoing.next) gathered.opened) (ongoing.got ++ vs)) (P.codec.steps ongoing.fetch reply)) }
    ensures may { IfOk result (IsReadState P.codec) }
    ensures fewer { IfOk result (λ next. reads_left P.left next < fetches_left (length gathered.opened - suc ongoing.next) + suc (P.left ongoing.fetch)) }
{
    let OngoingFetch {
        next,
        frag,
        got,
        fetch,
    } = ongoing;
    let _count = gathered.opened.len();
    match go_on::<P, R>(rt, alloc, frag, fetch, reply)? {
        FetchStep::Asks(fetch, asked) => {
            let ongoing = OngoingFetch {
                next,
                frag,
                got,
                fetch,
            };
            let waiting = Boxed::new(alloc, gathered.fetches(ongoing, asked))?;
            Ok(State::Collects(waiting))
        }
        FetchStep::Takes(versions) => fetch_from::<P, R>(
            rt,
            alloc,
            gathered,
            next + 1,
            joined(got, versions)?,
        ),
        FetchStep::Ends(end) => Ok(State::Over(end)),
    }
}
