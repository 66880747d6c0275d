//! A world: actors that share one store, and events that happen to them.
ghost use Rattle.std.specs.Prelude.{◌≡◌, ◌≢◌, [], OnOk, OnErr};
ghost use Rattle.std.specs.Option.{option_copied};
ghost use Rattle.ts_store.specs.Memory.{held_in};
ghost use Rattle.ts_law.specs.Stands.{Stands};
ghost use Rattle.ts_world.specs.Views.{end_of};
ghost use Rattle.ts_world.specs.Clauses.{IsSound, BeganWith, MayCome, Happens, HasCause, new_world};

use crate::breaks;
use crate::events::{Event, WorldFault};
use crate::parts::{self, Parts};
use crate::slots::end_of;
use std::alloc::Global;
use std::marker::Model;
use std::snapshot::Snapshot;
use std::thread::Threads;
use ts_actor::Pieces;
use ts_model::{History, JobList, Outcome};
use ts_store::{Journal, MemStore};

/// A world of actors, each with one job, that share a store in memory.
///
/// It lets every interleaving of their calls happen, each call with any fate, and every crash, but for
/// calls and broken leases that would take the lease of an actor that runs. One event is one call of one
/// actor, or an actor that comes, or that is dropped, or a lease that is broken. Contracts see what the
/// store held at the beginning, the past, the job of each actor that ever came, the calls with their
/// fates and replies, what the store holds, the journal, and where each actor stands.
#[derive(Drop)]
pub struct World<P: Pieces> {
    parts: Parts<P>,
}

impl<P: Pieces> Model for World<P> {
    ghost use Rattle.ts_world.specs.Views.{WorldView};

    ghost Value = { WorldView };

    ghost use Rattle.std.specs.Coded.{codes};
    ghost use Rattle.ts_base.specs.Held.{held_code};
    ghost use Rattle.ts_cond.specs.Codes.{test_code};

    ghost coded = { Prim.hlevel (codes, held_code, test_code) };

    ghost use Rattle.ts_world.specs.Slots.{view_of, ArePartsOk};

    ghost view = { λ world. view_of world.parts };

    ghost invariant = { λ world. ArePartsOk P.codec P.spelled P.tracks world.parts };
}

impl<P: Pieces> World<P> {
    /// A world with a store and no actors. The store has to stand for the past.
    ///
    /// What the store plans for its calls does not count: each event gives the fate of its call. It
    /// takes no memory.
    pub fn new(alloc: Global, store: MemStore, past: History) -> World<P>
        requires { Stands P.spelled (held_in store) past }
        ensures new { result ≡ new_world (held_in store) past }
        ensures sound { IsSound P.codec P.spelled result }
        ensures began { BeganWith (held_in store) result }
    {
        let opening = Snapshot::of(&store);
        World {
            parts: Parts {
                opening,
                store,
                past,
                jobs: JobList::new(alloc),
                told: Vec::new(alloc),
                journal: Journal::new(alloc),
                slots: Vec::new(alloc),
            },
        }
    }

    /// Lets an event happen.
    ///
    /// A Spawn adds an actor, with the number of actors that came before it as its number and its
    /// lane. It is refused with `IdTaken` where an earlier job or a held name carries the identifier.
    /// Where none of these carries it, the caller has to know that nothing carried it when the world
    /// began: no deed of the past, and nothing that the store held then, not even a name in a `.vac`
    /// of a committed fragment.
    ///
    /// A Step makes the next call of an actor and hands it the reply; a Stop makes the call and drops
    /// the actor; both are refused with `NoActor` where no such actor runs. A Break removes a lease,
    /// with the fate Done and in the lane 2^32 - 1, which is no actor's. A Restart drops every running
    /// actor. An actor that asks for nothing more has ended.
    ///
    /// A lease is taken away only from an actor that is gone: a Break of a lease with the identifier
    /// of a running actor is refused with `LeaseLive`, and so is a call that would remove such a lease
    /// of another actor than its own.
    ///
    /// Whatever is refused, and whatever wants memory, changes nothing that contracts see.
    pub fn step<R: Threads + Sync>(
        &mut self,
        rt: &R,
        alloc: Global,
        event: Event,
    ) -> Result<(), WorldFault>
        requires { MayCome self.old event }
        ensures sound { IsSound P.codec P.spelled self.new }
        ensures happens { OnOk result (Happens P.codec event self.old self.new) }
        ensures began { self.new.opening ≡ self.old.opening }
        ensures unchanged { OnErr result (self.new ≡ self.old) }
        ensures cause { HasCause P.codec event self.old result }
    {
        match event {
            Event::Spawn(command, at, id) => {
                parts::spawn(&mut self.parts, rt, alloc, command, at, id)
            }
            Event::Step(number, fate) => parts::step(&mut self.parts, rt, alloc, number, fate),
            Event::Stop(number, fate) => parts::stop(&mut self.parts, alloc, number, fate),
            Event::Break(lease) => breaks::break_lease(&mut self.parts, alloc, lease),
            Event::Restart => {
                parts::restart(&mut self.parts);
                Ok(())
            }
        }
    }

    /// How the actor with a number ended, or None where it runs, was dropped, or never came.
    pub fn answer_of(&self, actor: u32) -> Option<&Outcome>
        ensures { option_copied result ≡ end_of self.now.actors actor }
    {
        end_of(self.parts.slots.as_slice(), actor)
    }

    /// The calls that were made, in order, each in the lane of its actor, or in nobody's.
    pub fn journal(&self) -> &Journal
        ensures { result.now ≡ self.now.journal }
    {
        &self.parts.journal
    }

    /// The store that the actors share.
    pub fn store(&self) -> &MemStore
        ensures { held_in result.now ≡ self.now.held }
    {
        &self.parts.store
    }
}
