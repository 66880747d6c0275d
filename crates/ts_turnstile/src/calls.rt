//! Making calls: a ticket is drawn, its turn awaited, the call made and entered, and the next ticket
//! served.
ghost use Rattle.std.specs.Prelude.{◌≡◌, ◌≢◌, true, [], ◌∷◌, ◌++◌, length, IfOk, IfErr, cond};
ghost use Rattle.ts_store.specs.Calls.{FitsCall, IsSpelledCall, IsSpelledReply};
ghost use Rattle.ts_turnstile.specs.declared.slot.Slot.TheVariants.{Home, Out};
ghost use Rattle.ts_turnstile.specs.Turns.{entries_in};
ghost use Rattle.ts_turnstile.specs.Chains.{TurnDid};
ghost use Rattle.ts_turnstile.specs.Views.{opening_of, first_view, lanes_of, with_ticket, in_turn};
ghost use Rattle.ts_turnstile.specs.Lanes.{Hears};
ghost use Rattle.ts_turnstile.specs.Places.{place_in, place_after};
ghost use Rattle.ts_turnstile.specs.Plays.{Took};
ghost use Rattle.ts_turnstile.specs.Rule.{Stands};
ghost use Rattle.ts_turnstile.specs.Passes.{pass_view, CalledInTurn};
ghost use Rattle.ts_turnstile.specs.Belonging.{Belongs, Rests, Awaits};

use crate::closed::Closed;
use crate::making::make;
use crate::pass::Pass;
use crate::plays::{Draw, Look, Post, Serve};
use crate::rule::{DRAWN, ENTRIES, SERVED, Seat};
use crate::slot::Slot;
use crate::told::Told;
use crate::turn::Turn;
use crate::turnstile::Turnstile;
use atomic_table::{Badge, Refused, Table};
use std::alloc::Global;
use std::mem;
use std::sync::Wait;
use std::thread::Threads;
use ts_store::{Call, Journal, Reply, Store};

// The bits of a word that a sleeper compares.
const LOW: u64 = 0xffff_ffff;

// What came of a turn: the reply, and the place of the entry where there is one.
struct Made {
    reply: Reply,
    place: Option<u64>,
}

impl<S: Store> Turnstile<S> {
    /// A turnstile over a store, with the first pass, which makes the calls of lane 0. The journal
    /// is empty. For want of memory the store comes back as it was.
    pub fn new<R: Threads + Sync>(
        _rt: &R,
        alloc: Global,
        store: S,
    ) -> Result<(Turnstile<S>, Pass), S>
        ensures ok { IfOk result (λ made. Belongs made.0 made.1 × (pass_view made.1 ≡ first_view (opening_of S.held S.faults store))) }
        ensures opened { IfOk result (λ made. made.0.opened.value ≡ store) }
        ensures err { IfErr result (λ back. back ≡ store) }
    {
        let Ok(mut slots) = Vec::with_capacity(alloc, 1) else {
            return Err(store);
        };
        let start = Told::of(&store);
        let journal = Journal::new(alloc);
        slots.push_reserved(Slot::Home(Closed { store, journal }));
        match Table::new(alloc, &[0, 0, 0], slots, &start) {
            Ok((table, seat)) => {
                let pass = Pass {
                    lane: 0,
                    number: 0,
                    place: None,
                    badge: seat.into_badge(),
                };
                let opened = start;
                Ok((Turnstile { table, opened }, pass))
            }
            Err(Refused { slots }) => Err(only_store(slots)),
        }
    }

    /// Makes a call for the pass's lane and number, once its turn has come, enters it in the journal
    /// with what it did, and gives the store's reply.
    ///
    /// The memory for the entry is taken before the call is made. Where there is none, for the entry
    /// or for the call, the reply is `NoMemory`: nothing was entered, and what is held is as it was.
    pub fn call_as<R: Wait>(&self, rt: &R, alloc: Global, pass: &mut Pass, call: Call) -> Reply
        requires own { Belongs self.now pass.old }
        requires spelled { IsSpelledCall call }
        ensures own { Belongs self.now pass.new }
        ensures number { pass.new.number ≡ pass.old.number }
        ensures fits { FitsCall call result }
        ensures spelled { IsSpelledReply result }
        ensures called { CalledInTurn (pass_view pass.old) (pass_view pass.new) pass.old.number call result }
    {
        let badge = mem::replace(&mut pass.badge, Badge::blank());
        let mut seat = badge.into_seat();
        let Made { reply, place } = self.call_at(
            rt,
            alloc,
            &mut seat,
            pass.lane,
            pass.number,
            call,
        );
        pass.badge = seat.into_badge();
        pass.place = latest(place, pass.place);
        reply
    }
}

// The store in the one slot that a table was to be made of.
fn only_store<S>(mut slots: Vec<Slot<S>>) -> S
    requires { (home : _) × (slots.items ≡ Home home ∷ []) }
    ensures { (journal : _) × (slots.items ≡ Home (record { store = result; journal = journal }) ∷ []) }
{
    let slot = slots.pop();
    slots.destroy_empty();
    let Some(Slot::Home(home)) = slot else {
        unreachable!();
    };
    let Closed { store, journal: _ } = home;
    store
}

// The place of the last entry, after a call that may have one.
fn latest(place: Option<u64>, before: Option<u64>) -> Option<u64>
    ensures { result ≡ place_after place before }
{
    match place {
        Some(place) => Some(place),
        None => before,
    }
}

// The place of an entry, unless there is none.
fn place_unless(missed: bool, place: u64) -> Option<u64>
    ensures { result ≡ cond missed None (Some place) }
{
    if missed { None } else { Some(place) }
}

impl<S: Store> Turnstile<S> {
    // Makes a call from a seat that waits for nothing.
    fn call_at<R: Wait>(
        &self,
        rt: &R,
        alloc: Global,
        seat: &mut Seat<S>,
        lane: u32,
        number: u32,
        call: Call,
    ) -> Made
        requires own { seat.old.table_id ≡ self.now.table.shared.table_id }
        requires rests { Rests seat.old.me }
        requires lane { seat.old.me.0.lane ≡ lane }
        requires spelled { IsSpelledCall call }
        ensures own { (seat.new.table_id ≡ seat.old.table_id) × (seat.new.id ≡ seat.old.id) }
        ensures rests { Rests seat.new.me }
        ensures fits { FitsCall call result.reply }
        ensures spelled { IsSpelledReply result.reply }
        ensures called { CalledInTurn seat.old.me.0 seat.new.me.0 number call result.reply }
        ensures placed { place_in lane (entries_in seat.new.me.0.seen) ≡ place_after result.place (place_in lane (entries_in seat.old.me.0.seen)) }
    {
        let ticket = self.draw(rt, seat);
        let mut home = self.take(rt, seat, ticket);
        let place = home.journal.len();
        let (reply, turn) = make(
            alloc,
            &mut home.store,
            &mut home.journal,
            lane,
            number,
            call,
        );
        self.enter(seat, home, place, turn);
        self.serve(seat);
        let place = place_unless(reply.is_no_memory(), place);
        Made { reply, place }
    }

    // Draws a ticket.
    fn draw<R: Wait>(&self, rt: &R, seat: &mut Seat<S>) -> u64
        requires own { seat.old.table_id ≡ self.now.table.shared.table_id }
        requires rests { Rests seat.old.me }
        ensures own { (seat.new.table_id ≡ seat.old.table_id) × (seat.new.id ≡ seat.old.id) }
        ensures drew { seat.new.me ≡ (with_ticket seat.old.me.0 (Some result), seat.old.me.1) }
    {
        let shared = &self.table.shared;
        for _ in rt.forever() {
            let seen = shared.peek(DRAWN);
            if seen < u64::MAX {
                let found = shared.compare_exchange::<Draw>(seat, DRAWN, seen, seen + 1);
                if found == seen {
                    return seen;
                }
            }
        }
        unreachable!()
    }

    // Waits for the turn of a ticket, and takes the store.
    fn take<R: Wait>(&self, rt: &R, seat: &mut Seat<S>, ticket: u64) -> Closed<S>
        requires own { seat.old.table_id ≡ self.now.table.shared.table_id }
        requires waits { Awaits seat.old.me ticket }
        ensures own { (seat.new.table_id ≡ seat.old.table_id) × (seat.new.id ≡ seat.old.id) }
        ensures took { seat.new.me ≡ (in_turn seat.old.me.0 seat.new.me.0.seen, (0, Out) ∷ []) }
        ensures stands { Stands (TurnDid S.held S.last S.faults S.asked S.notes) self.now.opened.value seat.new.me.0.seen result }
        ensures goes_on { Hears seat.old.me.0.seen (lanes_of seat.old.me.0) seat.new.me.0.seen }
        ensures opened { seat.old.me.0.opening ≡ opening_of S.held S.faults self.now.opened.value }
    {
        for _ in rt.forever() {
            let served = self.look(seat, ticket);
            if served == ticket {
                return self.lift(seat);
            }
            self.table.shared.park(rt, SERVED, (served & LOW) as u32);
        }
        unreachable!()
    }

    // Looks at the ticket served, and takes the store where it is this one.
    fn look(&self, seat: &mut Seat<S>, ticket: u64) -> u64
        requires own { seat.old.table_id ≡ self.now.table.shared.table_id }
        requires waits { Awaits seat.old.me ticket }
        ensures own { (seat.new.table_id ≡ seat.old.table_id) × (seat.new.id ≡ seat.old.id) }
        ensures took { result ≡ ticket → Took S.held S.faults (TurnDid S.held S.last S.faults S.asked S.notes) self.now.opened.value seat.old.me seat.new.me }
        ensures missed { result ≢ ticket → seat.new.me ≡ seat.old.me }
    {
        let opened = Slot::Opened(Told::of(&self.opened));
        let shared = &self.table.shared;
        let served = shared.compare_exchange_with::<Look<S>>(seat, SERVED, ticket, ticket, &opened);
        let Slot::Opened(_) = opened else {
            unreachable!();
        };
        served
    }

    // Takes the store out of the slot.
    fn lift(&self, seat: &mut Seat<S>) -> Closed<S>
        requires own { seat.old.table_id ≡ self.now.table.shared.table_id }
        requires out { (home : _) × (seat.old.me.1 ≡ (0, Home home) ∷ []) }
        ensures own { (seat.new.table_id ≡ seat.old.table_id) × (seat.new.id ≡ seat.old.id) }
        ensures had { seat.old.me.1 ≡ (0, Home result) ∷ [] }
        ensures has { seat.new.me ≡ (seat.old.me.0, (0, Out) ∷ []) }
    {
        let slot = self.table.shared.exchange(seat, 0, Slot::Out);
        let Slot::Home(home) = slot else {
            unreachable!();
        };
        home
    }

    // Puts the store back into the slot.
    fn lower(&self, seat: &mut Seat<S>, home: Closed<S>)
        requires own { seat.old.table_id ≡ self.now.table.shared.table_id }
        requires out { seat.old.me.1 ≡ (0, Out) ∷ [] }
        ensures own { (seat.new.table_id ≡ seat.old.table_id) × (seat.new.id ≡ seat.old.id) }
        ensures has { seat.new.me ≡ (seat.old.me.0, (0, Home home) ∷ []) }
    {
        let slot = self.table.shared.exchange(seat, 0, Slot::Home(home));
        let Slot::Out = slot else {
            unreachable!();
        };
    }

    // Puts the store back into the slot, and posts what was done in the turn. Its entry, if it has
    // one, stands at this place.
    fn enter(&self, seat: &mut Seat<S>, home: Closed<S>, place: u64, turn: Told<Turn>)
        requires own { seat.old.table_id ≡ self.now.table.shared.table_id }
        requires out { seat.old.me.1 ≡ (0, Out) ∷ [] }
        requires turn { seat.old.me.0 ≡ in_turn seat.old.me.0 seat.old.me.0.seen }
        requires lane { turn.value.lane ≡ seat.old.me.0.lane }
        requires place { place ≡ length (entries_in seat.old.me.0.seen) }
        requires grows { home.journal ≡ entries_in (seat.old.me.0.seen ++ turn.value ∷ []) }
        ensures own { (seat.new.table_id ≡ seat.old.table_id) × (seat.new.id ≡ seat.old.id) }
        ensures posted { seat.new.me ≡ (in_turn seat.old.me.0 (seat.old.me.0.seen ++ turn.value ∷ []), (0, Home home) ∷ []) }
    {
        let entries = home.journal.len();
        self.lower(seat, home);
        let done = Slot::Done(turn);
        let shared = &self.table.shared;
        shared.compare_exchange_with::<Post>(seat, ENTRIES, place, entries, &done);
        let Slot::Done(_) = done else {
            unreachable!();
        };
    }

    // Gives the store back, and serves the next ticket.
    fn serve(&self, seat: &mut Seat<S>)
        requires own { seat.old.table_id ≡ self.now.table.shared.table_id }
        requires turn { seat.old.me.0.turn ≡ true }
        requires full { (home : _) × (seat.old.me.1 ≡ (0, Home home) ∷ []) × Stands (TurnDid S.held S.last S.faults S.asked S.notes) self.now.opened.value seat.old.me.0.seen home }
        ensures own { (seat.new.table_id ≡ seat.old.table_id) × (seat.new.id ≡ seat.old.id) }
        ensures served { seat.new.me ≡ (with_ticket seat.old.me.0 None, []) }
    {
        let shared = &self.table.shared;
        let served = shared.fetch_add::<Serve>(seat, SERVED, 1);
        // Who waits has drawn a later ticket. Who draws one after this look finds the word changed.
        let drawn = shared.peek(DRAWN);
        if drawn.saturating_sub(served) > 1 {
            shared.wake_all(SERVED);
        }
    }
}
