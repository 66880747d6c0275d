//! Passes for more lanes: splitting one off, joining it again, and closing the turnstile.
ghost use Rattle.std.specs.Prelude.{◌≡◌, true, false, [], ◌∷◌, IfOk, IsOk};
ghost use Rattle.ts_store.specs.Journals.{calls_by};
ghost use Rattle.ts_turnstile.specs.Turns.{entries_in, turns_by};
ghost use Rattle.ts_turnstile.specs.Chains.{TurnDid, LeadTo};
ghost use Rattle.ts_turnstile.specs.Lanes.{has, Hears};
ghost use Rattle.ts_turnstile.specs.Views.{lanes_of, naming, left_of, right_of, joined_view};
ghost use Rattle.ts_turnstile.specs.Rule.{Replays};
ghost use Rattle.ts_turnstile.specs.Passes.{pass_view};
ghost use Rattle.ts_turnstile.specs.Belonging.{Belongs, Rests};

use crate::closed::Closed;
use crate::pass::Pass;
use crate::plays::{Fork, Hear, Merge, Naming};
use crate::rule::{ENTRIES, Seat};
use crate::slot::Slot;
use crate::turnstile::Turnstile;
use atomic_table::Badge;
use std::alloc::Global;
use std::mem;
use ts_base::OutOfMemory;
use ts_store::Store;

impl<S: Store> Turnstile<S> {
    /// Splits a pass for another lane off the first one. The new pass has seen what the old one has.
    ///
    /// It takes no memory: the answer is always Ok.
    pub fn split(&self, _alloc: Global, pass: &mut Pass, lane: u32) -> Result<Pass, OutOfMemory>
        requires own { Belongs self.now pass.old }
        requires first { (pass_view pass.old).first ≡ true }
        requires lane { has lane (0 ∷ (pass_view pass.old).split_off) ≡ false }
        ensures ok { IsOk result }
        ensures own { Belongs self.now pass.new × IfOk result (Belongs self.now) }
        ensures kept { pass_view pass.new ≡ left_of (naming (pass_view pass.old) lane) }
        ensures given { IfOk result (λ other. pass_view other ≡ right_of (naming (pass_view pass.old) lane)) }
        ensures none { turns_by lane (pass_view pass.old).seen ≡ [] }
    {
        let badge = mem::replace(&mut pass.badge, Badge::blank());
        let mut seat = badge.into_seat();
        let other = self.split_at(&mut seat, lane);
        pass.badge = seat.into_badge();
        Ok(Pass {
            lane,
            number: 0,
            place: None,
            badge: other.into_badge(),
        })
    }

    /// Joins a pass into another, which then has seen what either had. The other's lane, and the
    /// lanes that were joined into it, are joined into this one, each with its calls.
    pub fn join(&self, pass: &mut Pass, other: Pass)
        requires own { Belongs self.now pass.old × Belongs self.now other }
        ensures own { Belongs self.now pass.new }
        ensures joined { pass_view pass.new ≡ joined_view (pass_view pass.old) (pass_view other) }
        ensures seen { Hears (pass_view pass.old).seen (lanes_of (pass_view pass.old)) (pass_view pass.new).seen }
        ensures heard { Hears (pass_view other).seen (lanes_of (pass_view other)) (pass_view pass.new).seen }
    {
        let badge = mem::replace(&mut pass.badge, Badge::blank());
        let mut seat = badge.into_seat();
        let Pass {
            lane: _,
            number: _,
            place: _,
            badge: theirs,
        } = other;
        self.join_at(&mut seat, theirs.into_seat());
        pass.badge = seat.into_badge();
    }

    /// Closes the turnstile with its first pass, once each lane that was split off has been joined
    /// into it, and gives the store with the journal. It takes no memory.
    pub fn close(self, pass: Pass) -> Closed<S>
        requires own { Belongs self pass }
        requires first { (pass_view pass).first ≡ true }
        requires joined { (lane : _) → has lane (0 ∷ (pass_view pass).split_off) ≡ true → has lane (lanes_of (pass_view pass)) ≡ true }
        ensures replays { Replays S.held S.faults (pass_view pass).opening (entries_in (pass_view pass).seen) result }
        ensures leads { LeadTo (TurnDid S.held S.last S.faults S.asked S.notes) self.opened.value (pass_view pass).seen result.store }
        ensures others { (lane : _) → has lane (lanes_of (pass_view pass)) ≡ false → turns_by lane (pass_view pass).seen ≡ [] }
        ensures strangers { (lane : _) → has lane (lanes_of (pass_view pass)) ≡ false → calls_by lane result.journal ≡ [] }
    {
        let Pass {
            lane: _,
            number: _,
            place: _,
            badge,
        } = pass;
        let Turnstile { table, opened: _ } = self;
        let mut closed = table.close_with(badge.into_seat());
        let slot = closed.take(0);
        closed.free();
        let Slot::Home(home) = slot else {
            unreachable!();
        };
        home
    }

    // Names a lane and splits it off.
    fn split_at(&self, seat: &mut Seat<S>, lane: u32) -> Seat<S>
        requires own { seat.old.table_id ≡ self.now.table.shared.table_id }
        requires rests { Rests seat.old.me }
        requires first { seat.old.me.0.first ≡ true }
        requires lane { has lane (0 ∷ seat.old.me.0.split_off) ≡ false }
        ensures own { (seat.new.table_id ≡ seat.old.table_id) × (seat.new.id ≡ seat.old.id) × (result.table_id ≡ seat.old.table_id) }
        ensures kept { seat.new.me ≡ (left_of (naming seat.old.me.0 lane), []) }
        ensures given { result.me ≡ (right_of (naming seat.old.me.0 lane), []) }
        ensures none { turns_by lane seat.old.me.0.seen ≡ [] }
    {
        let shared = &self.table.shared;
        let lane = u64::from(lane);
        shared.compare_exchange::<Naming>(seat, ENTRIES, lane, lane);
        shared.split_seat::<Fork>(seat)
    }

    // Joins a seat into another, and learns what that seat has seen.
    fn join_at(&self, seat: &mut Seat<S>, other: Seat<S>)
        requires own { (seat.old.table_id ≡ self.now.table.shared.table_id) × (other.table_id ≡ self.now.table.shared.table_id) }
        requires rests { Rests seat.old.me × Rests other.me }
        ensures own { (seat.new.table_id ≡ seat.old.table_id) × (seat.new.id ≡ seat.old.id) }
        ensures joined { seat.new.me ≡ (joined_view seat.old.me.0 other.me.0, []) }
        ensures seen { Hears seat.old.me.0.seen (lanes_of seat.old.me.0) seat.new.me.0.seen }
        ensures heard { Hears other.me.0.seen (lanes_of other.me.0) seat.new.me.0.seen }
    {
        let shared = &self.table.shared;
        shared.join_seat::<Merge>(seat, other);
        shared.load::<Hear>(seat, ENTRIES);
    }
}
