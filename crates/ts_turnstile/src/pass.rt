//! Passes: the right to make the calls of a lane.
ghost use Rattle.std.specs.Prelude.{◌≡◌, false, [], ◌∷◌, None};
ghost use Rattle.ts_turnstile.specs.Views.{view_in};
ghost use Rattle.ts_turnstile.specs.Turns.{entries_in};
ghost use Rattle.ts_turnstile.specs.Places.{place_in};

use crate::view::View;
use atomic_table::Badge;

/// The right to make the calls of a lane, and what was seen of the journal.
///
/// A pass that is dropped keeps its lane out, so that the turnstile can't be closed any more.
#[derive(Drop)]
pub struct Pass {
    pub(crate) lane: u32,
    pub(crate) number: u32,
    pub(crate) place: Option<u64>,
    pub(crate) badge: Badge<View>,
    ghost one: { badge.views ≡ view_in badge.views ∷ [] },
    ghost idle: { ((view_in badge.views).ticket ≡ None) × ((view_in badge.views).turn ≡ false) × ((view_in badge.views).spent ≡ false) × ((view_in badge.views).lane ≡ lane) },
    ghost at: { place ≡ place_in lane (entries_in (view_in badge.views).seen) },
}

impl Pass {
    ghost use Rattle.ts_turnstile.specs.Passes.{pass_view};

    /// The lane whose calls the pass makes.
    pub fn lane(&self) -> u32
        ensures { result ≡ (pass_view self.now).lane }
    {
        self.lane
    }

    /// The place of its last entry in the journal, counted from 0. None exactly where its lane has
    /// no entry.
    pub fn place(&self) -> Option<u64>
        ensures { result ≡ place_in (pass_view self.now).lane (entries_in (pass_view self.now).seen) }
    {
        self.place
    }

    /// Takes a number for the calls from now on: that of the command whose calls they are. A new
    /// pass has number 0.
    pub fn go_to(&mut self, number: u32)
        ensures view { pass_view self.new ≡ pass_view self.old }
        ensures number { self.new.number ≡ number }
        ensures same { self.new.badge.table_id ≡ self.old.badge.table_id }
    {
        self.number = number;
    }
}
