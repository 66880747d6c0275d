//! The turnstile itself.
ghost use Rattle.std.specs.Prelude.{◌≡◌};

use crate::rule::Turns;
use crate::slot::Slot;
use crate::told::Told;
use crate::view::View;
use atomic_table::Table;
use std::alloc::Global;
use ts_store::Store;

/// A store that several lanes make calls of, each through a pass of its own.
///
/// Each call is made while no other is, and entered in one journal. Whoever has a pass waits for its
/// turn; a thread that ends inside a call lets the others wait for ever.
pub struct Turnstile<S: Store> {
    pub(crate) table: Table<Slot<S>, View, Told<S>, Turns<S>, Global>,
    pub(crate) opened: Told<S>,
    ghost sized: { (table.shared.table_id.words ≡ 3) × (table.shared.table_id.slots ≡ 1) },
    ghost same: { opened ≡ table.shared.key },
}
