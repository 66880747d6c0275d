//! The rule of the table that passes share.
ghost use Rattle.ts_turnstile.specs.Chains.{TurnDid};
ghost use Rattle.ts_turnstile.specs.Rule.{Orderly};
ghost use Rattle.ts_turnstile.specs.Views.{opening_of, first_view};

use crate::slot::Slot;
use crate::told::Told;
use crate::view::View;
use atomic_table::TableRule;
use std::marker::PhantomData;
use ts_store::Store;

// The words of the table: how many entries the journal has, how many tickets were drawn, and which
// one is served.
pub(crate) const ENTRIES: usize = 0;

pub(crate) const DRAWN: usize = 1;

pub(crate) const SERVED: usize = 2;

pub struct Turns<S: Store> {
    store: PhantomData<S>,
}

impl<S: Store> TableRule<Slot<S>, View, Told<S>> for Turns<S> {
    ghost holds = { λ start. Orderly S.held S.faults (TurnDid S.held S.last S.faults S.asked S.notes) start.value };

    ghost first = { λ start. first_view (opening_of S.held S.faults start.value) };
}

pub(crate) type Seat<S> = atomic_table::Seat<Slot<S>, View>;
