//! What lies in the slot of the table, and what its steps are told.
use crate::closed::Closed;
use crate::told::Told;
use crate::turn::Turn;

/// What the slot has, or what a step is told for its proof alone.
pub enum Slot<S> {
    /// The store with its journal.
    Home(Closed<S>),
    /// Nothing: a turn has the store.
    Out,
    /// A step is told which store was handed in.
    Opened(Told<Told<S>>),
    /// A step is told what was done in the turn.
    Done(Told<Turn>),
}
