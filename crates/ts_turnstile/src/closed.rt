//! A store with the journal of its calls.
use ts_store::Journal;

/// A store and the journal of the calls that were made of it through a turnstile.
pub struct Closed<S> {
    /// The store, after all calls.
    pub store: S,
    /// The calls that were made, of all lanes, in the order in which they were made.
    pub journal: Journal,
}
