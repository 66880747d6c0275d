//! Fetches in memory of their own.
ghost use Rattle.std.specs.Prelude.{◌≡◌, IfOk};

use std::alloc::Global;
use std::marker::Model;
use ts_base::OutOfMemory;

/// A fetch in memory of its own, so that what holds it stays small. `next` works on it in its place. Contracts
/// see the fetch.
#[derive(Drop)]
pub struct BoxedFetch<F> {
    pub(crate) inner: Box<F>,
}

impl<F> Model for BoxedFetch<F> {
    ghost Value = { F };

    ghost view = { λ boxed. boxed.inner.value };
}

impl<F: Drop> BoxedFetch<F> {
    /// The fetch, put into memory of its own. `OutOfMemory` where there is none.
    pub fn new(alloc: Global, fetch: F) -> Result<BoxedFetch<F>, OutOfMemory>
        ensures { IfOk result (λ boxed. boxed ≡ fetch) }
    {
        Ok(BoxedFetch {
            inner: Box::new(alloc, fetch)?,
        })
    }
}
