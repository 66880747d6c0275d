//! Values that only clauses read.
ghost use Rattle.std.specs.Prelude.{◌≡◌};
ghost use Rattle.std.specs.Borrow.{ftrue};

use std::marker::{Model, PhantomData};

/// A value as clauses see it. It has no bytes, and any thread may have it.
pub struct Told<T> {
    marker: PhantomData<T>,
    pub ghost value: { T },
}

impl<T> Model for Told<T> {
    ghost also_owns = { λ _. ftrue };
}

impl<T> Told<T> {
    /// What clauses see of this value now.
    pub fn of(x: &T) -> Told<T>
        ensures { result.value ≡ x.now }
    {
        let _ = x;
        Told {
            marker: PhantomData,
        }
    }
}

unsafe impl<T> Send for Told<T> {}

unsafe impl<T> Sync for Told<T> {}

impl<T> Drop for Told<T> {
    fn drop(self) {
        let Self { marker: _ } = self;
    }
}
