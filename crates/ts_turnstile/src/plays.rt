//! What each step on the table tells.
ghost use Rattle.ts_turnstile.specs.Chains.{TurnDid};
ghost use Rattle.ts_turnstile.specs.Views.{left_of, right_of, joined_view, spent_view};
ghost use Rattle.ts_turnstile.specs.Plays.{drew, looked, posted, served, named, heard};

use crate::slot::Slot;
use crate::view::View;
use atomic_table::{Join, Play, Split};
use std::marker::PhantomData;
use ts_store::Store;

// A ticket is drawn.
pub(crate) struct Draw;

impl<S> Play<Slot<S>, View> for Draw {
    ghost then = { drew };
}

// The ticket served is looked at, and where it is one's own the store is taken.
pub(crate) struct Look<S: Store> {
    store: PhantomData<S>,
}

impl<S: Store> Play<Slot<S>, View> for Look<S> {
    ghost then = { looked S.held S.faults (TurnDid S.held S.last S.faults S.asked S.notes) };
}

// What was done in the turn is posted.
pub(crate) struct Post;

impl<S> Play<Slot<S>, View> for Post {
    ghost then = { posted };
}

// The store is given back, and the next ticket served.
pub(crate) struct Serve;

impl<S> Play<Slot<S>, View> for Serve {
    ghost then = { served };
}

// A lane is named that is to be split off.
pub(crate) struct Naming;

impl<S> Play<Slot<S>, View> for Naming {
    ghost then = { named };
}

// After a join: what was seen goes on from what each of the two had seen.
pub(crate) struct Hear;

impl<S> Play<Slot<S>, View> for Hear {
    ghost then = { heard };
}

// The named lane is split off.
pub(crate) struct Fork;

impl Split<View> for Fork {
    ghost left = { left_of };

    ghost right = { right_of };
}

// One pass takes in another.
pub(crate) struct Merge;

impl Join<View> for Merge {
    ghost both = { joined_view };

    ghost spent = { spent_view };
}
