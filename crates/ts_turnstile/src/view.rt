//! What a pass knows. No value of these types is made: contracts and proofs alone see them.
ghost use Rattle.std.specs.Prelude.{ℕ, Bool, List, Option};
ghost use Rattle.std.specs.Coded.{coded_option};
ghost use Rattle.std.specs.Borrow.{ftrue};
ghost use Rattle.ts_base.specs.Held.{Held, held_code};
ghost use Rattle.ts_turnstile.specs.declared.turn.Turn.{Turn};

use std::marker::Model;

/// What the store was when the turnstile was made: what it held, where it tells that, and how often
/// it had failed.
pub struct Opening {
    pub ghost held: { Option Held } by { coded_option held_code },
    pub ghost faults: { ℕ },
}

impl Model for Opening {
    ghost also_owns = { λ _. ftrue };
}

/// What a pass knows of the turnstile.
pub struct View {
    /// What the store was when the turnstile was made.
    pub opening: Opening,
    /// The lane whose calls the pass makes.
    pub ghost lane: { ℕ },
    /// The ticket that it has drawn.
    pub ghost ticket: { Option ℕ },
    /// Its turn has come: the store is with it.
    pub ghost turn: { Bool },
    /// The turns that it has seen, of all lanes: those from the first on.
    pub ghost seen: { List Turn },
    /// It is the first pass, which splits the others off.
    pub ghost first: { Bool },
    /// The lanes that were split off it, the last one first.
    pub ghost split_off: { List ℕ },
    /// The lanes that were joined into it.
    pub ghost joined: { List ℕ },
    /// It was joined into another pass, and is gone.
    pub ghost spent: { Bool },
    /// The lane that is to be split off next.
    pub ghost next: { ℕ },
    /// What the two passes that were joined last had seen, and whose calls were their own.
    pub ghost left: { List Turn },
    pub ghost left_lanes: { List ℕ },
    pub ghost right: { List Turn },
    pub ghost right_lanes: { List ℕ },
}

impl Model for View {
    ghost also_owns = { λ _. ftrue };
}
