//! Reading a condition from its text.
ghost use Rattle.std.specs.Prelude.{◌≡◌, ◌≤◌, ◌+◌, ℕ, length, drop, IfOk, Ok, OnOk};
ghost use Rattle.ts_cond.specs.Causes.{HasCause, IsReadAs, IsBroken, IsOneOfTwo, IsRefusedAt};
ghost use Rattle.ts_cond.specs.CondTexts.{AreFields, IsCond};
ghost use Rattle.ts_cond.specs.Grammar.{Cond as Tree, IsSpelled};
ghost use Rattle.ts_cond.specs.Machine.{start, depth_in, step, after, at_token, front_step, may_end, reads, settled, parsed};
ghost use Rattle.ts_cond.specs.Spelled.{kind_of, some_kind};
ghost use Rattle.ts_cond.specs.States.{group_of, reading_of, Comes, Ends, Parses};
ghost use Rattle.ts_cond.specs.Tokens.{scan, tokens_of};

use crate::cond::Cond;
use crate::faults::CondFault;
use crate::fields::CondFieldList;
use crate::machine::{Expect, State, Wrong, closed, is_inside};
use crate::naming::Naming;
use crate::tokens::{Front, Kind, front_of};
use std::alloc::Global;

impl Cond {
    /// The condition that a text spells over these fields, the dimensions and the attributes of an
    /// array.
    ///
    /// Each fault comes exactly where it is said: see [`CondFault`]. The condition records the
    /// fields that it names, in the order of their first names.
    ///
    /// `parses` tells the answer by the automaton that reads the tokens. `cause`, `spelled` and
    /// `broken` tell it by the grammar: why each answer comes; and the other way round what is
    /// answered to a text that spells a tree, and to one that is broken at an offset. `either` says
    /// that each text is one of the two. `object` says that the condition has an object, where the
    /// fields are those of an array.
    pub fn parse(alloc: Global, text: &[u8], fields: &CondFieldList) -> Result<Cond, CondFault>
        requires { length fields.now ≤ 255 }
        ensures parses { Parses result (parsed text.now fields.now) }
        ensures cause { HasCause result text.now fields.now }
        ensures spelled { (tree : Tree) → IsSpelled text.now tree → IsReadAs result fields.now tree }
        ensures broken { (at : ℕ) → IsBroken (tokens_of text.now) at → IsRefusedAt result at }
        ensures either { IsOneOfTwo text.now }
        ensures object { AreFields fields.now → IfOk result IsCond }
    {
        read_text(alloc, text, fields)
    }
}

fn read_text(alloc: Global, text: &[u8], fields: &CondFieldList) -> Result<Cond, CondFault>
    requires { length fields.now ≤ 255 }
    ensures { Parses result (parsed text.now fields.now) }
{
    let Ok(start) = State::start(alloc, fields) else {
        return Err(CondFault::OutOfMemory);
    };
    let state = read_tokens(alloc, text, start)?;
    settle(state)
}

fn read_tokens(alloc: Global, text: &[u8], start: State) -> Result<State, CondFault>
    requires depth { depth_in (group_of start.group) ≤ 32 }
    requires nodes { start.nodes ≤ 1024 }
    requires fields { length start.naming.used + length start.naming.unused ≤ 255 }
    ensures { Ends result (reads (reading_of start) (scan 0 0 text.now)) }
{
    let mut state = start;
    let mut rest = text;
    let mut at = 0u64;
    while !rest.is_empty() {
        match front_of(rest) {
            None => return Err(CondFault::Syntax { at }),
            Some(front) => {
                match step_front(&mut state, alloc, &front, at) {
                    Err(fault) => return Err(fault),
                    Ok(()) => {}
                }
                rest = behind(rest, front.len);
                at += front.len as u64;
            }
        }
    }
    if may_end(&state) {
        Ok(state)
    } else {
        Err(CondFault::Syntax { at })
    }
}

// One token more, which has this offset.
fn step_at(state: &mut State, alloc: Global, kind: &Kind, at: u64) -> Result<(), CondFault>
    requires depth { depth_in (group_of state.old.group) ≤ 32 }
    requires nodes { state.old.nodes ≤ 1024 }
    requires fields { length state.old.naming.used + length state.old.naming.unused ≤ 255 }
    ensures went { Comes result (reading_of state.new) (after (step (kind_of kind.now) (reading_of state.old)) at Ok) }
    ensures depth { OnOk result (depth_in (group_of state.new.group) ≤ 32) }
    ensures nodes { OnOk result (state.new.nodes ≤ 1024) }
    ensures fields { OnOk result (length state.new.naming.used + length state.new.naming.unused ≤ 255) }
{
    match state.step(alloc, kind) {
        Ok(()) => Ok(()),
        Err(wrong) => Err(at_token(wrong, at)),
    }
}

fn at_token(wrong: Wrong, at: u64) -> CondFault
    ensures { result ≡ at_token at wrong }
{
    match wrong {
        Wrong::Syntax => CondFault::Syntax { at },
        Wrong::TooDeep => CondFault::TooDeep,
        Wrong::TooLarge => CondFault::TooLarge,
        Wrong::OutOfMemory => CondFault::OutOfMemory,
    }
}

// What stands at the front, if it is a token.
fn step_front(state: &mut State, alloc: Global, front: &Front, at: u64) -> Result<(), CondFault>
    requires depth { depth_in (group_of state.old.group) ≤ 32 }
    requires nodes { state.old.nodes ≤ 1024 }
    requires fields { length state.old.naming.used + length state.old.naming.unused ≤ 255 }
    ensures went { Comes result (reading_of state.new) (front_step (some_kind front.now.kind) at (reading_of state.old)) }
    ensures depth { OnOk result (depth_in (group_of state.new.group) ≤ 32) }
    ensures nodes { OnOk result (state.new.nodes ≤ 1024) }
    ensures fields { OnOk result (length state.new.naming.used + length state.new.naming.unused ≤ 255) }
{
    match &front.kind {
        Some(kind) => step_at(state, alloc, kind, at),
        None => Ok(()),
    }
}

// The bytes behind the first ones.
fn behind(bytes: &[u8], count: usize) -> &[u8]
    requires { count ≤ length bytes.now }
    ensures { result.now ≡ drop count bytes.now }
{
    bytes.split_at(count).1
}

fn may_end(state: &State) -> bool
    ensures { result ≡ may_end state.now.expects (reading_of state.now).outer }
{
    matches!(state.expects, Expect::Joint) && !is_inside(state)
}

// The condition that was read, unless its tests clash with the fields.
fn settle(state: State) -> Result<Cond, CondFault>
    ensures { Parses result (settled (Ok (reading_of state))) }
{
    let State { group, naming, .. } = state;
    let Naming { used, clash, .. } = naming;
    match clash {
        Some(fault) => Err(fault),
        None => match closed(group) {
            Ok(root) => Ok(Cond { fields: used, root }),
            Err(_) => Err(CondFault::OutOfMemory),
        },
    }
}
