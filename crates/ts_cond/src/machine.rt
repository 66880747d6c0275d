//! Reading a condition token by token: what may stand where, and the tree that it spells.
ghost use Rattle.std.specs.Prelude.{◌≡◌, ◌+◌, ◌≤◌, ◌<◌, length, map, IfOk, OnOk};
ghost use Rattle.ts_cond.specs.Machine.{depth_in, start, group_at, gathered, under, closed, stands, fact_ends, opened, left, shut, denied, named, valued, moved, step, within, is_inside};
ghost use Rattle.ts_cond.specs.Tests as tree;
ghost use Rattle.ts_cond.specs.Tokens as tokens;
ghost use Rattle.ts_cond.specs.Tokens.{unquoted, unhexed};
ghost use Rattle.ts_cond.specs.States.{group_of, reading_of, Went, Moves};
ghost use Rattle.ts_cond.specs.Spelled.{kind_of};
ghost use Rattle.ts_cond.specs.Views.{test_of};
ghost use Rattle.ts_cond.specs.declared.machine.Wrong.TheVariants as variants;

use crate::fields::CondFieldList;
use crate::literals::{unhexed, unquoted};
use crate::naming::Naming;
use crate::nodes::{CondNode, CondOp, NodeList};
use crate::tokens::Kind;
use std::alloc::Global;
use std::mem;
use ts_base::{Boxed, Duplicate, Label, OutOfMemory, Row, Sequence, Val};

/// What may come next.
#[derive(Clone, Copy, Debug, PartialEq, Eq)]
pub enum Expect {
    /// A fact: `not`, a parenthesis or a label.
    Fact,
    /// What a test says of its label.
    Verb,
    /// The value of a comparison.
    Operand,
    /// The `in` of `not in`.
    Within,
    /// The parenthesis of a membership.
    Members,
    /// A value of a membership.
    Member,
    /// A comma, or the end of a membership.
    MoreMembers,
    /// The `null` of `is null`.
    Nothing,
    /// What joins facts, or ends them.
    Joint,
}

/// Why a token ends the reading.
#[derive(Clone, Copy, Debug, PartialEq, Eq)]
pub enum Wrong {
    /// It cannot stand there.
    Syntax,
    /// It is one more than 32 parentheses and `not` that are open.
    TooDeep,
    /// It is one more than 1,024 nodes.
    TooLarge,
    /// There is no memory for what it spells.
    OutOfMemory,
}

impl From<OutOfMemory> for Wrong {
    ghost from_gives = { λ _ wrong. wrong ≡ variants.OutOfMemory };

    fn from(_error: OutOfMemory) -> Wrong {
        Wrong::OutOfMemory
    }
}

/// A pair of parentheses that is open, or the whole text.
#[derive(Debug, Drop)]
pub struct Group {
    /// The terms that are whole.
    pub terms: NodeList,
    /// The whole facts of the term that is not.
    pub facts: NodeList,
    /// The `not` before the next fact.
    pub nots: u8,
    /// The parentheses and `not` that are open around.
    pub depth: u8,
}

/// What was read of a condition.
#[derive(Debug, Drop)]
pub struct State {
    /// What may come next.
    pub expects: Expect,
    /// The innermost pair of parentheses.
    pub group: Group,
    /// Those around it, the outermost first.
    pub outer: Sequence<Group>,
    /// The nodes so far.
    pub nodes: u16,
    /// The fields that were named.
    pub naming: Naming,
    /// The field of the test that is not whole.
    pub field: u8,
    /// Its comparison.
    pub op: CondOp,
    /// Whether it is `not in`.
    pub negated: bool,
    /// Its values so far.
    pub vals: Row,
}

fn group_at(alloc: Global, depth: u8) -> Group
    ensures { group_of result ≡ group_at depth }
{
    Group {
        terms: NodeList::new(alloc),
        facts: NodeList::new(alloc),
        nots: 0,
        depth,
    }
}

impl State {
    /// Before the first token.
    pub fn start(alloc: Global, fields: &CondFieldList) -> Result<State, OutOfMemory>
        ensures { IfOk result (λ state. reading_of state ≡ start fields.now) }
    {
        Ok(State {
            expects: Expect::Fact,
            group: group_at(alloc, 0),
            outer: Sequence::new(alloc),
            nodes: 0,
            naming: Naming {
                used: CondFieldList::new(alloc),
                unused: fields.copy(alloc)?,
                clash: None,
            },
            field: 0,
            op: CondOp::Equal,
            negated: false,
            vals: Row::new(alloc),
        })
    }

    /// One token more.
    pub fn step(&mut self, alloc: Global, kind: &Kind) -> Result<(), Wrong>
        requires depth { depth_in (group_of self.old.group) ≤ 32 }
        requires nodes { self.old.nodes ≤ 1024 }
        requires fields { length self.old.naming.used + length self.old.naming.unused ≤ 255 }
        ensures went { Went result (reading_of self.new) (step (kind_of kind.now) (reading_of self.old)) }
        ensures depth { OnOk result (depth_in (group_of self.new.group) ≤ 32) }
        ensures nodes { OnOk result (self.new.nodes ≤ 1024) }
        ensures fields { OnOk result (length self.new.naming.used + length self.new.naming.unused ≤ 255) }
    {
        if can_stand(self.expects, is_inside(self), kind) {
            go_on(self, alloc, kind)
        } else {
            Err(Wrong::Syntax)
        }
    }
}

/// Whether a parenthesis is open.
pub fn is_inside(state: &State) -> bool
    ensures { result ≡ is_inside (reading_of state.now).outer }
{
    state.outer.len() > 0
}

// A token that may stand there: what it does, unless it is too deep or too large.
fn go_on(state: &mut State, alloc: Global, kind: &Kind) -> Result<(), Wrong>
    requires depth { depth_in (group_of state.old.group) ≤ 32 }
    requires nodes { state.old.nodes ≤ 1024 }
    requires fields { length state.old.naming.used + length state.old.naming.unused ≤ 255 }
    ensures went { Went result (reading_of state.new) (within (moved (kind_of kind.now) (reading_of state.old))) }
    ensures depth { OnOk result (depth_in (group_of state.new.group) ≤ 32) }
    ensures nodes { OnOk result (state.new.nodes ≤ 1024) }
    ensures fields { OnOk result (length state.new.naming.used + length state.new.naming.unused ≤ 255) }
{
    advance(state, alloc, kind)?;
    within(state)
}

// Whether what was read is neither too deep nor too large.
fn within(state: &State) -> Result<(), Wrong>
    ensures tests { Went result (reading_of state.now) (within (reading_of state.now)) }
    ensures depth { OnOk result (depth_in (group_of state.now.group) ≤ 32) }
    ensures nodes { OnOk result (state.now.nodes ≤ 1024) }
{
    if state.group.depth as u16 + state.group.nots as u16 > 32 {
        Err(Wrong::TooDeep)
    } else if state.nodes > 1024 {
        Err(Wrong::TooLarge)
    } else {
        Ok(())
    }
}

fn can_stand(expects: Expect, inside: bool, kind: &Kind) -> bool
    ensures { result ≡ stands expects inside (kind_of kind.now) }
{
    match expects {
        Expect::Fact => matches!(kind, Kind::Not | Kind::Open | Kind::Label(_)),
        Expect::Verb => matches!(kind, Kind::Compares(_) | Kind::Not | Kind::In | Kind::Is),
        Expect::Operand | Expect::Member => {
            matches!(kind, Kind::Number(_) | Kind::Text(_) | Kind::Blob(_))
        }
        Expect::Within => matches!(kind, Kind::In),
        Expect::Members => matches!(kind, Kind::Open),
        Expect::MoreMembers => matches!(kind, Kind::Comma | Kind::Close),
        Expect::Nothing => matches!(kind, Kind::Null),
        Expect::Joint => match kind {
            Kind::And | Kind::Or => true,
            Kind::Close => inside,
            _ => false,
        },
    }
}

// What a token that may stand there does.
fn advance(state: &mut State, alloc: Global, kind: &Kind) -> Result<(), OutOfMemory>
    requires depth { depth_in (group_of state.old.group) ≤ 32 }
    requires nodes { state.old.nodes ≤ 1024 }
    requires fields { length state.old.naming.used + length state.old.naming.unused ≤ 255 }
    ensures moves { Moves result (reading_of state.new) (moved (kind_of kind.now) (reading_of state.old)) }
    ensures fields { OnOk result (length state.new.naming.used + length state.new.naming.unused ≡ length state.old.naming.used + length state.old.naming.unused) }
{
    match kind {
        Kind::Open => open_group(state, alloc),
        Kind::Close => shut(state, alloc),
        Kind::Comma => {
            state.expects = Expect::Member;
            Ok(())
        }
        Kind::Not => {
            deny(state);
            Ok(())
        }
        Kind::And => {
            begin_fact(state);
            Ok(())
        }
        Kind::Or => begin_term(state, alloc),
        Kind::In => {
            state.expects = Expect::Members;
            Ok(())
        }
        Kind::Is => {
            state.expects = Expect::Nothing;
            Ok(())
        }
        Kind::Null => end_fact(state, alloc, CondNode::IsNull { field: state.field }),
        Kind::Compares(op) => {
            state.expects = Expect::Operand;
            state.op = *op;
            Ok(())
        }
        Kind::Label(name) => name_field(state, alloc, name),
        Kind::Number(number) => take_value(state, alloc, kind, Val::Int(*number)),
        Kind::Text(raw) => take_value(state, alloc, kind, Val::Bytes(unquoted(alloc, raw)?)),
        Kind::Blob(digits) => take_value(state, alloc, kind, Val::Bytes(unhexed(alloc, digits)?)),
    }
}

fn open_group(state: &mut State, alloc: Global) -> Result<(), OutOfMemory>
    requires depth { depth_in (group_of state.old.group) ≤ 32 }
    ensures moves { Moves result (reading_of state.new) (opened state.old.expects (reading_of state.old)) }
    ensures fields { state.new.naming ≡ state.old.naming }
{
    if !matches!(state.expects, Expect::Fact) {
        state.expects = Expect::Member;
        return Ok(());
    }
    let depth = state.group.depth + state.group.nots + 1;
    let around = mem::replace(&mut state.group, group_at(alloc, depth));
    state.outer.push(around)
}

fn shut(state: &mut State, alloc: Global) -> Result<(), OutOfMemory>
    ensures moves { Moves result (reading_of state.new) (shut state.old.expects (reading_of state.old)) }
    ensures fields { state.new.naming ≡ state.old.naming }
{
    if matches!(state.expects, Expect::MoreMembers) {
        end_member(state, alloc)
    } else {
        leave_group(state, alloc)
    }
}

fn end_member(state: &mut State, alloc: Global) -> Result<(), OutOfMemory>
    ensures moves { Moves result (reading_of state.new) (fact_ends (tree.Member state.old.negated state.old.field state.old.vals) (reading_of state.old)) }
    ensures fields { state.new.naming ≡ state.old.naming }
{
    let node = CondNode::Member {
        negated: state.negated,
        field: state.field,
        vals: state.vals.copy(alloc)?,
    };
    end_fact(state, alloc, node)
}

fn leave_group(state: &mut State, alloc: Global) -> Result<(), OutOfMemory>
    ensures moves { Moves result (reading_of state.new) (left (reading_of state.old).outer (closed (group_of state.old.group)) (reading_of state.old)) }
    ensures fields { state.new.naming ≡ state.old.naming }
{
    match state.outer.pop() {
        Some(around) => {
            let inner = mem::replace(&mut state.group, around);
            let node = closed(inner)?;
            end_fact(state, alloc, node)
        }
        None => Ok(()),
    }
}

fn deny(state: &mut State)
    requires depth { depth_in (group_of state.old.group) ≤ 32 }
    requires nodes { state.old.nodes ≤ 1024 }
    ensures moves { reading_of state.new ≡ denied state.old.expects (reading_of state.old) }
    ensures fields { state.new.naming ≡ state.old.naming }
{
    if matches!(state.expects, Expect::Fact) {
        state.group.nots += 1;
        state.nodes += 1;
    } else {
        state.expects = Expect::Within;
        state.negated = true;
    }
}

// After `and`.
fn begin_fact(state: &mut State)
    requires nodes { state.old.nodes ≤ 1024 }
    ensures moves { reading_of state.new ≡ moved tokens.And (reading_of state.old) }
    ensures fields { state.new.naming ≡ state.old.naming }
{
    if state.group.facts.len() == 1 {
        state.nodes += 1;
    }
    state.expects = Expect::Fact;
}

// After `or`.
fn begin_term(state: &mut State, alloc: Global) -> Result<(), OutOfMemory>
    requires nodes { state.old.nodes ≤ 1024 }
    ensures moves { Moves result (reading_of state.new) (moved tokens.Or (reading_of state.old)) }
    ensures fields { state.new.naming ≡ state.old.naming }
{
    if state.group.terms.is_empty() {
        state.nodes += 1;
    }
    let facts = mem::replace(&mut state.group.facts, NodeList::new(alloc));
    state.group.terms.push(all_of(facts))?;
    state.group.nots = 0;
    state.expects = Expect::Fact;
    Ok(())
}

fn name_field(state: &mut State, alloc: Global, name: &Label) -> Result<(), OutOfMemory>
    requires nodes { state.old.nodes ≤ 1024 }
    requires fields { length state.old.naming.used + length state.old.naming.unused ≤ 255 }
    ensures moves { Moves result (reading_of state.new) (named name.now (reading_of state.old)) }
    ensures fields { OnOk result (length state.new.naming.used + length state.new.naming.unused ≡ length state.old.naming.used + length state.old.naming.unused) }
{
    state.field = state.naming.meet(alloc, name)?;
    state.expects = Expect::Verb;
    state.nodes += 1;
    state.negated = false;
    state.vals = Row::new(alloc);
    Ok(())
}

fn take_value(state: &mut State, alloc: Global, kind: &Kind, val: Val) -> Result<(), OutOfMemory>
    requires nodes { state.old.nodes ≤ 1024 }
    ensures moves { Moves result (reading_of state.new) (valued state.old.expects (kind_of kind.now) val (reading_of state.old)) }
    ensures fields { OnOk result (length state.new.naming.used + length state.new.naming.unused ≡ length state.old.naming.used + length state.old.naming.unused) }
{
    state.naming.judge(state.field, kind);
    if matches!(state.expects, Expect::Operand) {
        let node = CondNode::Compare {
            op: state.op,
            field: state.field,
            val,
        };
        return end_fact(state, alloc, node);
    }
    state.vals.push(val)?;
    state.nodes += 1;
    state.expects = Expect::MoreMembers;
    Ok(())
}

// A fact is whole.
fn end_fact(state: &mut State, alloc: Global, node: CondNode) -> Result<(), OutOfMemory>
    ensures moves { Moves result (reading_of state.new) (fact_ends (test_of node) (reading_of state.old)) }
    ensures fields { state.new.naming ≡ state.old.naming }
{
    let node = under(alloc, state.group.nots, node)?;
    state.group.facts.push(node)?;
    state.group.nots = 0;
    state.expects = Expect::Joint;
    Ok(())
}

// The node under so many `not`.
fn under(alloc: Global, nots: u8, node: CondNode) -> Result<CondNode, OutOfMemory>
    ensures { IfOk result (λ found. test_of found ≡ under nots (test_of node)) }
{
    let mut found = node;
    for _ in 0..nots {
        found = CondNode::Not(Boxed::new(alloc, found)?);
    }
    Ok(found)
}

// The tree of a group whose text is whole.
pub fn closed(group: Group) -> Result<CondNode, OutOfMemory>
    ensures { IfOk result (λ node. test_of node ≡ closed (group_of group)) }
{
    let Group {
        mut terms,
        facts,
        ..
    } = group;
    terms.push(all_of(facts))?;
    Ok(any_of(terms))
}

// One node is itself, more are a list.
fn all_of(nodes: NodeList) -> CondNode
    ensures { test_of result ≡ gathered tree.All (map test_of nodes) }
{
    let mut nodes = nodes;
    if nodes.len() == 1 {
        match nodes.pop() {
            Some(node) => node,
            None => unreachable!(),
        }
    } else {
        CondNode::All(nodes)
    }
}

fn any_of(nodes: NodeList) -> CondNode
    ensures { test_of result ≡ gathered tree.Any (map test_of nodes) }
{
    let mut nodes = nodes;
    if nodes.len() == 1 {
        match nodes.pop() {
            Some(node) => node,
            None => unreachable!(),
        }
    } else {
        CondNode::Any(nodes)
    }
}
