//! Worlds of two consolidators: what readers find beside them and after them, and after vacuums.

ghost use Rattle.std.specs.Prelude.{◌≡◌, ◌<◌, ◌≤◌, ◌+◌, false, [], ◌∷◌, pos, IfOk, IsTrue, length};
ghost use Rattle.ts_base.specs.declared.values.Val.TheVariants.{Int};
ghost use Rattle.ts_domain.specs.Domains.{is_in_domain};
ghost use Rattle.ts_schema.specs.FrameTexts.{IsFrame};
ghost use Rattle.ts_schema.specs.SchemaTexts.{AreAttrs};
ghost use Rattle.ts_model.specs.declared.deeds.Deed.TheVariants.{Wrote};
ghost use Rattle.ts_model.specs.Deeds.{IsHistory, RowFits};
ghost use Rattle.ts_world.specs.Clauses.{BeganEmpty};

use super::{
    attr, create, dim, everything, finish, first_world, has_read, label, read, spawn, vacuum, write,
};
use std::alloc::Global;
use std::test::Fail;
use std::thread::Threads;
use ts_actor::PlainPieces;
use ts_base::{
    Cell, CellList, CommitKind, Coords, FragKey, Key, LeaseMode, Name, OutOfMemory, Prefix, Row,
    Val, ValType,
};
use ts_commit::Limits;
use ts_domain::{Domain, Order};
use ts_model::{Command, Deed, History, Outcome, Refusal, Written, reference};
use ts_schema::{Attr, AttrList, Frame, Schema};
use ts_store::{Call, Entry, Fate};
use ts_world::{Event, World, WorldFault};

// ---- worlds

// Adds a consolidator of the fragments that are stamped up to 3.
pub(super) fn consolidate<R: Threads + Sync>(
    rt: &R,
    alloc: Global,
    world: &mut World<PlainPieces>,
    id: u128,
) -> Result<(), WorldFault>
    requires began { BeganEmpty world.old }
    requires few { length world.old.jobs < 12 }
    ensures began { BeganEmpty world.new }
    ensures few { length world.new.jobs ≤ length world.old.jobs + 1 }
{
    let command = Command::Consolidate {
        from: 0,
        to: 3,
        limits: Limits { min: 2, max: 64 },
    };
    spawn(rt, alloc, world, command, 3, id)
}

// A world with its array, made by the actor 0, and writes of 1 at 1 and of 2 at 2 by the actors 1 and
// 2, stamped so. Each actor has its number and 1 as its identifier.
pub(super) fn written_twice<R: Threads + Sync>(
    rt: &R,
    alloc: Global,
) -> Result<World<PlainPieces>, Fail>
    ensures began { IfOk result (λ world. BeganEmpty world) }
    ensures few { IfOk result (λ world. length world.jobs ≤ 3) }
{
    let mut world = first_world(alloc);
    spawn(rt, alloc, &mut world, create(alloc)?, 0, 1)?;
    spawn(rt, alloc, &mut world, write(alloc, 1, 1)?, 1, 2)?;
    spawn(rt, alloc, &mut world, write(alloc, 2, 2)?, 2, 3)?;
    Ok(world)
}

// Such a world with two consolidators, the actors 3 and 4.
fn merged_twice<R: Threads + Sync>(rt: &R, alloc: Global) -> Result<World<PlainPieces>, Fail>
    ensures began { IfOk result (λ world. BeganEmpty world) }
    ensures few { IfOk result (λ world. length world.jobs ≤ 5) }
{
    let mut world = written_twice(rt, alloc)?;
    consolidate(rt, alloc, &mut world, 4)?;
    consolidate(rt, alloc, &mut world, 5)?;
    Ok(world)
}

// Lets the two consolidators make calls in turn.
fn take_turns<R: Threads + Sync>(
    rt: &R,
    alloc: Global,
    world: &mut World<PlainPieces>,
) -> Result<(), WorldFault> {
    for _ in 0..99_u64 {
        for actor in [3, 4] {
            if world.answer_of(actor).is_none() {
                world.step(rt, alloc, Event::Step(actor, Fate::Done))?;
            }
        }
    }
    Ok(())
}

#[test]
fn what_two_consolidations_merged_shows_once(rt: HostRuntime) -> Result<(), Fail> {
    let alloc = rt.alloc();
    let mut world = merged_twice(&rt, alloc)?;
    read(&rt, alloc, &mut world, 6)?;
    vacuum(&rt, alloc, &mut world, 7)?;
    read(&rt, alloc, &mut world, 8)?;
    for actor in 0..3 {
        finish(&rt, alloc, &mut world, actor)?;
    }
    take_turns(&rt, alloc, &mut world)?;
    for actor in 5..8 {
        finish(&rt, alloc, &mut world, actor)?;
    }
    for (actor, id) in [(3, 4), (4, 5)] {
        let merged = FragKey {
            t1: 1,
            t2: 2,
            id,
            v: 1,
        };
        assert_eq!(rt;
            world.answer_of(actor),
            Some(&Outcome::Consolidated(merged, 2))
        );
    }
    assert_eq!(rt; world.answer_of(6), Some(&Outcome::Vacuumed(2)));
    // The reader before the vacuum, and the one after it.
    for reader in [5, 7] {
        assert!(rt; has_read(alloc, &world, reader, &[[1, 1], [2, 2]])?);
    }
    Ok(())
}

// ---- random schedules

/// How many schedules are tried.
const SCHEDULES: u64 = 1000;

/// The number of the reader that runs beside the others.
const BESIDE: u32 = 7;

/// The number of the reader that runs after the others.
const AFTER: u32 = 8;

/// The numbers of the vacuums.
const VACUUMS: [u32; 2] = [9, 10];

/// The identifier of the first consolidator.
const MERGED: u128 = 5;

/// The identifier of the write that runs beside the others.
const FURTHER: u128 = 7;

// Numbers that look random: a linear congruential generator.
#[derive(Drop)]
struct Dice {
    state: u64,
}

impl Dice {
    // A number below this one.
    fn roll(&mut self, sides: u64) -> u64
        requires { 0 < sides }
        ensures { result < sides }
    {
        self.state = self
            .state
            .wrapping_mul(6_364_136_223_846_793_005)
            .wrapping_add(1_442_695_040_888_963_407);
        (self.state >> 33) % sides
    }
}

// A world as above with a third write, of 2 at 1 stamped 3, and two consolidators.
fn three_merged<R: Threads + Sync>(rt: &R, alloc: Global) -> Result<World<PlainPieces>, Fail>
    ensures began { IfOk result (λ world. BeganEmpty world) }
    ensures few { IfOk result (λ world. length world.jobs ≤ 6) }
{
    let mut world = written_twice(rt, alloc)?;
    spawn(rt, alloc, &mut world, write(alloc, 1, 2)?, 3, 4)?;
    consolidate(rt, alloc, &mut world, MERGED)?;
    consolidate(rt, alloc, &mut world, 6)?;
    Ok(world)
}

// Such a world with a further write, of 1 at 3 stamped 3, two readers and two vacuums. No actor has
// made a call.
fn crowd<R: Threads + Sync>(rt: &R, alloc: Global) -> Result<World<PlainPieces>, Fail> {
    let mut world = three_merged(rt, alloc)?;
    spawn(rt, alloc, &mut world, write(alloc, 3, 1)?, 3, FURTHER)?;
    read(rt, alloc, &mut world, 8)?;
    read(rt, alloc, &mut world, 9)?;
    vacuum(rt, alloc, &mut world, 10)?;
    vacuum(rt, alloc, &mut world, 11)?;
    Ok(world)
}

// Lets the actor make its next call, which fails at times, and at times is its last.
fn some_call<R: Threads + Sync>(
    rt: &R,
    alloc: Global,
    world: &mut World<PlainPieces>,
    dice: &mut Dice,
    actor: u32,
) -> Result<(), WorldFault> {
    match dice.roll(200) {
        0 => world.step(rt, alloc, Event::Step(actor, Fate::FailedDone)),
        1 => world.step(rt, alloc, Event::Step(actor, Fate::FailedSkipped)),
        2 => world.step(rt, alloc, Event::Stop(actor, Fate::Done)),
        3 => world.step(rt, alloc, Event::Stop(actor, Fate::FailedSkipped)),
        _ => world.step(rt, alloc, Event::Step(actor, Fate::Done)),
    }
}

// Breaks each lease that is held, but for those of running actors.
fn break_leases<R: Threads + Sync>(
    rt: &R,
    alloc: Global,
    world: &mut World<PlainPieces>,
) -> Result<(), Fail> {
    let names = world.store().names(alloc)?;
    for name in names.as_slice() {
        if let Name::Lease(key, mode) = name {
            match world.step(rt, alloc, Event::Break(Name::Lease(*key, *mode))) {
                Ok(()) | Err(WorldFault::LeaseLive(_)) => {}
                Err(_) => return Err(Fail::from("a broken lease")),
            }
        }
    }
    Ok(())
}

// Lets something else happen at times: leases of dropped actors are broken, and now and then all
// running actors are dropped.
fn disturb<R: Threads + Sync>(
    rt: &R,
    alloc: Global,
    world: &mut World<PlainPieces>,
    dice: &mut Dice,
) -> Result<(), Fail> {
    match dice.roll(2000) {
        0 => Ok(world.step(rt, alloc, Event::Restart)?),
        chance if chance < 100 => break_leases(rt, alloc, world),
        _ => Ok(()),
    }
}

// Lets actors make so many calls, in a random order and with random fates, or fewer where none runs
// any more. In some schedules one actor makes many calls before another has its turn.
fn shuffle<R: Threads + Sync>(
    rt: &R,
    alloc: Global,
    world: &mut World<PlainPieces>,
    dice: &mut Dice,
    actors: &[u32],
    calls: u64,
) -> Result<(), Fail> {
    let mut running = Vec::from_slice(alloc, actors)?;
    let patience = dice.roll(32) + 1;
    let mut turn = dice.roll(12) as usize;
    for _ in 0..calls {
        let count = running.len();
        if count == 0 {
            return Ok(());
        }
        if dice.roll(patience) == 0 {
            turn = dice.roll(count as u64) as usize;
        }
        disturb(rt, alloc, world, dice)?;
        let place = turn % count;
        match some_call(rt, alloc, world, dice, running[place]) {
            Ok(()) => {}
            Err(WorldFault::NoActor(_)) => {
                running.swap_remove(place);
            }
            Err(_) => return Err(Fail::from("an event")),
        }
    }
    Ok(())
}

// Lets the last reader make its calls, with no fault. It answers, unless a restart dropped it.
fn read_last<R: Threads + Sync>(
    rt: &R,
    alloc: Global,
    world: &mut World<PlainPieces>,
) -> Result<(), Fail> {
    match finish(rt, alloc, world, AFTER) {
        Ok(()) => {
            if has_answered(world, AFTER) {
                Ok(())
            } else {
                Err(Fail::from("no answer of the last reader"))
            }
        }
        Err(WorldFault::NoActor(_)) => Ok(()),
        Err(_) => Err(Fail::from("an event")),
    }
}

// A random schedule: first the create and the writes, with no fault; then the consolidators and the
// further write, from some time on a reader too, and later the vacuums; last a read, once no lease is
// left.
fn play<R: Threads + Sync>(rt: &R, alloc: Global, seed: u64) -> Result<World<PlainPieces>, Fail> {
    let mut dice = Dice { state: seed };
    let mut world = crowd(rt, alloc)?;
    for actor in 0..4 {
        finish(rt, alloc, &mut world, actor)?;
    }
    let alone = dice.roll(60);
    shuffle(rt, alloc, &mut world, &mut dice, &[4, 5, 6], alone)?;
    let beside = dice.roll(60);
    shuffle(rt, alloc, &mut world, &mut dice, &[4, 5, 6, BESIDE], beside)?;
    shuffle(
        rt,
        alloc,
        &mut world,
        &mut dice,
        &[4, 5, 6, BESIDE, 9, 10],
        9_999,
    )?;
    break_leases(rt, alloc, &mut world)?;
    read_last(rt, alloc, &mut world)?;
    Ok(world)
}

// ---- what readers must find

/// The histories that a reader can see: without the further write, and with it.
#[derive(Drop)]
struct Histories {
    without: History,
    with: History,
}

// The frame of the array of these worlds.
fn frame(alloc: Global) -> Result<Frame, Fail>
    ensures { IfOk result IsFrame }
{
    let made = Frame {
        dense: false,
        domain: Domain::new(&[dim(label("x")?)])?,
        cell: Order::Row,
        tile: Order::Row,
        capacity: 4,
    };
    Ok(Frame::decode(made.encode(alloc)?.as_slice())?)
}

/// The key of the create.
const FIRST: Key = Key { t: 0, id: 1 };

// The attributes of the array of these worlds.
fn attrs(alloc: Global) -> Result<AttrList, Fail>
    ensures { IfOk result AreAttrs }
{
    let mut attrs = AttrList::new(alloc);
    attrs.push(attr(label("v")?))?;
    let made = Schema { key: FIRST, attrs };
    let schema = Schema::decode(alloc, FIRST, made.encode(alloc)?.as_slice())?;
    Ok(schema.attrs)
}

// A write of v at x.
fn wrote(alloc: Global, t: u64, id: u128, x: i128, v: i128) -> Result<Deed, OutOfMemory>
    ensures { IfOk result (λ deed. deed ≡ Wrote (record { key = record { t = t; id = id }; schema = record { t = 0; id = 1 }; cells = record { coords = x ∷ []; row = Int v ∷ [] } ∷ [] })) }
{
    let mut row = Row::new(alloc);
    row.push(Val::Int(v))?;
    let mut cells = CellList::new(alloc);
    cells.push(Cell {
        coords: Coords::new(&[x]),
        row,
    })?;
    Ok(Deed::Wrote(Written {
        key: Key { t, id },
        schema: Key { t: 0, id: 1 },
        cells,
    }))
}

// The history of a sparse array with all writes of these worlds.
#[tactic(auto, using(crate::proofs::WorkedHistories::written_is_history))]
fn written(alloc: Global, frame: &Frame, attrs: AttrList) -> Result<History, Fail>
    requires frame { IsFrame frame.now }
    requires attrs { AreAttrs attrs }
    requires sparse { frame.now.dense ≡ false }
    requires one { IsTrue (is_in_domain frame.now.domain (pos 1 ∷ [])) }
    requires two { IsTrue (is_in_domain frame.now.domain (pos 2 ∷ [])) }
    requires three { IsTrue (is_in_domain frame.now.domain (pos 3 ∷ [])) }
    requires row_of_one { RowFits attrs (Int (pos 1) ∷ []) }
    requires row_of_two { RowFits attrs (Int (pos 2) ∷ []) }
    ensures { IfOk result IsHistory }
{
    let schema = Schema::new(alloc, frame, Key { t: 0, id: 1 }, attrs)?;
    let mut deeds = History::new(alloc);
    deeds.push(Deed::Framed(*frame))?;
    deeds.push(Deed::Declared(schema))?;
    deeds.push(wrote(alloc, 1, 2, 1, 1)?)?;
    deeds.push(wrote(alloc, 2, 3, 2, 2)?)?;
    deeds.push(wrote(alloc, 3, 4, 1, 2)?)?;
    deeds.push(wrote(alloc, 3, 7, 3, 1)?)?;
    Ok(deeds)
}

// Whether an array is sparse, and has the cells 1, 2 and 3.
fn has_cells(frame: &Frame) -> bool
    ensures sparse { IsTrue result → frame.now.dense ≡ false }
    ensures one { IsTrue result → IsTrue (is_in_domain frame.now.domain (pos 1 ∷ [])) }
    ensures two { IsTrue result → IsTrue (is_in_domain frame.now.domain (pos 2 ∷ [])) }
    ensures three { IsTrue result → IsTrue (is_in_domain frame.now.domain (pos 3 ∷ [])) }
{
    if frame.dense || frame.domain.count() != 1 {
        return false;
    }
    frame.domain.check(&Coords::new(&[1])).is_ok()
        && frame.domain.check(&Coords::new(&[2])).is_ok()
        && frame.domain.check(&Coords::new(&[3])).is_ok()
}

// Whether there is one attribute, of bytes.
#[tactic(auto, using(crate::proofs::WorkedHistories::byte_rows))]
fn is_byte(attrs: &[Attr]) -> bool
    ensures one { IsTrue result → RowFits attrs.now (Int (pos 1) ∷ []) }
    ensures two { IsTrue result → RowFits attrs.now (Int (pos 2) ∷ []) }
{
    match attrs {
        [attr] => matches!(attr.ty, ValType::U8) && !attr.nullable,
        _ => false,
    }
}

// The history of the array with all writes.
fn history(alloc: Global) -> Result<History, Fail>
    ensures { IfOk result IsHistory }
{
    let (frame, attrs) = (frame(alloc)?, attrs(alloc)?);
    if !has_cells(&frame) || !is_byte(attrs.as_slice()) {
        return Err(Fail::from("an array of bytes"));
    }
    written(alloc, &frame, attrs)
}

// The histories that a reader can see.
fn both_histories(alloc: Global) -> Result<Histories, Fail>
    ensures { IfOk result (λ histories. IsHistory histories.with) }
{
    let with = history(alloc)?;
    let mut without = history(alloc)?;
    drop(without.pop());
    Ok(Histories { without, with })
}

// Whether the fragment with this identifier was committed before the reader listed the commits.
fn sees(journal: &[Entry], reader: u32, id: u128) -> bool {
    for entry in journal {
        match &entry.call {
            Call::Put(Name::Commit(frag, CommitKind::Wrt), _) => {
                if frag.id == id && entry.fate.took_effect() {
                    return true;
                }
            }
            Call::List(Prefix::Commits) => {
                if entry.lane == reader {
                    return false;
                }
            }
            _ => {}
        }
    }
    false
}

// Whether a call of the actor failed.
fn has_failed(journal: &[Entry], actor: u32) -> bool {
    journal
        .iter()
        .any(|entry| entry.lane == actor && entry.fate != Fate::Done)
}

// How a read of everything up to 9 must end by a plain look through the history that it saw.
fn wanted(alloc: Global, histories: &Histories, further: bool) -> Result<Outcome, OutOfMemory>
    requires { IsHistory histories.now.with }
{
    let seen = if further {
        &histories.with
    } else {
        &histories.without
    };
    reference(alloc, seen, &histories.with, 0, 9, &everything(alloc))
}

// Whether a read named fragments that are clipped, so that its answer is not that of the whole
// history.
fn is_clipped(end: &Outcome) -> bool {
    match end {
        Outcome::Read(answer) => !answer.clipped.is_empty(),
        _ => false,
    }
}

// Whether the reader ended as it may: with all that it saw, by a call of its own that failed, for the
// lease of a vacuum, or dropped.
fn ends_well(
    alloc: Global,
    world: &World<PlainPieces>,
    reader: u32,
    histories: &Histories,
) -> Result<bool, OutOfMemory>
    requires { IsHistory histories.now.with }
{
    let journal = world.journal().as_slice();
    match world.answer_of(reader) {
        None => Ok(true),
        Some(Outcome::Refused(Refusal::StoreFault(_))) => Ok(has_failed(journal, reader)),
        Some(Outcome::Refused(Refusal::Leased(Name::Lease(_, LeaseMode::Exc)))) => Ok(true),
        Some(end) => {
            let further = sees(journal, reader, FURTHER);
            Ok(is_clipped(end) || *end == wanted(alloc, histories, further)?)
        }
    }
}

// Whether the actor answered a read.
fn has_answered(world: &World<PlainPieces>, actor: u32) -> bool {
    matches!(world.answer_of(actor), Some(Outcome::Read(_)))
}

// Whether a vacuum removed fragments.
fn has_swept(world: &World<PlainPieces>) -> bool {
    VACUUMS.iter().any(|vacuum| match world.answer_of(*vacuum) {
        Some(Outcome::Vacuumed(count)) => *count > 0,
        _ => false,
    })
}

#[test]
fn readers_find_what_was_written_whatever_happens(rt: HostRuntime) -> Result<(), Fail> {
    let alloc = rt.alloc();
    let histories = both_histories(alloc)?;
    let mut merged = 0_u64;
    let mut swept = 0_u64;
    for seed in 0..SCHEDULES {
        let world = play(&rt, alloc, seed)?;
        for reader in [BESIDE, AFTER] {
            assert!(rt;
                ends_well(alloc, &world, reader, &histories)?,
                "reader {reader} with the seed {seed}"
            );
        }
        let found = sees(world.journal().as_slice(), BESIDE, MERGED);
        if found && has_answered(&world, BESIDE) {
            merged = merged.saturating_add(1);
        }
        if has_swept(&world) && has_answered(&world, AFTER) {
            swept = swept.saturating_add(1);
        }
    }
    // In many schedules the reader beside the others answers from what the first consolidator merged,
    // and in many the last reader answers after a vacuum that removed fragments.
    assert!(rt; merged > SCHEDULES / 8, "{merged} schedules");
    assert!(rt; swept > SCHEDULES / 8, "{swept} schedules");
    Ok(())
}
