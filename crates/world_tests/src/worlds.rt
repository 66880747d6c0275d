//! Worlds of one array over a store in memory.
mod merging;
mod vacuums;

ghost use Rattle.std.specs.Prelude.{◌≡◌, ◌<◌, ◌≤◌, ◌+◌, [], true, IfOk, IsTrue, length};
ghost use Rattle.std.specs.List.{list_all};
ghost use Rattle.ts_domain.specs.Dims.{IsDim};
ghost use Rattle.ts_model.specs.declared.commands.Command.TheVariants.{Create, Evolve, Write};
ghost use Rattle.ts_model.specs.Commands.{fits, is_spelled_attr, is_spelled_col, is_spelled_dim, is_spelled_query};
ghost use Rattle.ts_world.specs.Clauses.{BeganEmpty};

use std::alloc::Global;
use std::test::Fail;
use std::thread::Threads;
use ts_actor::PlainPieces;
use ts_base::{Key, Label, LabelList, OutOfMemory, Row, RowList, Val, ValType};
use ts_batch::RowBatch;
use ts_cond::{NamedBoxList, Query};
use ts_domain::{Dim, DimList, Layout, Order};
use ts_model::{ColIn, ColInList, Command, FrameIn, History, Outcome, WriteIn};
use ts_schema::{Attr, AttrList, Evolution};
use ts_store::{Fate, FaultList, MemStore};
use ts_table::Column;
use ts_world::{Event, World, WorldFault};

// A world without actors and without a past.
fn first_world(alloc: Global) -> World<PlainPieces>
    ensures began { BeganEmpty result }
    ensures jobs { result.jobs ≡ [] }
{
    let store = MemStore::new(alloc, FaultList::new(alloc));
    World::new(alloc, store, History::new(alloc))
}

// Adds an actor to such a world.
fn spawn<R: Threads + Sync>(
    rt: &R,
    alloc: Global,
    world: &mut World<PlainPieces>,
    command: Command,
    at: u64,
    id: u128,
) -> Result<(), WorldFault>
    requires began { BeganEmpty world.old }
    requires few { length world.old.jobs < 12 }
    requires fits { IsTrue (fits command) }
    ensures began { BeganEmpty world.new }
    ensures few { length world.new.jobs ≤ length world.old.jobs + 1 }
{
    world.step(rt, alloc, Event::Spawn(command, at, id))
}

fn label(name: &str) -> Result<Label, Fail> {
    Ok(Label::new(name).ok_or("no label")?)
}

// A dimension of the numbers from 0 to 9 in one tile.
fn dim(name: Label) -> Dim
    ensures spelled { is_spelled_dim result ≡ true }
    ensures valid { IsDim result }
{
    let _text = name.as_bytes();
    Dim {
        name,
        ty: ValType::I64,
        low: 0,
        high: 9,
        extent: 10,
    }
}

// An attribute of bytes whose fill is 0.
fn attr(name: Label) -> Attr
    ensures { is_spelled_attr result ≡ true }
{
    let _text = name.as_bytes();
    Attr {
        name,
        ty: ValType::U8,
        nullable: false,
        fill: Val::Int(0),
    }
}

// Makes an array with the dimension x and the attribute v.
fn create(alloc: Global) -> Result<Command, Fail>
    ensures { IfOk result (λ command. IsTrue (fits command)) }
{
    let mut dims = DimList::new(alloc);
    dims.push(dim(label("x")?))?;
    let mut attrs = AttrList::new(alloc);
    attrs.push(attr(label("v")?))?;
    Ok(Command::Create(FrameIn {
        dense: false,
        dims,
        cell: Order::Row,
        tile: Order::Row,
        capacity: 4,
        attrs,
    }))
}

// A column of one value.
fn column(alloc: Global, name: Label, value: u8) -> Result<ColIn, OutOfMemory>
    ensures { IfOk result (λ column. is_spelled_col column ≡ true) }
{
    let _text = name.as_bytes();
    let mut values = Column::new(alloc);
    values.push_number(i128::from(value))?;
    Ok(ColIn { name, values })
}

// Writes a value at x.
fn write(alloc: Global, x: u8, value: u8) -> Result<Command, Fail>
    ensures { IfOk result (λ command. IsTrue (fits command)) }
{
    let mut cols = ColInList::new(alloc);
    cols.push(column(alloc, label("x")?, x)?)?;
    cols.push(column(alloc, label("v")?, value)?)?;
    Ok(Command::Write(WriteIn {
        cols,
        sub: NamedBoxList::new(alloc),
        layout: Order::Row,
    }))
}

// Takes v away, and adds w.
fn evolve(alloc: Global) -> Result<Command, Fail>
    ensures { IfOk result (λ command. IsTrue (fits command)) }
{
    let mut add = AttrList::new(alloc);
    add.push(attr(label("w")?))?;
    let mut less = LabelList::new(alloc);
    less.push(label("v")?)?;
    Ok(Command::Evolve(Evolution { add, less }))
}

// Lets an actor make its calls to its end.
fn finish<R: Threads + Sync>(
    rt: &R,
    alloc: Global,
    world: &mut World<PlainPieces>,
    actor: u32,
) -> Result<(), WorldFault> {
    for _ in 0..99_u64 {
        if world.answer_of(actor).is_some() {
            return Ok(());
        }
        world.step(rt, alloc, Event::Step(actor, Fate::Done))?;
    }
    Ok(())
}

// The row of a cell.
fn row(alloc: Global, cell: [u8; 2]) -> Result<Row, OutOfMemory> {
    let mut row = Row::new(alloc);
    for value in cell {
        row.push(Val::Int(i128::from(value)))?;
    }
    Ok(row)
}

// Whether the actor read these cells, each once: of each its coordinate and its value.
fn has_read(
    alloc: Global,
    world: &World<PlainPieces>,
    actor: u32,
    cells: &[[u8; 2]],
) -> Result<bool, OutOfMemory> {
    let Some(Outcome::Read(answer)) = world.answer_of(actor) else {
        return Ok(false);
    };
    let mut rows = RowList::new(alloc);
    for cell in cells {
        rows.push(row(alloc, *cell)?)?;
    }
    Ok(answer.rows == RowBatch::of_rows(rows))
}

// A world with its array, made by the actor 0, and a write of 20 (identifier 2) and one of 30
// (identifier 3) at 5, both stamped 4, by the actors 1 and 2.
fn two_writers<R: Threads + Sync>(rt: &R, alloc: Global) -> Result<World<PlainPieces>, Fail>
    ensures began { IfOk result (λ world. BeganEmpty world) }
    ensures few { IfOk result (λ world. length world.jobs ≤ 3) }
{
    let mut world = first_world(alloc);
    spawn(rt, alloc, &mut world, create(alloc)?, 1, 1)?;
    spawn(rt, alloc, &mut world, write(alloc, 5, 20)?, 4, 2)?;
    spawn(rt, alloc, &mut world, write(alloc, 5, 30)?, 4, 3)?;
    Ok(world)
}

// Asks for everything.
fn everything(alloc: Global) -> Query
    ensures spelled { is_spelled_query result ≡ true }
    ensures bounds { result.sub ≡ [] }
{
    Query {
        sub: NamedBoxList::new(alloc),
        fields: LabelList::new(alloc),
        filter: None,
        layout: Layout::Row,
    }
}

// Adds a reader of the interval up to 9.
fn read<R: Threads + Sync>(
    rt: &R,
    alloc: Global,
    world: &mut World<PlainPieces>,
    id: u128,
) -> Result<(), WorldFault>
    requires began { BeganEmpty world.old }
    requires few { length world.old.jobs < 12 }
    ensures began { BeganEmpty world.new }
    ensures few { length world.new.jobs ≤ length world.old.jobs + 1 }
{
    spawn(
        rt,
        alloc,
        world,
        Command::Read {
            from: 0,
            to: 9,
            query: everything(alloc),
        },
        9,
        id,
    )
}

// Adds a vacuum.
fn vacuum<R: Threads + Sync>(
    rt: &R,
    alloc: Global,
    world: &mut World<PlainPieces>,
    id: u128,
) -> Result<(), WorldFault>
    requires began { BeganEmpty world.old }
    requires few { length world.old.jobs < 12 }
    ensures began { BeganEmpty world.new }
    ensures few { length world.new.jobs ≤ length world.old.jobs + 1 }
{
    spawn(rt, alloc, world, Command::Vacuum, 9, id)
}

#[test]
fn of_equal_stamps_the_greater_identifier_is_last(rt: HostRuntime) -> Result<(), Fail> {
    let alloc = rt.alloc();
    let mut world = two_writers(&rt, alloc)?;
    read(&rt, alloc, &mut world, 4)?;
    for actor in [0, 2, 1, 3] {
        finish(&rt, alloc, &mut world, actor)?;
    }
    assert_eq!(rt; world.answer_of(0), Some(&Outcome::Created));
    assert!(rt; has_read(alloc, &world, 3, &[[5, 30]])?);
    Ok(())
}

#[test]
fn a_write_that_only_listed_the_schemas_is_in_no_later_one(rt: HostRuntime) -> Result<(), Fail> {
    let alloc = rt.alloc();
    let mut world = first_world(alloc);
    spawn(&rt, alloc, &mut world, create(alloc)?, 1, 1)?;
    spawn(&rt, alloc, &mut world, write(alloc, 5, 20)?, 4, 2)?;
    spawn(&rt, alloc, &mut world, evolve(alloc)?, 3, 3)?;
    read(&rt, alloc, &mut world, 4)?;
    finish(&rt, alloc, &mut world, 0)?;
    world.step(&rt, alloc, Event::Step(1, Fate::Done))?;
    world.step(&rt, alloc, Event::Stop(1, Fate::FailedSkipped))?;
    finish(&rt, alloc, &mut world, 2)?;
    finish(&rt, alloc, &mut world, 3)?;
    assert_eq!(rt;
        world.answer_of(2),
        Some(&Outcome::Evolved(Key { t: 3, id: 3 }))
    );
    let Some(Outcome::Read(answer)) = world.answer_of(3) else {
        return Err(Fail::from("an answer"));
    };
    assert_eq!(rt; answer.rows.len(), 0);
    Ok(())
}

#[test]
fn a_fault_names_the_identifier_or_the_actor(rt: HostRuntime) -> Result<(), Fail> {
    let alloc = rt.alloc();
    let mut world = two_writers(&rt, alloc)?;
    assert_eq!(rt;
        read(&rt, alloc, &mut world, 3),
        Err(WorldFault::IdTaken(3))
    );
    let step = Event::Step(9, Fate::Done);
    assert_eq!(rt; world.step(&rt, alloc, step), Err(WorldFault::NoActor(9)));
    Ok(())
}

#[test]
fn a_restart_drops_all_actors_and_keeps_what_they_put(rt: HostRuntime) -> Result<(), Fail> {
    let alloc = rt.alloc();
    let mut world = two_writers(&rt, alloc)?;
    world.step(&rt, alloc, Event::Step(0, Fate::Done))?;
    world.step(&rt, alloc, Event::Restart)?;
    for actor in 0..3 {
        let step = Event::Step(actor, Fate::Done);
        assert_eq!(rt;
            world.step(&rt, alloc, step),
            Err(WorldFault::NoActor(actor))
        );
        assert!(rt; world.answer_of(actor).is_none());
    }
    assert_eq!(rt; world.store().names(alloc)?.len(), 1);
    assert_eq!(rt; world.journal().len(), 1);
    Ok(())
}
