//! The generator: scripts that bring as many cells as are asked for.
ghost use Rattle.std.specs.Prelude.{◌≡◌, ◌+◌, ◌++◌, ◌≤◌, ℕ, codes, decimal, length, true, Some, All, IfOk, OnOk, IsTrue};
ghost use Rattle.std.specs.List.{range_with_len};
ghost use Rattle.ts_base.specs.Labels.{is_label};
ghost use Rattle.ts_model.specs.Commands.{fits, is_text};
ghost use Rattle.ts_model.specs.Jobs.{IsFitLine};
ghost use Rattle.ts_script.specs.Generator.{IsCellCount, all_read, array_made, batch, closing_lines, generated, numbers_written, place_of, values_of, write_lines, writes_for};
ghost use Rattle.ts_script.specs.Script.{AreLimited};
ghost use Rattle.ts_script.specs.Words.{line_alone};

use crate::fitting::as_text;
use crate::lines::{CAPACITY, MAX, MIN};
use crate::words::line_alone;
use std::alloc::Global;
use ts_base::{ByteList, Label, LabelList, OutOfMemory, ValType};
use ts_commit::Limits;
use ts_cond::{NamedBoxList, Query};
use ts_domain::{Dim, DimList, Layout, Order};
use ts_model::{ColIn, ColInList, Command, FrameIn, Line, LineList, WriteIn};
use ts_schema::{Attr, AttrList};
use ts_table::Column;
use ts_value::default_fill;

/// How many cells a write brings, but for the last.
const BATCH: u32 = 100;

/// A script that makes an array, writes so many cells to it, and looks after them.
///
/// The array is sparse. Its dimension `x` goes from 0 to 9999 in space tiles of 100, its attribute `v`
/// is an int64. Cell number i, counted from 0, has the value i, and lies at 48271 times i modulo 10000.
/// Each write brings 100 cells, the last one those that are left. Write number k, counted from 0, is
/// stamped k + 1, in milliseconds since 1970-01-01. What follows is stamped 1 more than the last write:
/// a delete of the values below a quarter of the number of cells, a consolidation, a vacuum and a read.
#[tactic(auto, unfolding(crate::specs::Generator::generated))]
pub fn gen_script(alloc: Global, cells: u32) -> Result<LineList, OutOfMemory>
    requires { IsCellCount cells }
    ensures lines { IfOk result (λ lines. lines ≡ generated cells) }
    ensures limited { IfOk result AreLimited }
{
    let mut lines = Vec::new(alloc);
    lines.push(stamped(array_made(alloc)?, 0, false))?;
    let count = (cells + (BATCH - 1)) / BATCH;
    push_writes(alloc, &mut lines, cells, count)?;
    push_closing(alloc, &mut lines, u64::from(count) + 1, cells / 4)?;
    Ok(LineList::from_vec(lines))
}

// A line with this command at this stamp.
fn stamped(command: Command, at: u64, to_stamp: bool) -> Line
    requires { IsTrue (fits command) }
    ensures is { result ≡ line_alone (Some at) to_stamp command }
    ensures fit { IsFitLine result }
{
    line_alone(command, Some(at), to_stamp)
}

// The array: sparse, with one dimension and one attribute.
fn array_made(alloc: Global) -> Result<Command, OutOfMemory>
    ensures is { IfOk result (λ command. command ≡ array_made) }
    ensures fit { IfOk result (λ command. IsTrue (fits command)) }
{
    let x = Dim {
        name: Label::new("x").unwrap(),
        ty: ValType::I64,
        low: 0,
        high: 9999,
        extent: 100,
    };
    let v = Attr {
        name: Label::new("v").unwrap(),
        ty: ValType::I64,
        nullable: false,
        fill: default_fill(alloc, ValType::I64, false),
    };
    Ok(Command::Create(FrameIn {
        dense: false,
        dims: DimList::from_vec(vec![in alloc; x]?),
        cell: Order::Row,
        tile: Order::Row,
        capacity: CAPACITY,
        attrs: AttrList::from_vec(vec![in alloc; v]?),
    }))
}

// Adds the writes that bring so many cells.
fn push_writes(
    alloc: Global,
    lines: &mut Vec<Line>,
    cells: u32,
    count: u32,
) -> Result<(), OutOfMemory>
    requires cells { IsCellCount cells }
    requires count { count ≡ writes_for cells }
    requires few { length lines.old.items + count ≤ 4000 }
    requires fit { All IsFitLine lines.old.items }
    ensures is { OnOk result (lines.new.items ≡ lines.old.items ++ write_lines cells 0 count) }
    ensures fit { OnOk result (All IsFitLine lines.new.items) }
    ensures many { OnOk result (length lines.new.items ≡ length lines.old.items + count) }
{
    for k in 0..count {
        let first = BATCH * k;
        let command = numbers_written(alloc, first, BATCH.min(cells - first))?;
        lines.push(stamped(command, u64::from(k) + 1, false))?;
    }
    Ok(())
}

// A write of so many cells, from a number on.
fn numbers_written(alloc: Global, first: u32, count: u32) -> Result<Command, OutOfMemory>
    requires some { (1 ≤ count) × (count ≤ 100) }
    requires few { first + count ≤ 100000 }
    ensures is { IfOk result (λ command. command ≡ numbers_written (range_with_len first count)) }
    ensures fit { IfOk result (λ command. IsTrue (fits command)) }
{
    let v = column_of("v", values_from(alloc, first, count)?);
    let x = column_of("x", places_from(alloc, first, count)?);
    Ok(Command::Write(WriteIn {
        cols: ColInList::from_vec(vec![in alloc; v, x]?),
        sub: NamedBoxList::new(alloc),
        layout: Order::Row,
    }))
}

// The column of this name.
fn column_of(name: &str, values: Column) -> ColIn
    requires { is_label name.now ≡ true }
    ensures { result ≡ record { name = name.now; values = values } }
{
    ColIn {
        name: Label::new(name).unwrap(),
        values,
    }
}

// So many numbers, from one on.
fn values_from(alloc: Global, first: u32, count: u32) -> Result<Column, OutOfMemory>
    requires { first + count ≤ 100000 }
    ensures { IfOk result (λ values. values ≡ values_of (λ i. i) (range_with_len first count)) }
{
    let mut values = Column::new(alloc);
    for i in 0..count {
        values.push_number(i128::from(first + i))?;
    }
    Ok(values)
}

// The places of so many cells, from a number on.
fn places_from(alloc: Global, first: u32, count: u32) -> Result<Column, OutOfMemory>
    requires { first + count ≤ 100000 }
    ensures { IfOk result (λ values. values ≡ values_of place_of (range_with_len first count)) }
{
    let mut values = Column::new(alloc);
    for i in 0..count {
        let number = u64::from(first + i);
        values.push_number(i128::from(number * 48_271 % 10_000))?;
    }
    Ok(values)
}

// Adds what comes behind the writes, at this stamp.
fn push_closing(
    alloc: Global,
    lines: &mut Vec<Line>,
    at: u64,
    below: u32,
) -> Result<(), OutOfMemory>
    requires fit { All IsFitLine lines.old.items }
    ensures is { OnOk result (lines.new.items ≡ lines.old.items ++ closing_lines at below) }
    ensures fit { OnOk result (All IsFitLine lines.new.items) }
    ensures many { OnOk result (length lines.new.items ≡ length lines.old.items + 4) }
{
    let delete = Command::Delete(condition(alloc, below)?);
    lines.push(stamped(delete, at, false))?;
    let limits = Limits { min: MIN, max: MAX };
    let consolidate = Command::Consolidate {
        from: 0,
        to: 0,
        limits,
    };
    lines.push(stamped(consolidate, at, true))?;
    lines.push(stamped(Command::Vacuum, at, false))?;
    lines.push(stamped(all_read(alloc), at, true))?;
    Ok(())
}

// The condition that takes the values below a number.
fn condition(alloc: Global, below: u32) -> Result<ByteList, OutOfMemory>
    ensures is { IfOk result (λ text. text ≡ codes "v < " ++ decimal below) }
    ensures fit { IfOk result (λ text. IsTrue (is_text text)) }
{
    let mut text = String::new(alloc);
    write!(text, "v < {below}")?;
    Ok(as_text(ByteList::from_vec(text.into_bytes())))
}

// A read of all that there is.
fn all_read(alloc: Global) -> Command
    ensures is { result ≡ all_read }
    ensures fit { IsTrue (fits result) }
{
    let query = Query {
        sub: NamedBoxList::new(alloc),
        fields: LabelList::new(alloc),
        filter: None,
        layout: Layout::Row,
    };
    Command::Read {
        from: 0,
        to: 0,
        query,
    }
}
