//! The commands that a script may have, as JSON objects.
ghost use Rattle.std.specs.Prelude.{◌≡◌, ◌&&◌, true, IfOk, IsTrue, map, option_and_then, option_map};
ghost use Rattle.ts_script.specs.Trees.{view};
ghost use Rattle.ts_model.specs.Jobs.{IsFitLine};
ghost use Rattle.ts_script.specs.Shapes.{Gives};
ghost use Rattle.ts_script.specs.Typed.{is_typed, is_typed_query};
ghost use Rattle.ts_script.specs.Lines.{name_of, kind_named, create_of, evolve_of, write_of, query_of, read_of, delete_of, consolidate_of, vacuum_of, unlock_of, fragments_of, command_of, form_of, has_interval, is_to_stamp, line_of};

use crate::fitting::{as_text, fits};
use crate::forms::{FormFault, has_only, if_there, optional, required, text_under};
use crate::tree::Json;
use crate::values::{read_box, read_columns, read_filter};
use crate::words::ObjectForm;
use std::alloc::Global;
use ts_base::{ByteList, LabelList, Stop};
use ts_commit::Limits;
use ts_cond::Query;
use ts_domain::{DimList, Layout, Order};
use ts_model::{Command, FrameIn, Line, WriteIn};
use ts_schema::{AttrList, Evolution};

/// The keys that every command of a script may have.
const COMMON: [&str; 4] = ["cmd", "lane", "at", "stop"];

/// How many lanes there are.
const LANES: u32 = 8;

/// How many fragments a consolidation takes at least, where it does not say it.
pub(crate) const MIN: u32 = 2;

/// How many fragments a consolidation takes at most, where it does not say it.
pub(crate) const MAX: u32 = 64;

/// The number of cells in a data tile where a create does not say it.
pub(crate) const CAPACITY: u32 = 10_000;

/// Reads a line: a command in its lane, with its stamp and its stop where it has them. The columns
/// of a write are taken out of the value.
#[tactic(auto, unfolding(crate::specs::Lines::line_of))]
pub(crate) fn read_line_form(alloc: Global, value: &mut Json) -> Result<Line, FormFault>
    ensures gives { Gives result (line_of (view value.old)) }
    ensures fit { IfOk result IsFitLine }
{
    let Some(name) = name_of(value) else {
        return Err(FormFault::Form);
    };
    let lane = optional(alloc, value, "lane", 0)?;
    let at = if_there(alloc, value, "at")?;
    let stop = optional(alloc, value, "stop", Stop::Never)?;
    let to_stamp = is_to_stamp(name, value);
    let command = read_command(alloc, lane, value)?;
    if lane >= LANES || !fits(&command) {
        return Err(FormFault::Form);
    }
    Ok(Line {
        lane,
        command,
        at,
        to_stamp,
        stop,
    })
}

/// The command's name, where a text stands under `cmd`.
fn name_of(value: &Json) -> Option<&str>
    ensures { option_map (λ name. name.now) result ≡ name_of (view value.now) }
{
    text_under(value, "cmd")
}

/// Whether a command of this name has an interval.
fn has_interval(name: &str) -> bool
    ensures { result ≡ has_interval name.now }
{
    name == "read" || name == "consolidate"
}

/// Whether a command of this name has an interval that ends at its own stamp.
fn is_to_stamp(name: &str, value: &Json) -> bool
    ensures { result ≡ is_to_stamp name.now (view value.now) }
{
    has_interval(name) && value.get("to").is_none()
}

/// Reads the command of the value's name, in this lane.
#[tactic(auto, unfolding(crate::specs::Lines::command_of))]
fn read_command(alloc: Global, lane: u32, value: &mut Json) -> Result<Command, FormFault>
    ensures gives { Gives result (option_and_then (λ name. command_of lane name (view value.old)) (name_of (view value.old))) }
    ensures typed { IfOk result (λ command. IsTrue (is_typed command)) }
{
    let Some(name) = name_of(value) else {
        return Err(FormFault::Form);
    };
    if name == "create" {
        read_create(alloc, &COMMON, value)
    } else if name == "evolve" {
        read_evolve(alloc, &COMMON, value)
    } else if name == "write" {
        read_write(alloc, &COMMON, value)
    } else if name == "read" {
        read_read(alloc, &COMMON, value)
    } else if name == "delete" {
        read_delete(alloc, &COMMON, value)
    } else if name == "consolidate" {
        read_consolidate(alloc, &COMMON, value)
    } else if name == "vacuum" {
        read_vacuum(&COMMON, value)
    } else if name == "unlock" {
        read_unlock(&COMMON, lane, value)
    } else if name == "fragments" {
        read_fragments(&COMMON, value)
    } else {
        Err(FormFault::Form)
    }
}

/// Reads the command whose object is the input of a single command.
pub(crate) fn read_form(
    alloc: Global,
    form: ObjectForm,
    value: &mut Json,
) -> Result<Command, FormFault>
    ensures gives { Gives result (form_of form (view value.old)) }
    ensures typed { IfOk result (λ command. IsTrue (is_typed command)) }
{
    match form {
        ObjectForm::Create => read_create(alloc, &[], value),
        ObjectForm::Evolve => read_evolve(alloc, &[], value),
        ObjectForm::Write => read_write(alloc, &[], value),
    }
}

/// Reads a create.
#[tactic(auto, unfolding(crate::specs::Lines::create_of))]
fn read_create(alloc: Global, common: &[&str], value: &Json) -> Result<Command, FormFault>
    ensures gives { Gives result (create_of (map (λ key. key.now) common.entry.now) (view value.now)) }
    ensures typed { IfOk result (λ command. IsTrue (is_typed command)) }
{
    let Some(kind) = text_under(value, "kind") else {
        return Err(FormFault::Form);
    };
    let dims: DimList = required(alloc, value, "dims")?;
    let attrs: AttrList = required(alloc, value, "attrs")?;
    let cell = optional(alloc, value, "cell_order", Order::Row)?;
    let tile = optional(alloc, value, "tile_order", Order::Row)?;
    let capacity = optional(alloc, value, "capacity", CAPACITY)?;
    let Some(dense) = is_dense(kind) else {
        return Err(FormFault::Form);
    };
    let keys = [
        "kind",
        "dims",
        "attrs",
        "cell_order",
        "tile_order",
        "capacity",
    ];
    if !has_only(value, common, &keys) {
        return Err(FormFault::Form);
    }
    Ok(Command::Create(FrameIn {
        dense,
        dims,
        cell,
        tile,
        capacity,
        attrs,
    }))
}

/// Whether an array of this kind is dense.
fn is_dense(kind: &str) -> Option<bool>
    ensures { result ≡ kind_named kind.now }
{
    match kind {
        "dense" => Some(true),
        "sparse" => Some(false),
        _ => None,
    }
}

/// Reads an evolve, which adds attributes or drops some, or both.
#[tactic(auto, unfolding(crate::specs::Lines::evolve_of))]
fn read_evolve(alloc: Global, common: &[&str], value: &Json) -> Result<Command, FormFault>
    ensures gives { Gives result (evolve_of (map (λ key. key.now) common.entry.now) (view value.now)) }
    ensures typed { IfOk result (λ command. IsTrue (is_typed command)) }
{
    let add = optional(alloc, value, "add", AttrList::new(alloc))?;
    let less = optional(alloc, value, "drop", LabelList::new(alloc))?;
    let changes = value.get("add").is_some() || value.get("drop").is_some();
    if !changes || !has_only(value, common, &["add", "drop"]) {
        return Err(FormFault::Form);
    }
    Ok(Command::Evolve(Evolution { add, less }))
}

/// Reads a write: its columns, and to a dense array its box and the order of the cells in it. The
/// columns are taken out of the value, and all else is read before.
#[tactic(auto, unfolding(crate::specs::Lines::write_of))]
fn read_write(alloc: Global, common: &[&str], value: &mut Json) -> Result<Command, FormFault>
    ensures gives { Gives result (write_of (map (λ key. key.now) common.entry.now) (view value.old)) }
    ensures typed { IfOk result (λ command. IsTrue (is_typed command)) }
{
    let sub = read_box(alloc, value.get("box"));
    let layout = optional(alloc, value, "layout", Order::Row);
    let has_only = has_only(value, common, &["cols", "box", "layout"]);
    let Some(found) = value.take("cols") else {
        return Err(FormFault::Form);
    };
    let cols = read_columns(alloc, found)?;
    let sub = sub?;
    let layout = layout?;
    if !has_only {
        return Err(FormFault::Form);
    }
    Ok(Command::Write(WriteIn { cols, sub, layout }))
}

/// Reads a read: its interval begins and ends at 0 where it does not say else.
#[tactic(auto, unfolding(crate::specs::Lines::read_of))]
fn read_read(alloc: Global, common: &[&str], value: &Json) -> Result<Command, FormFault>
    ensures gives { Gives result (read_of (map (λ key. key.now) common.entry.now) (view value.now)) }
    ensures typed { IfOk result (λ command. IsTrue (is_typed command)) }
{
    let from = optional(alloc, value, "from", 0)?;
    let to = optional(alloc, value, "to", 0)?;
    let query = read_query(alloc, value)?;
    let keys = ["from", "to", "box", "fields", "where", "layout"];
    if !has_only(value, common, &keys) {
        return Err(FormFault::Form);
    }
    Ok(Command::Read { from, to, query })
}

/// Reads what a read asks for: its box, its fields, its filter and its layout.
#[tactic(auto, unfolding(crate::specs::Lines::query_of))]
fn read_query(alloc: Global, value: &Json) -> Result<Query, FormFault>
    ensures gives { Gives result (query_of (view value.now)) }
    ensures typed { IfOk result (λ query. IsTrue (is_typed_query query)) }
{
    let sub = read_box(alloc, value.get("box"))?;
    let fields = optional(alloc, value, "fields", LabelList::new(alloc))?;
    let filter = read_filter(alloc, value.get("where"))?;
    let layout = optional(alloc, value, "layout", Layout::Row)?;
    if value.get("fields").is_some() && fields.is_empty() {
        return Err(FormFault::Form);
    }
    Ok(Query {
        sub,
        fields,
        filter,
        layout,
    })
}

/// Reads a delete: its condition.
#[tactic(auto, unfolding(crate::specs::Lines::delete_of))]
fn read_delete(alloc: Global, common: &[&str], value: &Json) -> Result<Command, FormFault>
    ensures gives { Gives result (delete_of (map (λ key. key.now) common.entry.now) (view value.now)) }
    ensures typed { IfOk result (λ command. IsTrue (is_typed command)) }
{
    let Some(text) = text_under(value, "where") else {
        return Err(FormFault::Form);
    };
    let text = as_text(ByteList::of_bytes(alloc, text.as_bytes())?);
    if !has_only(value, common, &["where"]) {
        return Err(FormFault::Form);
    }
    Ok(Command::Delete(text))
}

/// Reads a consolidation: its interval, and how many fragments it takes.
#[tactic(auto, unfolding(crate::specs::Lines::consolidate_of))]
fn read_consolidate(alloc: Global, common: &[&str], value: &Json) -> Result<Command, FormFault>
    ensures gives { Gives result (consolidate_of (map (λ key. key.now) common.entry.now) (view value.now)) }
    ensures typed { IfOk result (λ command. IsTrue (is_typed command)) }
{
    let from = optional(alloc, value, "from", 0)?;
    let to = optional(alloc, value, "to", 0)?;
    let min = optional(alloc, value, "min", MIN)?;
    let max = optional(alloc, value, "max", MAX)?;
    if !has_only(value, common, &["from", "to", "min", "max"]) {
        return Err(FormFault::Form);
    }
    let limits = Limits { min, max };
    Ok(Command::Consolidate { from, to, limits })
}

/// Reads a vacuum.
#[tactic(auto, unfolding(crate::specs::Lines::vacuum_of))]
fn read_vacuum(common: &[&str], value: &Json) -> Result<Command, FormFault>
    ensures gives { Gives result (vacuum_of (map (λ key. key.now) common.entry.now) (view value.now)) }
    ensures typed { IfOk result (λ command. IsTrue (is_typed command)) }
{
    if !has_only(value, common, &[]) {
        return Err(FormFault::Form);
    }
    Ok(Command::Vacuum)
}

/// Reads an unlock in this lane. The seed of the run is set when it is done.
#[tactic(auto, unfolding(crate::specs::Lines::unlock_of))]
fn read_unlock(common: &[&str], lane: u32, value: &Json) -> Result<Command, FormFault>
    ensures gives { Gives result (unlock_of (map (λ key. key.now) common.entry.now) lane (view value.now)) }
    ensures typed { IfOk result (λ command. IsTrue (is_typed command)) }
{
    if !has_only(value, common, &[]) {
        return Err(FormFault::Form);
    }
    Ok(Command::Unlock { seed: 0, lane })
}

/// Reads a listing of the commits.
#[tactic(auto, unfolding(crate::specs::Lines::fragments_of))]
fn read_fragments(common: &[&str], value: &Json) -> Result<Command, FormFault>
    ensures gives { Gives result (fragments_of (map (λ key. key.now) common.entry.now) (view value.now)) }
    ensures typed { IfOk result (λ command. IsTrue (is_typed command)) }
{
    if !has_only(value, common, &[]) {
        return Err(FormFault::Form);
    }
    Ok(Command::Fragments)
}
