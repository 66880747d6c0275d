//! The words of a command line: what they ask for.
ghost use Rattle.std.specs.Prelude.{◌≡◌, [], Some, None, true, false, map, option_map, option_and_then, IfOk, IsTrue};
ghost use Rattle.std.specs.List.{list_all};
ghost use Rattle.std.specs.Option.{option_map_or};
ghost use Rattle.ts_base.specs.Labels.{is_label};
ghost use Rattle.ts_model.specs.Commands.{is_text};
ghost use Rattle.clap.specs.Walk.{first_of, rows_of};
ghost use Rattle.clap.specs.Matches.{found_of};
ghost use Rattle.clap.specs.Simple.{subcommand_rows_of};
ghost use Rattle.ts_script.specs.Shapes.{Gives};
ghost use Rattle.ts_script.specs.Meanings.{IsFitAsked};
ghost use Rattle.ts_script.specs.Words.{asked, asked_by, box_in, consolidate_asked, delete_asked, fields_in, generate_asked, layout_in, limit_in, line_alone, number_in, object_asked, read_asked, word_texts, vacuum_asked};

use crate::commands::tilestore_command;
use crate::fitting::{as_text, fits};
use crate::forms::FormFault;
use crate::lines::{MAX, MIN};
use crate::options::{cell_count_of, number_of, read_boxes, read_labels};
use crate::values::layout_named;
use clap::ArgMatches;
use clap::error::ErrorKind;
use std::alloc::{AllocError, Global};
use ts_base::{ByteList, LabelList, Stop};
use ts_commit::Limits;
use ts_cond::{NamedBoxList, Query};
use ts_domain::Layout;
use ts_model::{Command, Line};

/// What words can ask for.
#[derive(Debug, Drop)]
pub enum Asked {
    /// To do the commands of a script, which is the input.
    Play,
    /// To do one command, whose object is the input.
    Object {
        /// Which command.
        form: ObjectForm,
        /// Its stamp, in milliseconds since 1970-01-01, or None: then it is the clock's number as the
        /// command starts.
        at: Option<u64>,
    },
    /// To do this one command, which has no input.
    Command(Line),
    /// To do the commands of a generated script, and to sum up what came of them. It has no input.
    Generate {
        /// How many cells the script brings, from 1 to 100,000.
        cells: u32,
    },
}

/// What is printed of how the commands came out.
#[derive(Clone, Copy, Debug, PartialEq, Eq)]
pub enum Report {
    /// Of a script: the end of each command. The status tells nothing of them.
    Script,
    /// Of a single command: its end. The status tells whether it was refused.
    Single,
    /// Of a generated script: a summary, or the first command that was refused.
    Summary,
}

/// The commands that a single command reads from its input.
#[derive(Clone, Copy, Debug, PartialEq, Eq)]
pub enum ObjectForm {
    /// A create.
    Create,
    /// An evolve.
    Evolve,
    /// A write.
    Write,
}

/// What the words ask for, those of a command line after the program's name and the store.
///
/// They are read as `clap` reads them, by one command with the subcommands `create`, `evolve`,
/// `write`, `read`, `delete`, `consolidate`, `vacuum`, `unlock`, `fragments`, `gen` and `play`. `Form` comes
/// exactly where `clap` refuses them, as it does a request for help too, or where the value of an option has
/// another form.
pub fn read_words(alloc: Global, words: &[&str]) -> Result<Asked, FormFault>
    ensures asked { Gives result (asked (word_texts words.entry.now)) }
    ensures fit { IfOk result IsFitAsked }
{
    let command = match tilestore_command(alloc) {
        Ok(command) => command,
        Err(AllocError) => return Err(FormFault::OutOfMemory),
    };
    match command.try_get_matches_from(words) {
        Ok(matches) => read_matches(alloc, &matches),
        Err(error) if error.kind() == ErrorKind::OutOfMemory => Err(FormFault::OutOfMemory),
        Err(_) => Err(FormFault::Form),
    }
}

/// What the subcommand that was found asks for.
fn read_matches(alloc: Global, matches: &ArgMatches<'_>) -> Result<Asked, FormFault>
    ensures asked { Gives result (option_and_then (λ found. asked_by found.0 found.1) (subcommand_rows_of matches.now)) }
    ensures fit { IfOk result IsFitAsked }
{
    match matches.subcommand() {
        Some((name, options)) => read_command(alloc, name, options),
        None => Err(FormFault::Form),
    }
}

/// What the command of this name asks for.
#[tactic(auto, unfolding(crate::specs::Words::asked_by))]
fn read_command(alloc: Global, name: &str, options: &ArgMatches<'_>) -> Result<Asked, FormFault>
    ensures asked { Gives result (asked_by name.now (rows_of (found_of options.now))) }
    ensures fit { IfOk result IsFitAsked }
{
    if name == "create" {
        read_object(ObjectForm::Create, options)
    } else if name == "evolve" {
        read_object(ObjectForm::Evolve, options)
    } else if name == "write" {
        read_object(ObjectForm::Write, options)
    } else if name == "read" {
        read_read(alloc, options)
    } else if name == "delete" {
        read_delete(alloc, options)
    } else if name == "consolidate" {
        read_consolidate(options)
    } else if name == "vacuum" {
        read_vacuum(options)
    } else if name == "unlock" {
        let command = Command::Unlock { seed: 0, lane: 0 };
        Ok(Asked::Command(line_alone(command, None, false)))
    } else if name == "fragments" {
        Ok(Asked::Command(line_alone(Command::Fragments, None, false)))
    } else if name == "gen" {
        read_gen(options)
    } else if name == "play" {
        Ok(Asked::Play)
    } else {
        Err(FormFault::Form)
    }
}

/// The line of a single command with this stamp. It is in lane 0, and has no stop.
pub(crate) fn line_alone(command: Command, at: Option<u64>, to_stamp: bool) -> Line
    ensures { result ≡ line_alone at to_stamp command }
{
    Line {
        lane: 0,
        command,
        at,
        to_stamp,
        stop: Stop::Never,
    }
}

/// A vacuum.
#[tactic(auto, unfolding(crate::specs::Words::vacuum_asked))]
fn read_vacuum(options: &ArgMatches<'_>) -> Result<Asked, FormFault>
    ensures asked { Gives result (vacuum_asked (rows_of (found_of options.now))) }
    ensures fit { IfOk result IsFitAsked }
{
    let at = number_in(options, "at")?;
    Ok(Asked::Command(line_alone(Command::Vacuum, at, false)))
}

/// A command whose object is the input.
#[tactic(auto, unfolding(crate::specs::Words::object_asked))]
fn read_object(form: ObjectForm, options: &ArgMatches<'_>) -> Result<Asked, FormFault>
    ensures asked { Gives result (object_asked form (rows_of (found_of options.now))) }
    ensures fit { IfOk result IsFitAsked }
{
    let at = number_in(options, "at")?;
    Ok(Asked::Object { form, at })
}

/// A read.
#[tactic(auto, unfolding(crate::specs::Words::read_asked))]
fn read_read(alloc: Global, options: &ArgMatches<'_>) -> Result<Asked, FormFault>
    ensures asked { Gives result (read_asked (rows_of (found_of options.now))) }
    ensures fit { IfOk result IsFitAsked }
{
    let at = number_in(options, "at")?;
    let from = number_in(options, "from")?;
    let to = number_in(options, "to")?;
    let sub = box_in(alloc, text_in(options, "box"))?;
    let fields = fields_in(alloc, text_in(options, "fields"))?;
    let layout = layout_in(text_in(options, "layout"))?;
    let filter = filter_in(alloc, text_in(options, "where"))?;
    let query = Query {
        sub,
        fields,
        filter,
        layout,
    };
    let command = Command::Read {
        from: from.unwrap_or(0),
        to: to.unwrap_or(0),
        query,
    };
    if !fits(&command) {
        return Err(FormFault::Form);
    }
    Ok(Asked::Command(line_alone(command, at, to.is_none())))
}

/// A delete.
#[tactic(auto, unfolding(crate::specs::Words::delete_asked))]
fn read_delete(alloc: Global, options: &ArgMatches<'_>) -> Result<Asked, FormFault>
    ensures asked { Gives result (delete_asked (rows_of (found_of options.now))) }
    ensures fit { IfOk result IsFitAsked }
{
    let at = number_in(options, "at")?;
    let Some(text) = text_in(options, "where") else {
        return Err(FormFault::Form);
    };
    let text = as_text(ByteList::of_bytes(alloc, text.as_bytes())?);
    Ok(Asked::Command(line_alone(Command::Delete(text), at, false)))
}

/// A consolidation.
#[tactic(auto, unfolding(crate::specs::Words::consolidate_asked))]
fn read_consolidate(options: &ArgMatches<'_>) -> Result<Asked, FormFault>
    ensures asked { Gives result (consolidate_asked (rows_of (found_of options.now))) }
    ensures fit { IfOk result IsFitAsked }
{
    let at = number_in(options, "at")?;
    let from = number_in(options, "from")?;
    let to = number_in(options, "to")?;
    let min = limit_in(options, "min", MIN)?;
    let max = limit_in(options, "max", MAX)?;
    let command = Command::Consolidate {
        from: from.unwrap_or(0),
        to: to.unwrap_or(0),
        limits: Limits { min, max },
    };
    if !fits(&command) {
        return Err(FormFault::Form);
    }
    Ok(Asked::Command(line_alone(command, at, to.is_none())))
}

/// A generated script.
#[tactic(auto, unfolding(crate::specs::Words::generate_asked))]
fn read_gen(options: &ArgMatches<'_>) -> Result<Asked, FormFault>
    ensures asked { Gives result (generate_asked (rows_of (found_of options.now))) }
    ensures fit { IfOk result IsFitAsked }
{
    let Some(text) = text_in(options, "cells") else {
        return Err(FormFault::Form);
    };
    match cell_count_of(text.as_bytes()) {
        Some(cells) => Ok(Asked::Generate { cells }),
        None => Err(FormFault::Form),
    }
}

/// The value of an option, if the option is there.
fn text_in<'a>(options: &ArgMatches<'a>, name: &str) -> Option<&'a str>
    ensures { option_map (λ text. text.now) result ≡ first_of name.now (rows_of (found_of options.now)) }
{
    options.get_str(name)
}

/// The number of an option, if the option is there.
fn number_in(options: &ArgMatches<'_>, name: &str) -> Result<Option<u64>, FormFault>
    ensures { Gives result (number_in (rows_of (found_of options.now)) name.now) }
{
    let Some(text) = text_in(options, name) else {
        return Ok(None);
    };
    match number_of(text.as_bytes()) {
        Some(number) => Ok(Some(number)),
        None => Err(FormFault::Form),
    }
}

/// The number of an option, or this one if the option is not there.
fn limit_in(options: &ArgMatches<'_>, name: &str, missing: u32) -> Result<u32, FormFault>
    ensures { Gives result (limit_in (rows_of (found_of options.now)) name.now missing) }
{
    let limit = number_in(options, name)?.unwrap_or(u64::from(missing));
    if limit <= u64::from(u32::MAX) {
        Ok(limit as u32)
    } else {
        Err(FormFault::Form)
    }
}

/// The fields that are asked for.
fn fields_in(alloc: Global, given: Option<&str>) -> Result<LabelList, FormFault>
    ensures gives { Gives result (fields_in (option_map (λ text. text.now) given.entry)) }
    ensures typed { IfOk result (λ labels. IsTrue (list_all is_label labels)) }
{
    match given {
        Some(text) => read_labels(alloc, text.as_bytes()),
        None => Ok(LabelList::new(alloc)),
    }
}

/// The box that is asked for.
fn box_in(alloc: Global, given: Option<&str>) -> Result<NamedBoxList, FormFault>
    ensures { Gives result (box_in (option_map (λ text. text.now) given.entry)) }
{
    match given {
        Some(text) => read_boxes(alloc, text.as_bytes()),
        None => Ok(NamedBoxList::new(alloc)),
    }
}

/// The layout that is asked for.
fn layout_in(given: Option<&str>) -> Result<Layout, FormFault>
    ensures { Gives result (layout_in (option_map (λ text. text.now) given.entry)) }
{
    let Some(name) = given else {
        return Ok(Layout::Row);
    };
    match layout_named(name) {
        Some(layout) => Ok(layout),
        None => Err(FormFault::Form),
    }
}

/// The text of the filter that is asked for.
fn filter_in(alloc: Global, given: Option<&str>) -> Result<Option<ByteList>, FormFault>
    ensures gives { Gives result (Some (option_map (λ text. text.now) given.entry)) }
    ensures typed { IfOk result (λ text. IsTrue (option_map_or is_text text true)) }
{
    match given {
        Some(text) => {
            let bytes = ByteList::of_bytes(alloc, text.as_bytes())?;
            Ok(Some(as_text(bytes)))
        }
        None => Ok(None),
    }
}
