//! The command line, as `clap` has it.
ghost use Rattle.std.specs.Prelude.{◌≡◌, codes, false, IfOk};
ghost use Rattle.clap.specs.Walk.{rule_of};
ghost use Rattle.clap.specs.Simple.{app_of, new_app, with_rule, with_subcommand};
ghost use Rattle.clap.specs.declared.builder.command.Command.TheViews.{out-Command};
ghost use Rattle.ts_script.specs.Words.{option_named, stamped_app, interval_app, read_app, delete_app, consolidate_app, gen_app, bare_app, without_name, objects_app, optioned_app, upkeep_app, tilestore_app};

use clap::{Arg, Command};
use std::alloc::{AllocError, Global};

/// The whole command line: the words after the program's name and the store.
#[tactic(auto, unfolding(crate::specs::Words::tilestore_app))]
pub(crate) fn tilestore_command<'a>(alloc: Global) -> Result<Command<'a>, AllocError>
    ensures { IfOk result (λ command. app_of command ≡ tilestore_app) }
{
    let command = upkeep_command(alloc)?;
    let command = with_command(command, gen_command(alloc)?)?;
    with_command(command, bare_command(alloc, "play"))
}

/// And those that look after what was written.
#[tactic(auto, unfolding(crate::specs::Words::upkeep_app))]
fn upkeep_command<'a>(alloc: Global) -> Result<Command<'a>, AllocError>
    ensures app { IfOk result (λ command. app_of command ≡ upkeep_app) }
    ensures local { IfOk result (λ command. (out-Command command).has_globals ≡ false) }
{
    let command = optioned_command(alloc)?;
    let command = with_command(command, stamped_command(alloc, "vacuum")?)?;
    let command = with_command(command, bare_command(alloc, "unlock"))?;
    with_command(command, bare_command(alloc, "fragments"))
}

/// And those that have options of their own.
#[tactic(auto, unfolding(crate::specs::Words::optioned_app))]
fn optioned_command<'a>(alloc: Global) -> Result<Command<'a>, AllocError>
    ensures app { IfOk result (λ command. app_of command ≡ optioned_app) }
    ensures local { IfOk result (λ command. (out-Command command).has_globals ≡ false) }
{
    let command = objects_command(alloc)?;
    let command = with_command(command, read_command(alloc)?)?;
    let command = with_command(command, delete_command(alloc)?)?;
    with_command(command, consolidate_command(alloc)?)
}

/// The commands whose objects are the input.
#[tactic(auto, unfolding(crate::specs::Words::objects_app))]
fn objects_command<'a>(alloc: Global) -> Result<Command<'a>, AllocError>
    ensures app { IfOk result (λ command. app_of command ≡ objects_app) }
    ensures local { IfOk result (λ command. (out-Command command).has_globals ≡ false) }
{
    let command = empty_command(alloc);
    let command = with_command(command, stamped_command(alloc, "create")?)?;
    let command = with_command(command, stamped_command(alloc, "evolve")?)?;
    with_command(command, stamped_command(alloc, "write")?)
}

/// A command line without a command.
fn empty_command<'a>(alloc: Global) -> Command<'a>
    ensures app { app_of result ≡ without_name (new_app (codes "tilestore")) }
    ensures local { (out-Command result).has_globals ≡ false }
{
    Command::new(alloc, "tilestore").no_binary_name(true)
}

/// A command line with one command more.
fn with_command<'a>(line: Command<'a>, command: Command<'a>) -> Result<Command<'a>, AllocError>
    requires line { (out-Command line).has_globals ≡ false }
    requires command { (out-Command command).has_globals ≡ false }
    ensures app { IfOk result (λ more. app_of more ≡ with_subcommand (app_of line.entry) (app_of command.entry).top) }
    ensures local { IfOk result (λ more. (out-Command more).has_globals ≡ false) }
{
    line.subcommand(command)
}

/// An option `--NAME VALUE`.
fn option<'a>(alloc: Global, name: &'a str) -> Arg<'a>
    ensures rule { rule_of result ≡ option_named name.entry.now }
    ensures local { result.global ≡ false }
{
    Arg::new(alloc, name).long(name)
}

/// `create`, `evolve`, `write` or `vacuum`, whose option is the stamp.
#[tactic(auto, unfolding(crate::specs::Words::stamped_app))]
fn stamped_command<'a>(alloc: Global, name: &'a str) -> Result<Command<'a>, AllocError>
    ensures app { IfOk result (λ command. app_of command ≡ stamped_app name.entry.now) }
    ensures local { IfOk result (λ command. (out-Command command).has_globals ≡ false) }
{
    Command::new(alloc, name).arg(option(alloc, "at"))
}

/// A command with one option more.
fn with_option<'a>(
    alloc: Global,
    command: Command<'a>,
    name: &'a str,
) -> Result<Command<'a>, AllocError>
    requires { (out-Command command).has_globals ≡ false }
    ensures app { IfOk result (λ more. app_of more ≡ with_rule (app_of command.entry) (option_named name.entry.now)) }
    ensures local { IfOk result (λ more. (out-Command more).has_globals ≡ false) }
{
    command.arg(option(alloc, name))
}

/// `read` or `consolidate`, with its interval.
#[tactic(auto, unfolding(crate::specs::Words::interval_app))]
fn interval_command<'a>(alloc: Global, name: &'a str) -> Result<Command<'a>, AllocError>
    ensures app { IfOk result (λ command. app_of command ≡ interval_app name.entry.now) }
    ensures local { IfOk result (λ command. (out-Command command).has_globals ≡ false) }
{
    let command = stamped_command(alloc, name)?;
    let command = with_option(alloc, command, "from")?;
    with_option(alloc, command, "to")
}

/// `read`.
#[tactic(auto, unfolding(crate::specs::Words::read_app))]
fn read_command<'a>(alloc: Global) -> Result<Command<'a>, AllocError>
    ensures app { IfOk result (λ command. app_of command ≡ read_app) }
    ensures local { IfOk result (λ command. (out-Command command).has_globals ≡ false) }
{
    let command = interval_command(alloc, "read")?;
    let command = with_option(alloc, command, "where")?;
    let command = with_option(alloc, command, "fields")?;
    let command = with_option(alloc, command, "box")?;
    with_option(alloc, command, "layout")
}

/// `delete`, which wants a `where`.
#[tactic(auto, unfolding(crate::specs::Words::delete_app))]
fn delete_command<'a>(alloc: Global) -> Result<Command<'a>, AllocError>
    ensures app { IfOk result (λ command. app_of command ≡ delete_app) }
    ensures local { IfOk result (λ command. (out-Command command).has_globals ≡ false) }
{
    Command::new(alloc, "delete")
        .arg(option(alloc, "at"))?
        .arg(option(alloc, "where").required(true))
}

/// `consolidate`.
#[tactic(auto, unfolding(crate::specs::Words::consolidate_app))]
fn consolidate_command<'a>(alloc: Global) -> Result<Command<'a>, AllocError>
    ensures app { IfOk result (λ command. app_of command ≡ consolidate_app) }
    ensures local { IfOk result (λ command. (out-Command command).has_globals ≡ false) }
{
    let command = interval_command(alloc, "consolidate")?;
    let command = with_option(alloc, command, "min")?;
    with_option(alloc, command, "max")
}

/// `gen`, whose one word is how many cells there are to be.
#[tactic(auto, unfolding(crate::specs::Words::gen_app))]
fn gen_command<'a>(alloc: Global) -> Result<Command<'a>, AllocError>
    ensures app { IfOk result (λ command. app_of command ≡ gen_app) }
    ensures local { IfOk result (λ command. (out-Command command).has_globals ≡ false) }
{
    Command::new(alloc, "gen").arg(Arg::new(alloc, "cells").required(true))
}

/// `unlock`, `fragments` or `play`, which have no options.
#[tactic(auto, unfolding(crate::specs::Words::bare_app))]
fn bare_command<'a>(alloc: Global, name: &'a str) -> Command<'a>
    ensures app { app_of result ≡ bare_app name.entry.now }
    ensures local { (out-Command result).has_globals ≡ false }
{
    Command::new(alloc, name)
}
