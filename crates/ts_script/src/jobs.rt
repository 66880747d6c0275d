//! What is asked for, with its input: the lines that are to be done.
ghost use Rattle.std.specs.Prelude.{◌≡◌, [], ◌∷◌, IfOk};
ghost use Rattle.ts_model.specs.Jobs.{IsFitLine};
ghost use Rattle.ts_script.specs.Meanings.{IsFitAsked, has_input, meaning, report_of};
ghost use Rattle.ts_script.specs.Script.{AreLimited, IsScript};

use crate::generator::gen_script;
use crate::script::{ScriptFault, read_object, read_script};
use crate::words::{Asked, Report, line_alone};
use std::alloc::Global;
use ts_base::OutOfMemory;
use ts_model::{Line, LineList};

impl Asked {
    /// Whether it has an input: a script, or the object of a single command.
    pub fn has_input(&self) -> bool
        ensures { result ≡ has_input self.now }
    {
        match self {
            Asked::Command(_) | Asked::Generate { .. } => false,
            _ => true,
        }
    }

    /// What is printed of how its commands came out.
    pub fn report(&self) -> Report
        ensures { result ≡ report_of self.now }
    {
        match self {
            Asked::Play => Report::Script,
            Asked::Object { .. } | Asked::Command(_) => Report::Single,
            Asked::Generate { .. } => Report::Summary,
        }
    }
}

/// The lines that are asked for. They are read from their input, which counts for nothing where there is
/// none. A single command is one line, in lane 0; the lines of the generator are made.
pub fn read_lines(alloc: Global, asked: Asked, input: &[u8]) -> Result<LineList, ScriptFault>
    requires { IsFitAsked asked }
    ensures lines { IsScript result (meaning asked input.now) }
    ensures limited { IfOk result AreLimited }
{
    match asked {
        Asked::Play => read_script(alloc, input),
        Asked::Object { form, at } => {
            let command = read_object(alloc, form, input)?;
            Ok(one_line(alloc, line_alone(command, at, false))?)
        }
        Asked::Command(line) => Ok(one_line(alloc, line)?),
        Asked::Generate { cells } => Ok(gen_script(alloc, cells)?),
    }
}

/// The list of one line.
fn one_line(alloc: Global, line: Line) -> Result<LineList, OutOfMemory>
    requires { IsFitLine line }
    ensures is { IfOk result (λ lines. lines ≡ line ∷ []) }
    ensures limited { IfOk result AreLimited }
{
    let mut lines = LineList::new(alloc);
    lines.push(line)?;
    Ok(lines)
}
