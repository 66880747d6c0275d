//! Scripts: bytes to lines, or to the first line that is none.
ghost use Rattle.std.specs.Prelude.{◌≡◌, Some, None, Ok, Err, IfOk, IsErrOf, IsTrue, take};
ghost use Rattle.ts_script.specs.Trees.{view};
ghost use Rattle.ts_script.specs.Shapes.{Gives};
ghost use Rattle.ts_model.specs.Jobs.{IsFitLine};
ghost use Rattle.ts_script.specs.Script.{byte_limit, is_blank, json_of, line_in, line_at, with_line, script_of, object_in, object_command, IsScript, AreLimited};
ghost use Rattle.ts_model.specs.Commands.{fits};

use crate::fitting::fits;
use crate::forms::FormFault;
use crate::lines::{read_form, read_line_form};
use crate::parts::next_part;
use crate::tokens::read_text;
use crate::tree::Json;
use crate::words::ObjectForm;
use json::Scratch;
use std::alloc::Global;
use thiserror::Error;
use ts_base::OutOfMemory;
use ts_model::{Command, Line, LineList};

/// How many bytes a script may have: 64 MiB.
const BYTE_LIMIT: usize = 1 << 26;

/// How many commands a script may have.
const COMMAND_LIMIT: u64 = 4096;

/// Why bytes are no script. Lines are numbered from 1.
#[derive(Clone, Copy, Debug, PartialEq, Eq, Error)]
pub enum ScriptFault {
    /// The first line that is no command, or that goes past a limit. Of the input of a single
    /// command it is line 1.
    #[error("line {line} is bad")]
    Bad {
        /// The number of the line.
        line: u64,
    },
    /// There was no memory for the lines.
    #[error("out of memory")]
    OutOfMemory,
}

impl From<OutOfMemory> for ScriptFault {
    ghost use Rattle.ts_script.specs.declared.script.ScriptFault.TheVariants.{OutOfMemory as no_memory};

    ghost from_gives = { λ _ e. e ≡ no_memory };

    fn from(_error: OutOfMemory) -> ScriptFault {
        ScriptFault::OutOfMemory
    }
}

/// Whether a line has spaces and tabs alone.
fn is_blank(bytes: &[u8]) -> bool
    ensures { result ≡ is_blank bytes.now }
{
    bytes.iter().all(|byte| *byte == b' ' || *byte == b'\t')
}

/// Reads a script: its lines, or the first line that is none. Blank lines are passed over.
///
/// A script is text in UTF-8 of at most 64 MiB and 4,096 commands, each a JSON object (RFC 8259)
/// on a line of its own. The last line may lack its line feed.
#[tactic(auto, unfolding(crate::specs::Script::script_of))]
pub fn read_script(alloc: Global, input: &[u8]) -> Result<LineList, ScriptFault>
    ensures script { IsScript result (script_of input.now) }
    ensures limited { IfOk result AreLimited }
{
    let mut rest = within_limit(input);
    let mut lines = LineList::new(alloc);
    let mut scratch = Scratch::new(alloc);
    let mut number = 1;
    while let Some((piece, others)) = next_part(rest, b'\n') {
        lines = with_line(alloc, &mut scratch, number, lines, piece)?;
        rest = others;
        number += 1;
    }
    if input.len() > BYTE_LIMIT {
        return Err(ScriptFault::Bad { line: number });
    }
    with_line(alloc, &mut scratch, number, lines, rest)
}

/// The bytes up to the limit.
#[tactic(auto, using(std::proofs::lemmas::List::take_min))]
fn within_limit(input: &[u8]) -> &[u8]
    ensures { result.now ≡ take byte_limit input.now }
{
    &input[..BYTE_LIMIT.min(input.len())]
}

/// The lines before a line, and what its bytes stand for.
#[tactic(auto, unfolding(crate::specs::Script::with_line))]
fn with_line(
    alloc: Global,
    scratch: &mut Scratch,
    number: u64,
    mut lines: LineList,
    bytes: &[u8],
) -> Result<LineList, ScriptFault>
    requires { AreLimited lines }
    ensures script { IsScript result (with_line number lines bytes.now) }
    ensures limited { IfOk result AreLimited }
{
    if is_blank(bytes) {
        return Ok(lines);
    }
    if lines.len() == COMMAND_LIMIT {
        return Err(ScriptFault::Bad { line: number });
    }
    let line = read_line(alloc, scratch, number, bytes)?;
    lines.push(line)?;
    Ok(lines)
}

/// Reads the bytes of a line.
#[tactic(auto, unfolding(crate::specs::Script::line_at))]
fn read_line(
    alloc: Global,
    scratch: &mut Scratch,
    number: u64,
    bytes: &[u8],
) -> Result<Line, ScriptFault>
    ensures script { IsScript result (line_at number bytes.now) }
    ensures fit { IfOk result IsFitLine }
{
    match line_in(alloc, scratch, bytes) {
        Ok(line) => Ok(line),
        Err(FormFault::Form) => Err(ScriptFault::Bad { line: number }),
        Err(FormFault::OutOfMemory) => Err(ScriptFault::OutOfMemory),
    }
}

/// Reads the line that bytes stand for.
#[tactic(auto, unfolding(crate::specs::Script::line_in))]
fn line_in(alloc: Global, scratch: &mut Scratch, bytes: &[u8]) -> Result<Line, FormFault>
    ensures gives { Gives result (line_in bytes.now) }
    ensures fit { IfOk result IsFitLine }
{
    let mut value = read_json(alloc, scratch, bytes)?;
    read_line_form(alloc, &mut value)
}

/// Reads bytes as one JSON value (RFC 8259).
#[tactic(auto, using(crate::proofs::Texts::text_tests), unfolding(crate::specs::Script::json_of))]
pub(crate) fn read_json(
    alloc: Global,
    scratch: &mut Scratch,
    bytes: &[u8],
) -> Result<Json, FormFault>
    ensures value { IfOk result (λ value. json_of bytes.now ≡ Some (view value)) }
    ensures form { IsErrOf result FormFault.Form → json_of bytes.now ≡ None }
{
    let Ok(text) = str::from_utf8(bytes) else {
        return Err(FormFault::Form);
    };
    read_text(alloc, text, scratch)
}

/// Reads the input of a single command: one JSON object of at most 64 MiB, with the keys that a line
/// of a script has for this command, but `lane`, `cmd`, `at` and `stop`. It may stand on several
/// lines. One that is of another form is bad at line 1.
#[tactic(auto, unfolding(crate::specs::Script::object_in))]
pub fn read_object(alloc: Global, form: ObjectForm, input: &[u8]) -> Result<Command, ScriptFault>
    ensures object { IsScript result (object_in form input.now) }
    ensures fit { IfOk result (λ command. IsTrue (fits command)) }
{
    if input.len() > BYTE_LIMIT {
        return Err(ScriptFault::Bad { line: 1 });
    }
    match object_command(alloc, form, input) {
        Ok(command) => Ok(command),
        Err(FormFault::Form) => Err(ScriptFault::Bad { line: 1 }),
        Err(FormFault::OutOfMemory) => Err(ScriptFault::OutOfMemory),
    }
}

/// Reads the command of an object.
#[tactic(auto, unfolding(crate::specs::Script::object_command))]
fn object_command(alloc: Global, form: ObjectForm, input: &[u8]) -> Result<Command, FormFault>
    ensures gives { Gives result (object_command form input.now) }
    ensures fit { IfOk result (λ command. IsTrue (fits command)) }
{
    let mut scratch = Scratch::new(alloc);
    let mut value = read_json(alloc, &mut scratch, input)?;
    let command = read_form(alloc, form, &mut value)?;
    if !fits(&command) {
        return Err(FormFault::Form);
    }
    Ok(command)
}
