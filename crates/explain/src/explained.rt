//! What is said of a script.
ghost use Rattle.std.specs.Prelude.{◌≡◌, List, Result, Err};
ghost use Rattle.ts_model.specs.declared.commands.Line.{Line as AnyLine};
ghost use Rattle.ts_script.specs.Script.{Fault, Bad, script_of};
ghost use Rattle.explain.specs.Explained.{Explains};

use crate::lines::say_of_line;
use std::alloc::Global;
use ts_base::OutOfMemory;
use ts_script::{ScriptFault, read_script};

/// How many bytes a script may have: 64 MiB.
const BYTE_LIMIT: usize = 1 << 26;

/// How many commands a script may have.
const COMMAND_LIMIT: u64 = 4096;

/// What is wrong with the first line that is no command.
#[derive(Debug, Drop)]
pub struct Explained {
    /// The number of the line, counted from 1.
    pub line: u64,
    /// What is said of it, with its line feed.
    pub text: String,
}

/// Says what is wrong with a script: nothing exactly where it is one.
pub fn explain(alloc: Global, input: &[u8]) -> Result<Option<Explained>, OutOfMemory>
    ensures { Explains result (script_of input.now) }
{
    match read_script(alloc, input) {
        Ok(_) => Ok(None),
        Err(ScriptFault::Bad { line }) => said(alloc, input, line),
        Err(ScriptFault::OutOfMemory) => Err(OutOfMemory),
    }
}

// What is said of a line of a script that is no command.
fn said(alloc: Global, input: &[u8], line: u64) -> Result<Option<Explained>, OutOfMemory>
    ensures { (script : Result (List AnyLine) Fault) → script ≡ Err (Bad line) → Explains result script }
{
    let mut text = String::new(alloc);
    write!(text, "line {line}: ")?;
    say_of_input(alloc, &mut text, input, line)?;
    text.push_str("\n")?;
    Ok(Some(Explained { line, text }))
}

// Adds what is wrong with a line of a script: that it goes past a limit, or what its bytes are.
fn say_of_input(
    alloc: Global,
    text: &mut String,
    input: &[u8],
    line: u64,
) -> Result<(), OutOfMemory> {
    if is_past(input, line) {
        text.push_str("the script goes past 64 MiB in this line")?;
        return Ok(());
    }
    let (bytes, commands) = line_in(input, line);
    if commands >= COMMAND_LIMIT {
        text.push_str("a script has at most 4,096 commands")?;
        return Ok(());
    }
    say_of_line(alloc, text, bytes)
}

// The bytes up to the limit.
fn within_limit(input: &[u8]) -> &[u8] {
    &input[..BYTE_LIMIT.min(input.len())]
}

// The bytes of a line that are within the limit, and how many lines before it are not blank.
fn line_in(input: &[u8], line: u64) -> (&[u8], u64) {
    let mut rest = within_limit(input);
    let mut commands: u64 = 0;
    for _ in 1..line {
        let (bytes, others) = cut(rest);
        if !bytes.iter().all(|byte| *byte == b' ' || *byte == b'\t') {
            commands = commands.saturating_add(1);
        }
        rest = others;
    }
    let (bytes, _) = cut(rest);
    (bytes, commands)
}

// The bytes before the first line feed, and those behind it.
fn cut(bytes: &[u8]) -> (&[u8], &[u8]) {
    match bytes.iter().position(|byte| *byte == b'\n') {
        Some(end) => (&bytes[..end], &bytes[end + 1..]),
        None => (bytes, &[]),
    }
}

// Whether the script goes past its limit in this line, which is its last one within the limit.
fn is_past(input: &[u8], line: u64) -> bool {
    if input.len() <= BYTE_LIMIT {
        return false;
    }
    let mut number: u64 = 1;
    for byte in within_limit(input) {
        if *byte == b'\n' {
            number = number.saturating_add(1);
        }
    }
    number == line
}
