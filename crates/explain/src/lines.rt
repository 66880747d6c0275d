//! What is wrong with a line that is no command.

use crate::commands::say_of_command;
use crate::complaints::{at, complain, is_one_of, unless};
use serde_json::{Category, Value};
use std::alloc::Global;
use ts_base::OutOfMemory;

/// The names of the points that a command may be stopped before.
const POINTS: [&str; 3] = ["vac", "wrt", "part"];

/// Adds what is wrong with the bytes of a line.
pub(crate) fn say_of_line(
    alloc: Global,
    text: &mut String,
    bytes: &[u8],
) -> Result<(), OutOfMemory> {
    let Ok(line) = str::from_utf8(bytes) else {
        text.push_str("the line is not UTF-8")?;
        return Ok(());
    };
    match Value::from_str(alloc, line) {
        Ok(value) => say_of_value(text, &value),
        Err(error) => match error.classify() {
            Category::Memory => Err(OutOfMemory),
            Category::Eof => say_of_cut_line(text, bytes),
            _ => say_of_no_json(text, bytes, error.column()),
        },
    }
}

// What is wrong with a line that ends too early.
fn say_of_cut_line(text: &mut String, bytes: &[u8]) -> Result<(), OutOfMemory> {
    let is_blank = bytes
        .iter()
        .all(|byte| *byte == b' ' || *byte == b'\t' || *byte == b'\r');
    if is_blank {
        text.push_str("a blank line has spaces and tabs alone, and no carriage return")?;
    } else {
        text.push_str("the line ends before its JSON value does; a command stands on one line")?;
    }
    Ok(())
}

// What is wrong with a line whose bytes are no JSON from this one on, counted from 1.
fn say_of_no_json(text: &mut String, bytes: &[u8], column: usize) -> Result<(), OutOfMemory> {
    if bytes.starts_with(&[0xEF, 0xBB, 0xBF]) {
        text.push_str("the line begins with a byte order mark")?;
    } else {
        write!(
            text,
            "the line cannot be read as JSON from byte {column} on"
        )?;
    }
    Ok(())
}

// What is wrong with a JSON value that is no command.
fn say_of_value(text: &mut String, value: &Value) -> Result<(), OutOfMemory> {
    if !value.is_object() {
        text.push_str("a line is one JSON object")?;
        return Ok(());
    }
    let Some(name) = value.get("cmd") else {
        text.push_str(
            "no key \"cmd\"; it names the command: create, evolve, write, read, delete, consolidate, vacuum, unlock or fragments",
        )?;
        return Ok(());
    };
    let Some(name) = name.as_str() else {
        complain(text, at("cmd"), "the name of a command is wanted")?;
        return Ok(());
    };
    if say_of_command(text, name, value)?
        || say_of_stamp(text, value)?
        || say_of_stop(text, value)?
    {
        return Ok(());
    }
    // (the functions above name whatever the reader refuses, so that this is for a key that they do not know yet)
    text.push_str("the line is no command")?;
    Ok(())
}

// Complains of the lane and of the stamp.
fn say_of_stamp(text: &mut String, value: &Value) -> Result<bool, OutOfMemory> {
    if let Some(lane) = value.get("lane") {
        let is_lane = match lane.as_u64() {
            Some(number) => number < 8,
            None => false,
        };
        if unless(
            text,
            is_lane,
            at("lane"),
            "a lane is a whole number from 0 to 7",
        )? {
            return Ok(true);
        }
    }
    match value.get("at") {
        Some(stamp) => unless(
            text,
            stamp.as_u64().is_some(),
            at("at"),
            "a timestamp is a whole number from 0 to 2^64 - 1",
        ),
        None => Ok(false),
    }
}

// Complains of the stop.
fn say_of_stop(text: &mut String, value: &Value) -> Result<bool, OutOfMemory> {
    let Some(stop) = value.get("stop") else {
        return Ok(false);
    };
    let is_stop = match stop.as_str() {
        Some(point) => is_one_of(point, &POINTS),
        None => stop.as_u64().is_some(),
    };
    unless(
        text,
        is_stop,
        at("stop"),
        "a stop is a whole number of calls from 0 to 2^64 - 1, \"vac\", \"wrt\" or \"part\"",
    )
}
