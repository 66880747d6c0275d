//! What is wrong with the object of a command.

use crate::boxes::{say_of_box, say_of_columns, say_of_labels};
use crate::complaints::{at, is_one_of, missing_key, quote, stray_key, unless};
use crate::creates::{say_of_attrs, say_of_create};
use serde_json::Value;
use ts_base::OutOfMemory;

/// Complains of a command of this name: of its name, then of its keys, then of their values.
pub(crate) fn say_of_command(
    text: &mut String,
    name: &str,
    value: &Value,
) -> Result<bool, OutOfMemory> {
    match name {
        "create" => say_of_create(text, value),
        "evolve" => say_of_evolve(text, value),
        "write" => say_of_write(text, value),
        "read" => say_of_read(text, value),
        "delete" => say_of_delete(text, value),
        "consolidate" => say_of_consolidate(text, value),
        "vacuum" => say_of_keys(text, value, "a vacuum", &[], &[]),
        "unlock" => say_of_keys(text, value, "an unlock", &[], &[]),
        "fragments" => say_of_keys(text, value, "fragments", &[], &[]),
        _ => {
            text.push_str("unknown command ")?;
            quote(text, name)?;
            text.push_str(
                "; the commands are create, evolve, write, read, delete, consolidate, vacuum, unlock and fragments",
            )?;
            Ok(true)
        }
    }
}

/// Complains of a key that this command does not have, and of a wanted one that it lacks.
pub(crate) fn say_of_keys(
    text: &mut String,
    value: &Value,
    command: &str,
    own: &[&str],
    wanted: &[&str],
) -> Result<bool, OutOfMemory> {
    match value.as_object() {
        Some(members) => {
            if stray_key(text, members, command, own)? {
                return Ok(true);
            }
        }
        None => {}
    }
    missing_key(text, value, wanted, command, own)
}

/// Complains where a value under a key is none of these texts.
pub(crate) fn say_of_choice(
    text: &mut String,
    value: &Value,
    key: &str,
    choices: &[&str],
    wanted: &str,
) -> Result<bool, OutOfMemory> {
    let Some(found) = value.get(key) else {
        return Ok(false);
    };
    let is_choice = match found.as_str() {
        Some(choice) => is_one_of(choice, choices),
        None => false,
    };
    unless(text, is_choice, at(key), wanted)
}

// Complains of an evolve.
fn say_of_evolve(text: &mut String, value: &Value) -> Result<bool, OutOfMemory> {
    if say_of_keys(text, value, "an evolve", &["add", "drop"], &[])? {
        return Ok(true);
    }
    if value.get("add").is_none() && value.get("drop").is_none() {
        text.push_str("no key \"add\" and no key \"drop\"; an evolve has at least one of the two")?;
        return Ok(true);
    }
    Ok(say_of_attrs(text, value, "add")? || say_of_labels(text, value, "drop")?)
}

// Complains of a write.
fn say_of_write(text: &mut String, value: &Value) -> Result<bool, OutOfMemory> {
    let own = ["cols", "box", "layout"];
    if say_of_keys(text, value, "a write", &own, &["cols"])? {
        return Ok(true);
    }
    Ok(
        say_of_columns(text, value)?
            || say_of_box(text, value)?
            || say_of_choice(
                text,
                value,
                "layout",
                &["row", "col"],
                "the layout of a write is \"row\" or \"col\"",
            )?,
    )
}

// Complains of a read.
fn say_of_read(text: &mut String, value: &Value) -> Result<bool, OutOfMemory> {
    let own = ["from", "to", "box", "where", "fields", "layout"];
    if say_of_keys(text, value, "a read", &own, &[])? {
        return Ok(true);
    }
    Ok(
        say_of_time(text, value, "from")?
            || say_of_time(text, value, "to")?
            || say_of_box(text, value)?
            || say_of_condition(text, value)?
            || say_of_fields(text, value)?
            || say_of_choice(
                text,
                value,
                "layout",
                &["row", "col", "global"],
                "the layout of a read is \"row\", \"col\" or \"global\"",
            )?,
    )
}

// Complains of a delete.
fn say_of_delete(text: &mut String, value: &Value) -> Result<bool, OutOfMemory> {
    if say_of_keys(text, value, "a delete", &["where"], &["where"])? {
        return Ok(true);
    }
    say_of_condition(text, value)
}

// Complains of a consolidation.
fn say_of_consolidate(text: &mut String, value: &Value) -> Result<bool, OutOfMemory> {
    let own = ["from", "to", "min", "max"];
    if say_of_keys(text, value, "a consolidate", &own, &[])? {
        return Ok(true);
    }
    Ok(
        say_of_time(text, value, "from")?
            || say_of_time(text, value, "to")?
            || say_of_limit(text, value, "min")?
            || say_of_limit(text, value, "max")?
            || say_of_limits(text, value)?,
    )
}

// Complains of how many fragments a consolidation takes, at least or at most.
fn say_of_limit(text: &mut String, value: &Value, key: &str) -> Result<bool, OutOfMemory> {
    let limit = limit_in(value, key, 2);
    unless(
        text,
        2 <= limit && limit <= 4096,
        at(key),
        "a consolidate takes a whole number of fragments from 2 to 4,096",
    )
}

// Complains of a least number of fragments that is above the greatest one.
fn say_of_limits(text: &mut String, value: &Value) -> Result<bool, OutOfMemory> {
    unless(
        text,
        limit_in(value, "min", 2) <= limit_in(value, "max", 64),
        at("min"),
        "the least number of fragments is at most the greatest one under \"max\", which is 64 where it is not there",
    )
}

// The number of fragments under a key, this one where the key is not there, and 0 where it is no
// number.
fn limit_in(value: &Value, key: &str, missing: u64) -> u64 {
    match value.get(key) {
        Some(limit) => limit.as_u64().unwrap_or(0),
        None => missing,
    }
}

// Complains of the condition under `where`.
fn say_of_condition(text: &mut String, value: &Value) -> Result<bool, OutOfMemory> {
    match value.get("where") {
        Some(condition) => unless(
            text,
            condition.is_string(),
            at("where"),
            "a condition is a text, as \"temp >= 60\"",
        ),
        None => Ok(false),
    }
}

// Complains of an end of an interval.
fn say_of_time(text: &mut String, value: &Value, key: &str) -> Result<bool, OutOfMemory> {
    match value.get(key) {
        Some(stamp) => unless(
            text,
            stamp.as_u64().is_some(),
            at(key),
            "a timestamp is a whole number from 0 to 2^64 - 1",
        ),
        None => Ok(false),
    }
}

// Complains of the fields of a read: there is at least one.
fn say_of_fields(text: &mut String, value: &Value) -> Result<bool, OutOfMemory> {
    if say_of_labels(text, value, "fields")? {
        return Ok(true);
    }
    let is_empty = match value.get("fields").and_then(Value::as_array) {
        Some(fields) => fields.is_empty(),
        None => false,
    };
    unless(
        text,
        !is_empty,
        at("fields"),
        "at least one field is wanted",
    )
}
