//! What is wrong with boxes, columns and lists of names.

use crate::complaints::{LABEL, at, complain, inside, is_cell, is_label, item_of, quote, unless};
use serde_json::{Number, Value};
use ts_base::{Label, OutOfMemory};

/// Complains of a list of labels under a key.
pub(crate) fn say_of_labels(
    text: &mut String,
    value: &Value,
    key: &str,
) -> Result<bool, OutOfMemory> {
    let Some(labels) = value.get(key) else {
        return Ok(false);
    };
    let Some(labels) = labels.as_array() else {
        return complain(text, at(key), "a list of names is wanted");
    };
    let mut number: u64 = 0;
    for label in labels.as_slice() {
        number = number.saturating_add(1);
        if unless(text, is_label(label), item_of(key, number), LABEL)? {
            return Ok(true);
        }
    }
    Ok(false)
}

/// Complains of a box.
pub(crate) fn say_of_box(text: &mut String, value: &Value) -> Result<bool, OutOfMemory> {
    let Some(sub) = value.get("box") else {
        return Ok(false);
    };
    let Some(members) = sub.as_object() else {
        return complain(
            text,
            at("box"),
            "an object from names of dimensions to lists of two whole numbers is wanted",
        );
    };
    for (name, bounds) in members.iter() {
        let place = inside(at("box"), name.as_str());
        if Label::new(name.as_str()).is_none() {
            return complain(text, place, LABEL);
        }
        let wanted =
            "a low and a high bound are wanted, two whole numbers of which the low one is not above the high one";
        if unless(text, are_bounds(bounds), place, wanted)? {
            return Ok(true);
        }
    }
    Ok(false)
}

// Whether a value is a list of a low and a high bound.
fn are_bounds(value: &Value) -> bool {
    let Some(bounds) = value.as_array() else {
        return false;
    };
    match bounds.as_slice() {
        [low, high] => {
            match (
                low.as_number().and_then(Number::as_i128),
                high.as_number().and_then(Number::as_i128),
            ) {
                (Some(low), Some(high)) => low <= high,
                _ => false,
            }
        }
        _ => false,
    }
}

/// Complains of the columns of a write: each is a list of values, at least one.
pub(crate) fn say_of_columns(text: &mut String, value: &Value) -> Result<bool, OutOfMemory> {
    let Some(cols) = value.get("cols") else {
        return Ok(false);
    };
    let Some(members) = cols.as_object() else {
        return complain(
            text,
            at("cols"),
            "an object from names to lists of values is wanted",
        );
    };
    for (name, values) in members.iter() {
        if say_of_column(text, name.as_str(), values)? {
            return Ok(true);
        }
    }
    Ok(false)
}

// Complains of a column.
fn say_of_column(text: &mut String, name: &str, values: &Value) -> Result<bool, OutOfMemory> {
    let place = inside(at("cols"), name);
    if Label::new(name).is_none() {
        return complain(text, place, LABEL);
    }
    let Some(values) = values.as_array() else {
        return complain(text, place, "a list of values is wanted");
    };
    if values.is_empty() {
        return complain(text, place, "at least one value is wanted");
    }
    let mut number: u64 = 0;
    for value in values.as_slice() {
        number = number.saturating_add(1);
        if !is_cell(value) {
            text.push_str("\"cols\", ")?;
            quote(text, name)?;
            write!(text, ", item {number}: ")?;
            text.push_str("a value is null, a whole number from -2^63 to 2^64 - 1, or a text")?;
            return Ok(true);
        }
    }
    Ok(false)
}
