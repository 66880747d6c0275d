//! How a complaint is put: where in the line it is, and what is wanted there.

use serde_json::{Map, Number, Value};
use ts_base::{Label, OutOfMemory};

/// What a label is.
pub(crate) const LABEL: &str =
    "a label is a letter and then letters, digits and _, 64 at most, and none of the words and, or, not, in, is, null";

/// What a whole number is.
pub(crate) const WHOLE: &str = "a whole number from -2^63 to 2^64 - 1 is wanted";

/// The keys that every command may have.
const COMMON: [&str; 4] = ["cmd", "lane", "at", "stop"];

/// How much of a text of the script is shown.
const SHOWN: usize = 64;

/// A place in a line: the value under a key, in it an item, and in that one the value under a key.
#[derive(Clone, Copy)]
pub(crate) struct Place<'a> {
    /// The key.
    pub key: &'a str,
    /// The number of the item, counted from 1, or 0 for the whole value.
    pub item: u64,
    /// The key in the item, or no text for the whole item.
    pub inner: &'a str,
}

/// The whole value under a key.
pub(crate) fn at<'a>(key: &'a str) -> Place<'a> {
    Place {
        key,
        item: 0,
        inner: "",
    }
}

/// An item of the value under a key.
pub(crate) fn item_of<'a>(key: &'a str, item: u64) -> Place<'a> {
    Place {
        key,
        item,
        inner: "",
    }
}

/// The value under a key in an item, or under a key of an object.
pub(crate) fn inside<'a>(place: Place<'a>, inner: &'a str) -> Place<'a> {
    Place {
        key: place.key,
        item: place.item,
        inner,
    }
}

/// Adds a text of the script between double quotes, cut to a length that can be read. Control
/// characters are shown as question marks.
pub(crate) fn quote(text: &mut String, shown: &str) -> Result<(), OutOfMemory> {
    text.push_str("\"")?;
    let mut count: usize = 0;
    for character in shown.chars() {
        if count >= SHOWN {
            text.push_str("..")?;
            break;
        }
        count = count.saturating_add(1);
        if character.is_control() {
            text.push_str("?")?;
        } else {
            text.push(character)?;
        }
    }
    text.push_str("\"")?;
    Ok(())
}

/// Adds where the complaint is.
fn locate(text: &mut String, place: Place) -> Result<(), OutOfMemory> {
    quote(text, place.key)?;
    if place.item > 0 {
        let item = place.item;
        write!(text, ", item {item}")?;
    }
    if !place.inner.is_empty() {
        text.push_str(", ")?;
        quote(text, place.inner)?;
    }
    text.push_str(": ")?;
    Ok(())
}

/// Complains that another value is wanted. It gives true, as each function does that complained.
pub(crate) fn complain(text: &mut String, place: Place, wanted: &str) -> Result<bool, OutOfMemory> {
    locate(text, place)?;
    text.push_str(wanted)?;
    Ok(true)
}

/// Complains where a value fails its test.
pub(crate) fn unless(
    text: &mut String,
    is_right: bool,
    place: Place,
    wanted: &str,
) -> Result<bool, OutOfMemory> {
    if is_right {
        return Ok(false);
    }
    complain(text, place, wanted)
}

/// Whether a value is a label.
pub(crate) fn is_label(value: &Value) -> bool {
    match value.as_str() {
        Some(name) => Label::new(name).is_some(),
        None => false,
    }
}

/// Whether a value is a whole number from -2^63 to 2^64 - 1.
pub(crate) fn is_whole(value: &Value) -> bool {
    value.as_number().and_then(Number::as_i128).is_some()
}

/// Whether a value is one of a cell: null, a whole number or a text.
pub(crate) fn is_cell(value: &Value) -> bool {
    value.is_null() || value.is_string() || is_whole(value)
}

/// Whether a text is one of these.
pub(crate) fn is_one_of(name: &str, known: &[&str]) -> bool {
    for candidate in known {
        if *candidate == name {
            return true;
        }
    }
    false
}

/// Adds which keys a command may have: its own ones, and those of every command.
fn list_keys(text: &mut String, command: &str, own: &[&str]) -> Result<(), OutOfMemory> {
    write!(text, "; {command} has ")?;
    for key in own {
        text.push_str(*key)?;
        text.push_str(", ")?;
    }
    text.push_str("lane, at, stop")?;
    Ok(())
}

/// Complains of the first key that this command does not have.
pub(crate) fn stray_key(
    text: &mut String,
    members: &Map<String, Value>,
    command: &str,
    own: &[&str],
) -> Result<bool, OutOfMemory> {
    for (key, _) in members.iter() {
        if !is_one_of(key.as_str(), &COMMON) && !is_one_of(key.as_str(), own) {
            text.push_str("unknown key ")?;
            quote(text, key.as_str())?;
            list_keys(text, command, own)?;
            return Ok(true);
        }
    }
    Ok(false)
}

/// Complains of the first of the wanted keys of this command that is not there.
pub(crate) fn missing_key(
    text: &mut String,
    value: &Value,
    wanted: &[&str],
    command: &str,
    own: &[&str],
) -> Result<bool, OutOfMemory> {
    for key in wanted {
        if value.get(*key).is_none() {
            text.push_str("no key ")?;
            quote(text, *key)?;
            list_keys(text, command, own)?;
            return Ok(true);
        }
    }
    Ok(false)
}

/// Complains of the keys of an object in an item: of a value that is none, of a stray key, and of one
/// that is missing.
pub(crate) fn item_keys(
    text: &mut String,
    place: Place,
    value: &Value,
    known: &[&str],
    wanted: &[&str],
    allowed: &str,
) -> Result<bool, OutOfMemory> {
    let Some(members) = value.as_object() else {
        return complain(text, place, "an object is wanted");
    };
    for (key, _) in members.iter() {
        if !is_one_of(key.as_str(), known) {
            locate(text, place)?;
            text.push_str("unknown key ")?;
            quote(text, key.as_str())?;
            text.push_str("; ")?;
            text.push_str(allowed)?;
            return Ok(true);
        }
    }
    for key in wanted {
        if value.get(*key).is_none() {
            locate(text, place)?;
            text.push_str("no key ")?;
            quote(text, *key)?;
            text.push_str("; ")?;
            text.push_str(allowed)?;
            return Ok(true);
        }
    }
    Ok(false)
}
