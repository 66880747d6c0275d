//! What is wrong with a create, and with the attributes of an evolve.

use crate::commands::{say_of_choice, say_of_keys};
use crate::complaints::{
    LABEL, Place, WHOLE, at, complain, inside, is_cell, is_label, is_one_of, is_whole, item_keys,
    item_of, unless,
};
use serde_json::Value;
use ts_base::OutOfMemory;

/// The types of dimensions.
const INTEGERS: [&str; 8] = [
    "int8", "int16", "int32", "int64", "uint8", "uint16", "uint32", "uint64",
];

/// Complains of a create.
pub(crate) fn say_of_create(text: &mut String, value: &Value) -> Result<bool, OutOfMemory> {
    let own = [
        "kind",
        "dims",
        "attrs",
        "cell_order",
        "tile_order",
        "capacity",
    ];
    if say_of_keys(text, value, "a create", &own, &["kind", "dims", "attrs"])? {
        return Ok(true);
    }
    let order = "an order is \"row\" or \"col\"";
    Ok(
        say_of_choice(
            text,
            value,
            "kind",
            &["sparse", "dense"],
            "an array is \"sparse\" or \"dense\"",
        )? || say_of_dims(text, value)?
            || say_of_attrs(text, value, "attrs")?
            || say_of_choice(text, value, "cell_order", &["row", "col"], order)?
            || say_of_choice(text, value, "tile_order", &["row", "col"], order)?
            || say_of_capacity(text, value)?,
    )
}

// Complains of the number of cells in a tile.
fn say_of_capacity(text: &mut String, value: &Value) -> Result<bool, OutOfMemory> {
    let Some(capacity) = value.get("capacity") else {
        return Ok(false);
    };
    let is_capacity = match capacity.as_u64() {
        Some(number) => 1 <= number && number <= 1_000_000,
        None => false,
    };
    unless(
        text,
        is_capacity,
        at("capacity"),
        "a capacity is a whole number from 1 to 1,000,000",
    )
}

// Complains of the dimensions: there is at least one.
fn say_of_dims(text: &mut String, value: &Value) -> Result<bool, OutOfMemory> {
    let Some(dims) = value.get("dims") else {
        return Ok(false);
    };
    let Some(dims) = dims.as_array() else {
        return complain(text, at("dims"), "a list of dimensions is wanted");
    };
    if dims.is_empty() {
        return complain(text, at("dims"), "at least one dimension is wanted");
    }
    let mut number: u64 = 0;
    for dim in dims.as_slice() {
        number = number.saturating_add(1);
        if say_of_dim(text, item_of("dims", number), dim)? {
            return Ok(true);
        }
    }
    Ok(false)
}

// Complains of a dimension.
fn say_of_dim(text: &mut String, place: Place, dim: &Value) -> Result<bool, OutOfMemory> {
    let keys = ["name", "type", "domain", "extent"];
    let allowed = "a dimension has name, type, domain, extent";
    if item_keys(text, place, dim, &keys, &keys, allowed)? {
        return Ok(true);
    }
    Ok(
        say_of_name(text, place, dim)?
            || say_of_type(text, place, dim, false)?
            || say_of_domain(text, place, dim)?
            || say_of_extent(text, place, dim)?,
    )
}

// Complains of a name.
fn say_of_name(text: &mut String, place: Place, value: &Value) -> Result<bool, OutOfMemory> {
    match value.get("name") {
        Some(name) => unless(text, is_label(name), inside(place, "name"), LABEL),
        None => Ok(false),
    }
}

// Complains of a type: that of an attribute may also be text or blob.
fn say_of_type(
    text: &mut String,
    place: Place,
    value: &Value,
    is_attr: bool,
) -> Result<bool, OutOfMemory> {
    let name = match value.get("type").and_then(Value::as_str) {
        Some(name) => name,
        None => "",
    };
    let is_type = is_one_of(name, &INTEGERS) || (is_attr && is_one_of(name, &["text", "blob"]));
    let wanted = if is_attr {
        "a type is int8, int16, int32, int64, uint8, uint16, uint32, uint64, text or blob"
    } else {
        "the type of a dimension is int8, int16, int32, int64, uint8, uint16, uint32 or uint64"
    };
    unless(text, is_type, inside(place, "type"), wanted)
}

// Complains of a domain: it is a list of two whole numbers.
fn say_of_domain(text: &mut String, place: Place, dim: &Value) -> Result<bool, OutOfMemory> {
    let is_domain = match dim.get("domain").and_then(Value::as_array) {
        Some(bounds) => match bounds.as_slice() {
            [low, high] => is_whole(low) && is_whole(high),
            _ => false,
        },
        None => false,
    };
    unless(
        text,
        is_domain,
        inside(place, "domain"),
        "a domain is a list of two whole numbers, the low and the high bound",
    )
}

// Complains of an extent.
fn say_of_extent(text: &mut String, place: Place, dim: &Value) -> Result<bool, OutOfMemory> {
    match dim.get("extent") {
        Some(extent) => unless(text, is_whole(extent), inside(place, "extent"), WHOLE),
        None => Ok(false),
    }
}

/// Complains of the attributes under a key.
pub(crate) fn say_of_attrs(
    text: &mut String,
    value: &Value,
    key: &str,
) -> Result<bool, OutOfMemory> {
    let Some(attrs) = value.get(key) else {
        return Ok(false);
    };
    let Some(attrs) = attrs.as_array() else {
        return complain(text, at(key), "a list of attributes is wanted");
    };
    let mut number: u64 = 0;
    for attr in attrs.as_slice() {
        number = number.saturating_add(1);
        if say_of_attr(text, item_of(key, number), attr)? {
            return Ok(true);
        }
    }
    Ok(false)
}

// Complains of an attribute.
fn say_of_attr(text: &mut String, place: Place, attr: &Value) -> Result<bool, OutOfMemory> {
    let allowed = "an attribute has name, type, nullable, fill";
    let known = ["name", "type", "nullable", "fill"];
    if item_keys(text, place, attr, &known, &["name", "type"], allowed)? {
        return Ok(true);
    }
    Ok(
        say_of_name(text, place, attr)?
            || say_of_type(text, place, attr, true)?
            || say_of_nullable(text, place, attr)?
            || say_of_fill(text, place, attr)?,
    )
}

// Complains of what says whether values may be null.
fn say_of_nullable(text: &mut String, place: Place, attr: &Value) -> Result<bool, OutOfMemory> {
    match attr.get("nullable") {
        Some(nullable) => unless(
            text,
            nullable.is_boolean(),
            inside(place, "nullable"),
            "true or false is wanted",
        ),
        None => Ok(false),
    }
}

// Complains of a fill.
fn say_of_fill(text: &mut String, place: Place, attr: &Value) -> Result<bool, OutOfMemory> {
    match attr.get("fill") {
        Some(fill) => unless(
            text,
            is_cell(fill),
            inside(place, "fill"),
            "a value is null, a whole number from -2^63 to 2^64 - 1, or a text",
        ),
        None => Ok(false),
    }
}
