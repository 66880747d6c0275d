//! Reading a JSON value by its form: which values a form takes, and what they then stand for.
ghost use Rattle.std.specs.Prelude.{◌≡◌, ◌^◌, [], Bool, true, Option, IfOk, IsTrue, map, nat_lt, option_map};
ghost use Rattle.std.specs.List.{list_all};
ghost use Rattle.serde_json.specs.Find.{as_bool, as_str};
ghost use Rattle.serde_json.specs.Data.{Data};
ghost use Rattle.serde_json.specs.View.{items_of};
ghost use Rattle.ts_table.specs.Columns.{val_seen};
ghost use Rattle.ts_script.specs.Trees.{data_of, view, items_view, members_view};
ghost use Rattle.ts_script.specs.Shapes.{integer, unsigned, unsigned_32, required, optional, if_there, list_of, items_onto, both_items, is_one_of, keys_within, has_only, Gives};

use crate::cells::Cells;
use crate::tree::Json;
use json::Invalid;
use serde_json::Number;
use std::alloc::{AllocError, AllocFailed, Global};
use std::collections::BTreeMap;
use ts_base::{OutOfMemory, Sequence};
use ts_table::Seen;

/// Why words, or a JSON value, were not read.
#[derive(Clone, Copy, Debug, PartialEq, Eq)]
pub enum FormFault {
    /// They have another form.
    Form,
    /// There was no memory for what they stand for.
    OutOfMemory,
}

impl From<OutOfMemory> for FormFault {
    ghost use Rattle.ts_script.specs.declared.forms.FormFault.TheVariants.{OutOfMemory as no_memory};

    ghost from_gives = { λ _ e. e ≡ no_memory };

    fn from(_error: OutOfMemory) -> FormFault {
        FormFault::OutOfMemory
    }
}

impl From<AllocError> for FormFault {
    ghost use Rattle.ts_script.specs.declared.forms.FormFault.TheVariants.{OutOfMemory as no_memory};

    ghost from_gives = { λ _ e. e ≡ no_memory };

    fn from(_error: AllocError) -> FormFault {
        FormFault::OutOfMemory
    }
}

impl From<Invalid> for FormFault {
    ghost use Rattle.ts_script.specs.declared.forms.FormFault.TheVariants.{Form as form};

    ghost from_gives = { λ _ e. e ≡ form };

    fn from(_error: Invalid) -> FormFault {
        FormFault::Form
    }
}

impl<T: Drop> From<AllocFailed<T>> for FormFault {
    ghost use Rattle.ts_script.specs.declared.forms.FormFault.TheVariants.{OutOfMemory as no_memory};

    ghost from_gives = { λ _ e. e ≡ no_memory };

    fn from(_error: AllocFailed<T>) -> FormFault {
        FormFault::OutOfMemory
    }
}

/// A type whose values are written as JSON of one form.
///
/// The form is a function from JSON values: it gives what a value stands for, or None where the
/// value has another form.
pub(crate) trait FromJson: Drop + Sized {
    ghost form: { Data → Option Self };

    /// What the type ensures of each of its values.
    ghost typed: { Self → Bool };

    /// Reads a value. `Form` comes exactly where the form gives None.
    fn from_json(alloc: Global, value: &Json) -> Result<Self, FormFault>
        ensures gives { Gives result (form (view value.now)) }
        ensures typed { IfOk result (λ read. IsTrue (typed read)) };
}

/// A whole number from -2^63 to 2^64 - 1.
impl FromJson for i128 {
    ghost form = { integer };

    ghost typed = { λ _. true };

    fn from_json(_alloc: Global, value: &Json) -> Result<i128, FormFault> {
        match value.as_number().and_then(Number::as_i128) {
            Some(number) => Ok(number),
            None => Err(FormFault::Form),
        }
    }
}

/// A whole number from 0 to 2^64 - 1.
impl FromJson for u64 {
    ghost form = { unsigned };

    ghost typed = { λ number. nat_lt number (2 ^ 64) };

    fn from_json(_alloc: Global, value: &Json) -> Result<u64, FormFault> {
        match value.as_number().and_then(Number::as_u64) {
            Some(number) => Ok(number),
            None => Err(FormFault::Form),
        }
    }
}

/// A whole number from 0 to 2^32 - 1.
impl FromJson for u32 {
    ghost form = { unsigned_32 };

    ghost typed = { λ _. true };

    fn from_json(_alloc: Global, value: &Json) -> Result<u32, FormFault> {
        match value.as_number().and_then(Number::as_u64) {
            Some(number) if number <= u64::from(u32::MAX) => Ok(number as u32),
            _ => Err(FormFault::Form),
        }
    }
}

/// A truth value.
impl FromJson for bool {
    ghost form = { as_bool };

    ghost typed = { λ _. true };

    fn from_json(_alloc: Global, value: &Json) -> Result<bool, FormFault> {
        match value.as_bool() {
            Some(is) => Ok(is),
            None => Err(FormFault::Form),
        }
    }
}

/// A type whose values may stand in a list.
pub(crate) trait FromItem: FromJson {
    /// Reads a plain value of a list. `Form` comes exactly where the form gives None.
    fn from_item(alloc: Global, seen: Seen<'_>) -> Result<Self, FormFault>
        ensures gives { Gives result (Self.FromJson.form (data_of (val_seen seen.entry))) }
        ensures typed { IfOk result (λ read. IsTrue (Self.FromJson.typed read)) };
}

impl FromItem for i128 {
    fn from_item(_alloc: Global, seen: Seen<'_>) -> Result<i128, FormFault> {
        match seen {
            Seen::Int(number) => Ok(number),
            _ => Err(FormFault::Form),
        }
    }
}

/// A list whose items all have the form of the item's type.
impl<T: FromItem> FromJson for Sequence<T> {
    ghost form = { list_of T.FromJson.form };

    ghost typed = { list_all T.FromJson.typed };

    fn from_json(alloc: Global, value: &Json) -> Result<Sequence<T>, FormFault> {
        match value {
            Json::Values(cells, rest) => {
                let done = read_cells(alloc, cells)?;
                read_items(alloc, done, rest.as_slice())
            }
            Json::List(items) => read_items(alloc, Sequence::new(alloc), items.as_slice()),
            _ => Err(FormFault::Form),
        }
    }
}

/// Reads each plain value of a list.
fn read_cells<T: FromItem>(alloc: Global, cells: &Cells) -> Result<Sequence<T>, FormFault>
    ensures gives { Gives result (items_onto T.FromJson.form [] (items_of (map data_of cells.now.column))) }
    ensures typed { IfOk result (λ list. IsTrue (list_all T.FromJson.typed list)) }
{
    let mut done = Sequence::new(alloc);
    for place in 0..cells.len() {
        done.push(T::from_item(alloc, cells.at(place))?)?;
    }
    Ok(done)
}

/// Reads each of some items, behind those that are done.
fn read_items<T: FromItem>(
    alloc: Global,
    mut done: Sequence<T>,
    items: &[Json],
) -> Result<Sequence<T>, FormFault>
    requires { IsTrue (list_all T.FromJson.typed done) }
    ensures gives { Gives result (items_onto T.FromJson.form done (items_view items.now)) }
    ensures typed { IfOk result (λ list. IsTrue (list_all T.FromJson.typed list)) }
{
    for item in items {
        done.push(T::from_json(alloc, item)?)?;
    }
    Ok(done)
}

/// Reads the value under a key, which has to be there.
pub(crate) fn required<T: FromJson>(alloc: Global, value: &Json, key: &str) -> Result<T, FormFault>
    ensures gives { Gives result (required T.form key.now (view value.now)) }
    ensures typed { IfOk result (λ read. IsTrue (T.typed read)) }
{
    match value.get(key) {
        Some(found) => T::from_json(alloc, found),
        None => Err(FormFault::Form),
    }
}

/// Reads the value under a key, or takes another where the key is not there.
pub(crate) fn optional<T: FromJson>(
    alloc: Global,
    value: &Json,
    key: &str,
    missing: T,
) -> Result<T, FormFault>
    requires { IsTrue (T.typed missing) }
    ensures gives { Gives result (optional T.form missing key.now (view value.now)) }
    ensures typed { IfOk result (λ read. IsTrue (T.typed read)) }
{
    match value.get(key) {
        Some(found) => T::from_json(alloc, found),
        None => Ok(missing),
    }
}

/// Reads the value under a key, if the key is there.
pub(crate) fn if_there<T: FromJson>(
    alloc: Global,
    value: &Json,
    key: &str,
) -> Result<Option<T>, FormFault>
    ensures { Gives result (if_there T.form key.now (view value.now)) }
{
    match value.get(key) {
        Some(found) => Ok(Some(T::from_json(alloc, found)?)),
        None => Ok(None),
    }
}

/// The text under a key, if there is one.
pub(crate) fn text_under<'a>(value: &'a Json, key: &str) -> Option<&'a str>
    ensures { option_map (λ text. text.now) result ≡ required as_str key.now (view value.now) }
{
    value.get(key).and_then(Json::as_str)
}

/// The two items of a list of two.
pub(crate) fn both_items<T: Copy>(list: &Sequence<T>) -> Option<(T, T)>
    ensures { result ≡ both_items list.now }
{
    match list.as_slice() {
        [first, second] => Some((*first, *second)),
        _ => None,
    }
}

/// Whether a value is an object with no key but the common ones and its own.
pub(crate) fn has_only(value: &Json, common: &[&str], own: &[&str]) -> bool
    ensures { result ≡ has_only (map (λ key. key.now) common.entry.now) (map (λ key. key.now) own.entry.now) (view value.now) }
{
    match value.as_object() {
        Some(members) => keys_within(members, common, own),
        None => false,
    }
}

/// Whether each key is a common one or one of its own.
fn keys_within(members: &BTreeMap<String, Json>, common: &[&str], own: &[&str]) -> bool
    ensures { result ≡ keys_within (map (λ key. key.now) common.entry.now) (map (λ key. key.now) own.entry.now) (members_view members.now.entries) }
{
    for (key, _) in members.iter() {
        if !is_one_of(key.as_str(), common) && !is_one_of(key.as_str(), own) {
            return false;
        }
    }
    true
}

/// Whether a key is one of these.
pub(crate) fn is_one_of(key: &str, known: &[&str]) -> bool
    ensures { result ≡ is_one_of key.now (map (λ key. key.now) known.entry.now) }
{
    for candidate in known {
        if *candidate == key {
            return true;
        }
    }
    false
}
