//! JSON values, with lists of plain values in columns.
ghost use Rattle.std.specs.Prelude.{◌≡◌, ◌++◌, IfOk, map, option_map};
ghost use Rattle.serde_json.specs.Data.{array};
ghost use Rattle.serde_json.specs.Find.{get, as_bool, as_number, as_str, as_object, get_member};
ghost use Rattle.serde_json.specs.View.{number_view, items_of};
ghost use Rattle.ts_script.specs.Trees.{data_of, view, members_view};

use crate::cells::Cells;
use serde_json::Number;
use std::alloc::Global;
use std::collections::BTreeMap;
use ts_base::OutOfMemory;

/// A JSON value (RFC 8259).
///
/// The plain values at the front of a list stand in a column, where they take far less memory.
#[derive(Drop)]
pub(crate) enum Json {
    /// Null.
    Null,
    /// A truth value.
    Bool(bool),
    /// A number.
    Number(Number),
    /// A text.
    Text(String),
    /// A list: its plain values at the front, and the items behind them.
    Values(Box<Cells>, Vec<Json>),
    /// A list of any values.
    List(Vec<Json>),
    /// An object, in the order of its keys.
    Object(BTreeMap<String, Json>),
}

impl Json {
    /// The list of these plain values and the items behind them.
    pub(crate) fn list(alloc: Global, cells: Cells, rest: Vec<Json>) -> Result<Json, OutOfMemory>
        ensures { IfOk result (λ value. view value ≡ array (items_of (map data_of cells.column ++ map view rest.items))) }
    {
        if cells.is_empty() {
            return Ok(Json::List(rest));
        }
        Ok(Json::Values(Box::new(alloc, cells)?, rest))
    }

    /// The value under a key, where it is an object that has the key.
    pub(crate) fn get(&self, key: &str) -> Option<&Json>
        ensures { option_map (λ found. view found.now) result ≡ get key.now (view self.now) }
    {
        match self {
            Json::Object(members) => member(members, key),
            _ => None,
        }
    }

    /// Takes the value under a key, where it is an object that has the key.
    pub(crate) fn take(&mut self, key: &str) -> Option<Json>
        ensures { option_map view result ≡ get key.now (view self.old) }
    {
        match self {
            Json::Object(members) => take_member(members, key),
            _ => None,
        }
    }

    /// The truth value that it is.
    pub(crate) fn as_bool(&self) -> Option<bool>
        ensures { result ≡ as_bool (view self.now) }
    {
        match self {
            Json::Bool(is) => Some(*is),
            _ => None,
        }
    }

    /// The number that it is.
    pub(crate) fn as_number(&self) -> Option<&Number>
        ensures { option_map (λ number. number_view number.now) result ≡ as_number (view self.now) }
    {
        match self {
            Json::Number(number) => Some(number),
            _ => None,
        }
    }

    /// The text that it is.
    pub(crate) fn as_str(&self) -> Option<&str>
        ensures { option_map (λ text. text.now) result ≡ as_str (view self.now) }
    {
        match self {
            Json::Text(text) => Some(text.as_str()),
            _ => None,
        }
    }

    /// The members of the object that it is.
    pub(crate) fn as_object(&self) -> Option<&BTreeMap<String, Json>>
        ensures { option_map (λ members. members_view members.now.entries) result ≡ as_object (view self.now) }
    {
        match self {
            Json::Object(members) => Some(members),
            _ => None,
        }
    }
}

/// The value under a key, among the members of an object.
fn member<'a>(members: &'a BTreeMap<String, Json>, key: &str) -> Option<&'a Json>
    ensures { option_map (λ found. view found.now) result ≡ get_member key.now (members_view members.now.entries) }
{
    members.get(key)
}

/// Takes the value under a key, among the members of an object.
fn take_member(members: &mut BTreeMap<String, Json>, key: &str) -> Option<Json>
    ensures { option_map view result ≡ get_member key.now (members_view members.old.entries) }
{
    members.remove(key)
}
