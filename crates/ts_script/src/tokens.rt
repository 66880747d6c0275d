//! From the tokens of a text to a JSON value.
ghost use Rattle.std.specs.Prelude.{◌≡◌, ◌<◌, ◌≤◌, ◌==◌, ℕ, List, true, false, [], ◌∷◌, length, slice_index, Some, None, IfOk, IfSome, OnOk, IsErrOf, IsTrue, map, option_map};
ghost use Rattle.json.specs.Token.{Token as SpecToken};
ghost use Rattle.json.specs.Json.{parse_map};
ghost use Rattle.json.specs.Reads.{token_of};
ghost use Rattle.serde_json.specs.Data.{array, no_members};
ghost use Rattle.serde_json.specs.Find.{of_integer};
ghost use Rattle.serde_json.specs.Read.{read, number_of, number_from, float_of};
ghost use Rattle.serde_json.specs.View.{number_view};
ghost use Rattle.ts_table.specs.Columns.{val_seen};
ghost use Rattle.ts_script.specs.Readings.{value_at, items_from, members_from};
ghost use Rattle.ts_script.specs.Trees.{data_of, view, items_view, members_view};

use crate::cells::Cells;
use crate::forms::FormFault;
use crate::tree::Json;
use fast_float::Numeral;
use json::{Reader, Scratch, Token};
use serde_json::Number;
use std::alloc::Global;
use std::collections::BTreeMap;
use ts_table::Seen;

/// How deep lists and objects may nest.
const MAX_DEPTH: usize = 127;

/// Reads a text as one JSON value (RFC 8259). `Form` comes where it is none, or nests deeper than 127
/// levels; `OutOfMemory` for want of memory.
pub(crate) fn read_text(alloc: Global, text: &str, scratch: &mut Scratch) -> Result<Json, FormFault>
    ensures value { IfOk result (λ value. read text.now ≡ Some (view value)) }
    ensures form { IsErrOf result FormFault.Form → read text.now ≡ None }
{
    let mut reader = Reader::new(text, scratch)?;
    let value = read_value(alloc, &mut reader, MAX_DEPTH)?;
    if reader.next().is_some() {
        return Err(FormFault::Form);
    }
    Ok(value)
}

/// Reads a value that nests no deeper than so many levels.
#[cycle(read)]
fn read_value(alloc: Global, reader: &mut Reader<'_>, depth: usize) -> Result<Json, FormFault>
    ensures value { IfOk result (λ value. value_at depth reader.old ≡ Some (view value, reader.new)) }
    ensures shorter { OnOk result (length reader.new < length reader.old) }
    ensures form { IsErrOf result FormFault.Form → value_at depth reader.old ≡ None }
{
    match reader.next() {
        Some(token) => read_from(alloc, token, reader, depth),
        None => Err(FormFault::Form),
    }
}

/// Reads the value that begins with a token.
#[cycle(read)]
fn read_from(
    alloc: Global,
    token: Token<'_>,
    reader: &mut Reader<'_>,
    depth: usize,
) -> Result<Json, FormFault>
    ensures value { IfOk result (λ value. value_at depth (token_of token.entry ∷ reader.old) ≡ Some (view value, reader.new)) }
    ensures shorter { OnOk result (length reader.new ≤ length reader.old) }
    ensures form { IsErrOf result FormFault.Form → value_at depth (token_of token.entry ∷ reader.old) ≡ None }
{
    match token {
        Token::BeginArray => match depth {
            0 => Err(FormFault::Form),
            _ => read_list(alloc, reader, depth - 1),
        },
        Token::BeginObject => match depth {
            0 => Err(FormFault::Form),
            _ => Ok(Json::Object(read_members(alloc, reader, depth - 1)?)),
        },
        Token::String(text) => Ok(Json::Text(String::from_str(alloc, text)?)),
        Token::Number(text) => match number_in(text) {
            Some(number) => Ok(Json::Number(number)),
            None => Err(FormFault::Form),
        },
        Token::Bool(is) => Ok(Json::Bool(is)),
        Token::Null => Ok(Json::Null),
        Token::EndArray | Token::EndObject | Token::Key(_) | Token::Bad => Err(FormFault::Form),
    }
}

/// Reads a list whose bracket was read, up to its end.
#[cycle(read)]
fn read_list(alloc: Global, reader: &mut Reader<'_>, depth: usize) -> Result<Json, FormFault>
    ensures value { IfOk result (λ value. parse_map array (items_from depth [] reader.old) ≡ Some (view value, reader.new)) }
    ensures shorter { OnOk result (length reader.new < length reader.old) }
    ensures form { IsErrOf result FormFault.Form → items_from depth [] reader.old ≡ None }
{
    let mut cells = Cells::new(alloc);
    'items: while !reader.take_end_array() {
        let Some(token) = reader.next() else {
            return Err(FormFault::Form);
        };
        let Some(seen) = seen_in(token) else {
            let first = read_from(alloc, token, reader, depth)?;
            let rest = read_rest(alloc, first, reader, depth)?;
            return Ok(Json::list(alloc, cells, rest)?);
        };
        cells.push(seen)?;
    }
    Ok(Json::list(alloc, cells, Vec::new(alloc))?)
}

/// Reads the items behind a first one, up to the end of their list.
#[cycle(read)]
fn read_rest(
    alloc: Global,
    first: Json,
    reader: &mut Reader<'_>,
    depth: usize,
) -> Result<Vec<Json>, FormFault>
    ensures value { IfOk result (λ list. items_from depth (view first ∷ []) reader.old ≡ Some (items_view list.items, reader.new)) }
    ensures shorter { OnOk result (length reader.new < length reader.old) }
    ensures form { IsErrOf result FormFault.Form → items_from depth (view first ∷ []) reader.old ≡ None }
{
    let mut list = Vec::new(alloc);
    list.push(first)?;
    'items: while !reader.take_end_array() {
        let item = read_value(alloc, reader, depth)?;
        list.push(item)?;
    }
    Ok(list)
}

/// Reads the members of an object whose brace was read, up to its end.
#[cycle(read)]
fn read_members(
    alloc: Global,
    reader: &mut Reader<'_>,
    depth: usize,
) -> Result<BTreeMap<String, Json>, FormFault>
    ensures value { IfOk result (λ members. members_from depth no_members reader.old ≡ Some (members_view members.entries, reader.new)) }
    ensures shorter { OnOk result (length reader.new < length reader.old) }
    ensures form { IsErrOf result FormFault.Form → members_from depth no_members reader.old ≡ None }
{
    let mut members = BTreeMap::new(alloc);
    'members: while let Some(name) = reader.next_key()? {
        let key = String::from_str(alloc, name)?;
        let value = read_value(alloc, reader, depth)?;
        drop(members.insert(key, value)?);
    }
    Ok(members)
}

/// The plain value that a token is: a null, a whole number or a text.
#[tactic(auto, using(crate::proofs::ReadSteps::plain_values))]
fn seen_in<'a>(token: Token<'a>) -> Option<Seen<'a>>
    ensures { IfSome result (λ seen. (depth : ℕ) → (rest : List SpecToken) → value_at depth (token_of token.entry ∷ rest) ≡ Some (data_of (val_seen seen), rest)) }
{
    match token {
        Token::Null => Some(Seen::Null),
        Token::String(text) => Some(Seen::Bytes(text.as_bytes())),
        Token::Number(text) => match whole_in(text) {
            Some(number) => Some(Seen::Int(number)),
            None => None,
        },
        _ => None,
    }
}

/// The whole number from -2^63 to 2^64 - 1 that the text of a token writes.
fn whole_in(text: &str) -> Option<i128>
    ensures { IfSome result (λ number. number_of text.now ≡ Some (of_integer number)) }
{
    match number_in(text) {
        Some(number) => number.as_i128(),
        None => None,
    }
}

/// The number that the text of a token writes, where it is in range.
fn number_in(text: &str) -> Option<Number>
    ensures { option_map number_view result ≡ number_of text.now }
{
    let bytes = text.as_bytes();
    if has_minus(bytes) {
        below_zero(&Numeral::scan(&bytes[1..]))
    } else {
        above_zero(&Numeral::scan(bytes))
    }
}

/// Whether the bytes begin with a minus sign.
fn has_minus(bytes: &[u8]) -> bool
    ensures is { result ≡ (slice_index bytes.now 0 == 45) }
    ensures some { IsTrue result → 0 < length bytes.now }
{
    !bytes.is_empty() && bytes[0] == b'-'
}

/// The number of a numeral without a sign.
fn above_zero(numeral: &Numeral<'_>) -> Option<Number>
    ensures { option_map number_view result ≡ number_from false numeral.now }
{
    match numeral.to_u64() {
        Some(number) => Number::from_u128(u128::from(number)),
        None => nearest(false, numeral),
    }
}

/// The number of a numeral behind a minus sign.
fn below_zero(numeral: &Numeral<'_>) -> Option<Number>
    ensures { option_map number_view result ≡ number_from true numeral.now }
{
    match numeral.to_i64(true) {
        Some(number) if number < 0 => Number::from_i128(i128::from(number)),
        _ => nearest(true, numeral),
    }
}

/// The float nearest to a numeral, where there is one.
fn nearest(negative: bool, numeral: &Numeral<'_>) -> Option<Number>
    ensures { option_map number_view result ≡ float_of negative numeral.now }
{
    Number::from_f64(numeral.to_float::<f64>(negative))
}
