//! The texts of options: numbers, lists of fields, and boxes.
ghost use Rattle.std.specs.Prelude.{◌≡◌, ◌≤◌, ◌<◌, ◌^◌, [], map, nat_lt, IsTrue, length, option_map, position, IfOk, IfSome};
ghost use Rattle.std.specs.Char.{is_ascii_digit};
ghost use Rattle.std.specs.List.{list_all};
ghost use Rattle.ts_base.specs.Labels.{is_label};
ghost use Rattle.ts_script.specs.Generator.{IsCellCount};
ghost use Rattle.ts_script.specs.Shapes.{Gives, both_items, when};
ghost use Rattle.ts_script.specs.Options.{begins_with_zero, cell_count_of, number_from, is_number_text, number_of, is_number_byte, integer_of, labels_onto, labels_of, three_items, bounds_of, named_box_of, has_name, is_below, place_of, placed, boxes_onto, boxes_of};

use crate::forms::{FormFault, FromJson};
use crate::parts::parts_at;
use crate::script::read_json;
use json::Scratch;
use std::alloc::Global;
use ts_base::{Label, LabelList};
use ts_cond::{NamedBox, NamedBoxList};

/// The most cells that a generated script brings.
const MOST_CELLS: u64 = 100_000;

/// A number below 2^64, in 1 to 20 decimal digits.
#[tactic(auto, unfolding(crate::specs::Options::number_of))]
pub(crate) fn number_of(text: &[u8]) -> Option<u64>
    ensures { result ≡ number_of text.now }
{
    if !is_number_text(text) {
        return None;
    }
    narrow(decimal(text))
}

/// How many cells a generated script brings: a number from 1 to 100,000, in decimal digits with no
/// zero before them.
#[tactic(auto, unfolding(crate::specs::Options::cell_count_of))]
pub(crate) fn cell_count_of(text: &[u8]) -> Option<u32>
    ensures is { result ≡ cell_count_of text.now }
    ensures fit { IfSome result IsCellCount }
{
    if begins_with_zero(text) {
        return None;
    }
    let cells = number_of(text)?;
    if 0 < cells && cells <= MOST_CELLS {
        Some(cells as u32)
    } else {
        None
    }
}

/// Whether a text begins with a zero.
fn begins_with_zero(text: &[u8]) -> bool
    ensures { result ≡ begins_with_zero text.now }
{
    matches!(text, [b'0', ..])
}

/// Whether a text is 1 to 20 decimal digits.
fn is_number_text(text: &[u8]) -> bool
    ensures is { result ≡ is_number_text text.now }
    ensures few { IsTrue result → length text.now ≤ 20 }
{
    0 < text.len() && text.len() <= 20 && are_digits(text)
}

/// Whether each byte is a digit.
fn are_digits(text: &[u8]) -> bool
    ensures { result ≡ list_all is_ascii_digit text.now }
{
    text.iter().all(|byte| byte.is_ascii_digit())
}

/// A number, if it is below 2^64.
fn narrow(number: u128) -> Option<u64>
    ensures { result ≡ when (nat_lt number (2 ^ 64)) number }
{
    if number <= u128::from(u64::MAX) {
        Some(number as u64)
    } else {
        None
    }
}

/// The number that at most 20 digits write.
fn decimal(digits: &[u8]) -> u128
    requires { length digits.now ≤ 20 }
    ensures { result ≡ number_from 0 digits.now }
{
    let mut number = 0u128;
    for place in 0..digits.len() {
        number = number * 10 + digits[place].saturating_sub(b'0') as u128;
    }
    number
}

/// A whole number from -2^63 to 2^64 - 1, as a script has it: without leading zeros, and with a minus
/// before it where it is below 0.
#[tactic(auto, unfolding(crate::specs::Options::integer_of))]
fn read_integer(alloc: Global, text: &[u8]) -> Result<i128, FormFault>
    ensures { Gives result (integer_of text.now) }
{
    if !are_number_bytes(text) {
        return Err(FormFault::Form);
    }
    let mut scratch = Scratch::new(alloc);
    let value = read_json(alloc, &mut scratch, text)?;
    i128::from_json(alloc, &value)
}

/// Whether each byte is a digit or a minus.
fn are_number_bytes(text: &[u8]) -> bool
    ensures { result ≡ list_all is_number_byte text.now }
{
    text.iter()
        .all(|byte| *byte == b'-' || byte.is_ascii_digit())
}

/// Labels with commas between.
#[tactic(auto, unfolding(crate::specs::Options::labels_of))]
pub(crate) fn read_labels(alloc: Global, text: &[u8]) -> Result<LabelList, FormFault>
    ensures gives { Gives result (labels_of text.now) }
    ensures typed { IfOk result (λ labels. IsTrue (list_all is_label labels)) }
{
    let parts = parts_at(alloc, text, b',')?;
    labels_of_parts(alloc, parts.as_slice())
}

/// A label from each part.
#[tactic(auto, using(crate::proofs::Typed::one_more, crate::proofs::Typed::label_typed))]
fn labels_of_parts(alloc: Global, parts: &[&[u8]]) -> Result<LabelList, FormFault>
    ensures gives { Gives result (labels_onto [] (map (λ part. part.now) parts.entry.now)) }
    ensures typed { IfOk result (λ labels. IsTrue (list_all is_label labels)) }
{
    let mut done = LabelList::new(alloc);
    for part in parts {
        let Some(label) = Label::from_bytes(part) else {
            return Err(FormFault::Form);
        };
        done.push(label)?;
    }
    Ok(done)
}

/// The two parts of two.
fn both_parts<'a>(parts: &[&'a [u8]]) -> Option<(&'a [u8], &'a [u8])>
    ensures { option_map (λ pair. (pair.0.now, pair.1.now)) result ≡ both_items (map (λ part. part.now) parts.entry.now) }
{
    match parts {
        [first, second] => Some((*first, *second)),
        _ => None,
    }
}

/// The three parts of three.
fn three_parts<'a>(parts: &[&'a [u8]]) -> Option<(&'a [u8], &'a [u8], &'a [u8])>
    ensures { option_map (λ three. (three.0.now, three.1.now, three.2.now)) result ≡ three_items (map (λ part. part.now) parts.entry.now) }
{
    match parts {
        [first, second, third] => Some((*first, *second, *third)),
        _ => None,
    }
}

/// The bounds `low..high`.
#[tactic(auto, unfolding(crate::specs::Options::bounds_of))]
fn read_bounds(alloc: Global, text: &[u8]) -> Result<(i128, i128), FormFault>
    ensures { Gives result (bounds_of text.now) }
{
    let parts = parts_at(alloc, text, b'.')?;
    let Some((low, between, high)) = three_parts(parts.as_slice()) else {
        return Err(FormFault::Form);
    };
    let low = read_integer(alloc, low)?;
    let high = read_integer(alloc, high)?;
    if between.len() != 0 {
        return Err(FormFault::Form);
    }
    Ok((low, high))
}

/// The bounds of one dimension: `label=low..high`.
#[tactic(auto, unfolding(crate::specs::Options::named_box_of))]
fn read_named_box(alloc: Global, text: &[u8]) -> Result<NamedBox, FormFault>
    ensures { Gives result (named_box_of text.now) }
{
    let parts = parts_at(alloc, text, b'=')?;
    let Some((name, bounds)) = both_parts(parts.as_slice()) else {
        return Err(FormFault::Form);
    };
    let Some(name) = Label::from_bytes(name) else {
        return Err(FormFault::Form);
    };
    let (low, high) = read_bounds(alloc, bounds)?;
    Ok(NamedBox { name, low, high })
}

/// Bounds in their place among others, which ascend by their names. It is of another form where one of
/// the others has the name.
#[tactic(auto, unfolding(crate::specs::Options::placed))]
fn placed(sub: NamedBox, others: NamedBoxList) -> Result<NamedBoxList, FormFault>
    ensures { Gives result (placed sub others) }
{
    if has_name(&sub.name, others.as_slice()) {
        return Err(FormFault::Form);
    }
    let place = place_of(&sub.name, others.as_slice());
    let mut items = others.into_vec();
    match items.insert(place, sub) {
        Ok(()) => Ok(NamedBoxList::from_vec(items)),
        Err(_) => Err(FormFault::OutOfMemory),
    }
}

/// Whether one of the others has the name.
fn has_name(name: &Label, others: &[NamedBox]) -> bool
    ensures { result ≡ has_name name.now others.now }
{
    others.iter().any(|other| other.name == *name)
}

/// The place before the first whose name is above.
fn place_of(name: &Label, others: &[NamedBox]) -> usize
    ensures place { result ≡ place_of name.now others.now }
    ensures within { result ≤ length others.now }
{
    match first_above(name, others) {
        Some(place) => place,
        None => others.len(),
    }
}

/// The first whose name is above.
fn first_above(name: &Label, others: &[NamedBox]) -> Option<usize>
    ensures place { result ≡ position (λ other. is_below name.now other.name) others.now }
    ensures within { IfSome result (λ place. place < length others.now) }
{
    others.iter().position(|other| is_below(name, &other.name))
}

/// Whether a name is before another by its bytes.
fn is_below(name: &Label, other: &Label) -> bool
    ensures { result ≡ is_below name.now other.now }
{
    *name < *other
}

/// A box: bounds of dimensions with commas between, each dimension once, ascending by their names.
#[tactic(auto, unfolding(crate::specs::Options::boxes_of))]
pub(crate) fn read_boxes(alloc: Global, text: &[u8]) -> Result<NamedBoxList, FormFault>
    ensures { Gives result (boxes_of text.now) }
{
    let parts = parts_at(alloc, text, b',')?;
    boxes_of_parts(alloc, parts.as_slice())
}

/// The bounds of each part.
fn boxes_of_parts(alloc: Global, parts: &[&[u8]]) -> Result<NamedBoxList, FormFault>
    ensures { Gives result (boxes_onto [] (map (λ part. part.now) parts.entry.now)) }
{
    let mut done = NamedBoxList::new(alloc);
    for part in parts {
        let sub = read_named_box(alloc, part)?;
        done = placed(sub, done)?;
    }
    Ok(done)
}
