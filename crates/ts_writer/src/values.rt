//! What the values of a write say.
ghost use Rattle.std.specs.Prelude.{◌≡◌, ◌++◌, ◌∷◌, [], cond, Some, None, IfOk, IfSome, IfNone, option_map};
ghost use Rattle.ts_base.specs.declared.values.Val.TheVariants.{Bytes};
ghost use Rattle.ts_base.specs.declared.values.ValType.TheVariants.{Blob};
ghost use Rattle.ts_value.specs.Fits.{fits_of};
ghost use Rattle.ts_table.specs.Columns.{val_seen};
ghost use Rattle.ts_model.specs.Commands.{all_of, blob_bytes, coordinate, said_by, value_of};

use std::alloc::Global;
use ts_base::{OutOfMemory, ValType};
use ts_model::blob_bytes;
use ts_schema::Attr;
use ts_table::{Column, Numbers, Seen};
use ts_value::is_text;

/// The numbers that coordinates are, if all of them are integers.
#[tactic(auto, using(crate::proofs::Said::values))]
pub(crate) fn numbers_of(alloc: Global, vals: &Column) -> Result<Option<Numbers>, OutOfMemory>
    ensures { IfOk result (λ numbers. numbers ≡ all_of coordinate vals.now) }
{
    let mut numbers = Numbers::new(alloc);
    for place in 0..vals.len() {
        if !add_number(vals.at(place), &mut numbers)? {
            return Ok(None);
        }
    }
    Ok(Some(numbers))
}

// Appends a coordinate, and tells whether it is an integer.
fn add_number(seen: Seen, numbers: &mut Numbers) -> Result<bool, OutOfMemory>
    ensures { IfOk result (λ is. option_map (λ number. numbers.old ++ number ∷ []) (coordinate (val_seen seen.entry)) ≡ cond is (Some numbers.new) None) }
{
    match seen {
        Seen::Int(number) => {
            numbers.push(number)?;
            Ok(true)
        }
        _ => Ok(false),
    }
}

/// What values say of an attribute, if all of them fit it.
#[tactic(auto, using(crate::proofs::Said::values))]
pub(crate) fn values_of(
    alloc: Global,
    attr: &Attr,
    vals: &Column,
) -> Result<Option<Column>, OutOfMemory>
    ensures { IfOk result (λ found. found ≡ all_of (value_of attr.now) vals.now) }
{
    let mut found = Column::new(alloc);
    for place in 0..vals.len() {
        if !add_value(alloc, attr, vals.at(place), &mut found)? {
            return Ok(None);
        }
    }
    Ok(Some(found))
}

// Appends what a value says of an attribute, and tells whether that fits it.
#[tactic(auto, using(crate::proofs::Said::said))]
fn add_value(
    alloc: Global,
    attr: &Attr,
    seen: Seen,
    found: &mut Column,
) -> Result<bool, OutOfMemory>
    ensures { IfOk result (λ fits. option_map (λ said. found.old ++ said ∷ []) (value_of attr.now (val_seen seen.entry)) ≡ cond fits (Some found.new) None) }
{
    match digits_of(attr.ty, seen) {
        Some(text) => add_blob(alloc, text, found),
        None => add_fitting(attr, seen, found),
    }
}

// The digits of a blob, where a value has them for a type.
fn digits_of<'a>(ty: ValType, seen: Seen<'a>) -> Option<&'a [u8]>
    ensures blob { IfSome result (λ text. (ty ≡ Blob) × (val_seen seen.entry ≡ Bytes text.now)) }
    ensures other { IfNone result (said_by ty (val_seen seen.entry) ≡ Some (val_seen seen.entry)) }
{
    match seen {
        Seen::Bytes(text) if ty == ValType::Blob => Some(text),
        _ => None,
    }
}

// Appends the bytes of a blob, and tells whether a text has their digits.
fn add_blob(alloc: Global, text: &[u8], found: &mut Column) -> Result<bool, OutOfMemory>
    ensures { IfOk result (λ fits. option_map (λ bytes. found.old ++ Bytes bytes ∷ []) (blob_bytes text.now) ≡ cond fits (Some found.new) None) }
{
    match blob_bytes(alloc, text)? {
        Some(bytes) => {
            found.push_text(bytes.as_slice())?;
            Ok(true)
        }
        None => Ok(false),
    }
}

// Appends a value where it fits an attribute, and tells whether it does.
fn add_fitting(attr: &Attr, seen: Seen, found: &mut Column) -> Result<bool, OutOfMemory>
    ensures { IfOk result (λ fits. cond (fits_of attr.now.ty attr.now.nullable (val_seen seen.entry)) (Some (found.old ++ val_seen seen.entry ∷ [])) None ≡ cond fits (Some found.new) None) }
{
    if !fits(attr.ty, attr.nullable, seen) {
        return Ok(false);
    }
    found.push_seen(seen)?;
    Ok(true)
}

// Whether a value may stand under a type.
fn fits(ty: ValType, nullable: bool, seen: Seen) -> bool
    ensures { result ≡ fits_of ty nullable (val_seen seen.entry) }
{
    match seen {
        Seen::Null => nullable,
        Seen::Int(number) => ty.is_integer() && ty.least() <= number && number <= ty.greatest(),
        Seen::Bytes(bytes) => match ty {
            ValType::Text => is_text(bytes),
            ValType::Blob => true,
            _ => false,
        },
    }
}
