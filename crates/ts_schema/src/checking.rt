//! What is wrong with the attributes of a schema.
ghost use Rattle.std.specs.Prelude.{◌≡◌, [], IfOk};
ghost use Rattle.ts_schema.specs.Faults.{fault_of, fault_behind, count_fault, schema_fault};

use crate::attrs::{Attr, has_attr};
use crate::faults::SchemaFault;
use std::alloc::Global;
use std::collections::BTreeSet;
use ts_base::{Label, OutOfMemory};
use ts_domain::{Dim, Domain, has_name};
use ts_value::fits;

// The fault of an attribute, whose name came before or not.
fn fault_of(dims: &[Dim], again: bool, attr: &Attr) -> Option<SchemaFault>
    ensures { result ≡ fault_of dims.now again attr.now }
{
    if again || has_name(dims, &attr.name) {
        Some(SchemaFault::DuplicateAttr(attr.name))
    } else if fits(attr.ty, attr.nullable, &attr.fill) {
        None
    } else {
        Some(SchemaFault::BadFill(attr.name))
    }
}

// The first fault of an attribute, by a set of the names before each.
fn first_fault(
    alloc: Global,
    dims: &[Dim],
    attrs: &[Attr],
) -> Result<Option<SchemaFault>, OutOfMemory>
    ensures { IfOk result (λ found. found ≡ fault_behind dims.now [] attrs.now) }
{
    let mut names = BTreeSet::new(alloc);
    for attr in attrs {
        let new = names.insert(attr.name)?;
        if let Some(fault) = fault_of(dims, !new, attr) {
            return Ok(Some(fault));
        }
    }
    Ok(None)
}

// The first fault of an attribute. It takes no memory, and time by the square of their number.
fn first_fault_in_place(dims: &[Dim], attrs: &[Attr]) -> Option<SchemaFault>
    ensures { result ≡ fault_behind dims.now [] attrs.now }
{
    for (place, attr) in attrs.iter().enumerate() {
        let again = has_attr(&attrs[..place], &attr.name);
        if let Some(fault) = fault_of(dims, again, attr) {
            return Some(fault);
        }
    }
    None
}

fn count_fault(count: u64) -> Option<SchemaFault>
    ensures { result ≡ count_fault count }
{
    if count == 0 {
        Some(SchemaFault::NoAttrLeft)
    } else if count > 64 {
        Some(SchemaFault::TooManyAttrs { count })
    } else {
        None
    }
}

/// The first fault of attributes beside the dimensions of their array: that of an attribute, or else
/// that of their number.
///
/// It keeps the names in memory, so that many attributes take little more than their number. Where
/// there is no memory for them, each name is compared with all before it: the answer is the same.
pub fn schema_fault(alloc: Global, domain: &Domain, attrs: &[Attr]) -> Option<SchemaFault>
    ensures { result ≡ schema_fault domain.now attrs.now }
{
    let dims = domain.as_slice();
    let found = match first_fault(alloc, dims, attrs) {
        Ok(found) => found,
        Err(_) => first_fault_in_place(dims, attrs),
    };
    match found {
        Some(fault) => Some(fault),
        None => count_fault(attrs.len() as u64),
    }
}
