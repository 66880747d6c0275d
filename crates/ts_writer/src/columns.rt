//! The columns of a write, each under the dimension or the attribute of its name.
ghost use Rattle.std.specs.Prelude.{◌≡◌, ◌||◌};
ghost use Rattle.std.specs.Option.{option_copied, option_and_then};
ghost use Rattle.ts_domain.specs.Dims.{has_name};
ghost use Rattle.ts_schema.specs.Attrs.{has_attr};
ghost use Rattle.ts_model.specs.Commands.{column, so_many, count_of, dim_column, attr_column, columns, stray};
ghost use Rattle.ts_model.specs.declared.answers.Refusal.TheVariants as refusal;
ghost use Rattle.ts_writer.specs.declared.laying.LayFault.TheVariants as fault;
ghost use Rattle.ts_writer.specs.Laying.{LaysOr};

use crate::laying::LayFault;
use crate::values::{numbers_of, values_of};
use std::alloc::Global;
use ts_base::{Label, Sequence};
use ts_domain::Dim;
use ts_model::{ColIn, Refusal};
use ts_schema::Attr;
use ts_table::{Column, Numbers};

/// The numbers of each dimension's column.
pub(crate) type NumberLists = Sequence<Numbers>;

/// The values of each attribute's column.
pub(crate) type ColumnList = Sequence<Column>;

/// How many cells a write has.
pub(crate) fn count_of(dims: &[Dim], cols: &[ColIn]) -> u64
    ensures { result ≡ count_of dims.now cols.now }
{
    match dims {
        [] => 0,
        [first, ..] => match column(cols, &first.name) {
            Some(values) => values.len(),
            None => 0,
        },
    }
}

/// The column of each dimension, or the first clash.
pub(crate) fn dim_columns(
    alloc: Global,
    dims: &[Dim],
    cols: &[ColIn],
    count: u64,
) -> Result<NumberLists, LayFault>
    ensures { LaysOr (columns (dim_column cols.now count) dims.now) result }
{
    let mut found = NumberLists::new(alloc);
    for dim in dims {
        found.push(dim_column(alloc, cols, count, dim)?)?;
    }
    Ok(found)
}

/// The column of each attribute, or the first clash.
pub(crate) fn attr_columns(
    alloc: Global,
    attrs: &[Attr],
    cols: &[ColIn],
    count: u64,
) -> Result<ColumnList, LayFault>
    ensures { LaysOr (columns (attr_column cols.now count) attrs.now) result }
{
    let mut found = ColumnList::new(alloc);
    for attr in attrs {
        found.push(attr_column(alloc, cols, count, attr)?)?;
    }
    Ok(found)
}

/// The first column that is of no dimension and of no attribute.
pub(crate) fn stray(dims: &[Dim], attrs: &[Attr], cols: &[ColIn]) -> Option<Label>
    ensures { result ≡ stray dims.now attrs.now cols.now }
{
    for col in cols {
        if !is_wanted(dims, attrs, &col.name) {
            return Some(col.name);
        }
    }
    None
}

fn is_wanted(dims: &[Dim], attrs: &[Attr], name: &Label) -> bool
    ensures { result ≡ (has_name dims.now name.now || has_attr attrs.now name.now) }
{
    has_name(dims, name) || has_attr(attrs, name)
}

fn has_name(dims: &[Dim], name: &Label) -> bool
    ensures { result ≡ has_name dims.now name.now }
{
    dims.iter().any(|dim| dim.name == *name)
}

fn has_attr(attrs: &[Attr], name: &Label) -> bool
    ensures { result ≡ has_attr attrs.now name.now }
{
    attrs.iter().any(|attr| attr.name == *name)
}

fn dim_column(alloc: Global, cols: &[ColIn], count: u64, dim: &Dim) -> Result<Numbers, LayFault>
    ensures { LaysOr (dim_column cols.now count dim.now) result }
{
    let Some(values) = sized_column(cols, count, &dim.name) else {
        return Err(clash(dim.name));
    };
    match numbers_of(alloc, values)? {
        Some(numbers) => Ok(numbers),
        None => Err(clash(dim.name)),
    }
}

fn attr_column(alloc: Global, cols: &[ColIn], count: u64, attr: &Attr) -> Result<Column, LayFault>
    ensures { LaysOr (attr_column cols.now count attr.now) result }
{
    let Some(values) = sized_column(cols, count, &attr.name) else {
        return Err(clash(attr.name));
    };
    match values_of(alloc, attr, values)? {
        Some(values) => Ok(values),
        None => Err(clash(attr.name)),
    }
}

/// The clash of a name.
pub(crate) fn clash(label: Label) -> LayFault
    ensures { result ≡ fault.Refused (refusal.SchemaClash label) }
{
    LayFault::Refused(Refusal::SchemaClash { attr: label })
}

// The values of the column of a name, where there are so many.
fn sized_column<'a>(cols: &'a [ColIn], count: u64, name: &Label) -> Option<&'a Column>
    ensures { option_copied result ≡ option_and_then (so_many count) (column cols.now name.now) }
{
    match column(cols, name) {
        Some(values) if values.len() == count => Some(values),
        _ => None,
    }
}

// The values of the column of a name.
fn column<'a>(cols: &'a [ColIn], name: &Label) -> Option<&'a Column>
    ensures { option_copied result ≡ column cols.now name.now }
{
    for col in cols {
        if col.name == *name {
            return Some(&col.values);
        }
    }
    None
}
