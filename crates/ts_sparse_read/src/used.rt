//! The objects of columns that a fetch reads.
ghost use Rattle.std.specs.Prelude.{◌≡◌, ◌++◌, ◌≤◌, length, get_or, IfOk, OnOk};
ghost use Rattle.ts_base.specs.Values.{is_integer};
ghost use Rattle.ts_sparse_read.specs.TileReads.{is_among};
ghost use Rattle.ts_sparse_read.specs.Used.{dim_parts, value_parts, validity_parts, attr_parts, column_parts, no_size, columns_told, is_used, used_among};
ghost use Rattle.ts_sparse_read.specs.Opens.{used_in};

use crate::forms::column_forms;
use crate::opened::{UsedColumn, UsedList};
use std::alloc::Global;
use ts_base::{CountList, Duplicate, OutOfMemory, Part, Sequence};
use ts_domain::Dim;
use ts_footer::{ColumnForm, ColumnSize, Footer};
use ts_schema::{Attr, Frame};

/// A list of parts.
pub type NamedParts = Sequence<Part>;

/// The objects that a fetch reads of a fragment with this metadata, where it reads the attributes at
/// these places.
#[tactic(auto, unfolding(crate::specs::Opens::used_in))]
pub(crate) fn used_in(
    alloc: Global,
    frame: &Frame,
    attrs: &[Attr],
    footer: &Footer,
    places: &[u32],
) -> Result<UsedList, OutOfMemory>
    requires few { length attrs.now ≤ 64 }
    ensures { IfOk result (λ used. used ≡ used_in frame.now attrs.now footer.now places.now) }
{
    let consolidated = footer.head.consolidated;
    // A domain has 8 dimensions at most.
    let _count = frame.domain.count();
    let parts = column_parts(alloc, frame.domain.as_slice(), attrs, consolidated)?;
    let forms = column_forms(alloc, frame.domain.as_slice(), attrs, consolidated)?;
    used_among(
        alloc,
        places,
        parts.as_slice(),
        forms.as_slice(),
        footer.sizes.as_slice(),
    )
}

/// The parts of all columns, in the order of the metadata.
#[tactic(auto, unfolding(crate::specs::Used::column_parts))]
pub fn column_parts(
    alloc: Global,
    dims: &[Dim],
    attrs: &[Attr],
    consolidated: bool,
) -> Result<NamedParts, OutOfMemory>
    requires few_dims { length dims.now ≤ 8 }
    requires few { length attrs.now ≤ 64 }
    ensures { IfOk result (λ parts. parts ≡ column_parts dims.now attrs.now consolidated) }
{
    let mut parts = NamedParts::new(alloc);
    push_dims(&mut parts, dims)?;
    push_attrs(&mut parts, attrs)?;
    if consolidated {
        parts.push(Part::Origin)?;
    }
    Ok(parts)
}

#[tactic(auto, using(crate::proofs::UsedLaws::dims_more, crate::proofs::UsedLaws::dims_all))]
fn push_dims(parts: &mut NamedParts, dims: &[Dim]) -> Result<(), OutOfMemory>
    requires few { length dims.now ≤ 8 }
    ensures { OnOk result (parts.new ≡ parts.old ++ dim_parts 0 dims.now) }
{
    for dim in 0..dims.len() {
        parts.push(Part::Dim(dim as u8))?;
    }
    Ok(())
}

#[tactic(auto, using(crate::proofs::UsedLaws::attrs_more, crate::proofs::UsedLaws::attrs_all))]
fn push_attrs(parts: &mut NamedParts, attrs: &[Attr]) -> Result<(), OutOfMemory>
    requires few { length attrs.now ≤ 64 }
    ensures { OnOk result (parts.new ≡ parts.old ++ attr_parts 0 attrs.now) }
{
    for place in 0..attrs.len() {
        push_attr(parts, place as u8, &attrs[place])?;
    }
    Ok(())
}

fn push_attr(parts: &mut NamedParts, place: u8, attr: &Attr) -> Result<(), OutOfMemory>
    ensures { OnOk result (parts.new ≡ parts.old ++ (value_parts (is_integer attr.now.ty) place ++ validity_parts attr.now.nullable place)) }
{
    parts.push(Part::Attr(place))?;
    if !attr.ty.is_integer() {
        parts.push(Part::Var(place))?;
    }
    if attr.nullable {
        parts.push(Part::Validity(place))?;
    }
    Ok(())
}

/// The objects that a fetch reads, of those of these parts, with their forms and sizes.
#[tactic(auto, using(crate::proofs::UsedLaws::told_taken, crate::proofs::UsedLaws::told_left, crate::proofs::UsedLaws::told_all))]
pub fn used_among(
    alloc: Global,
    places: &[u32],
    parts: &[Part],
    forms: &[ColumnForm],
    sizes: &[ColumnSize],
) -> Result<UsedList, OutOfMemory>
    ensures { IfOk result (λ used. used ≡ used_among places.now (columns_told parts.now forms.now sizes.now)) }
{
    let mut used = UsedList::new(alloc);
    let count = parts.len().min(forms.len());
    for place in 0..count {
        if is_used(places, parts[place]) {
            let size = size_at(alloc, sizes, place)?;
            used.push(UsedColumn {
                part: parts[place],
                form: forms[place],
                size,
            })?;
        }
    }
    Ok(used)
}

// A copy of what is said of the object at a place.
fn size_at(alloc: Global, sizes: &[ColumnSize], place: usize) -> Result<ColumnSize, OutOfMemory>
    ensures { IfOk result (λ size. size ≡ get_or sizes.now place no_size) }
{
    match sizes.get(place) {
        Some(size) => Ok(ColumnSize {
            length: size.length,
            starts: size.starts.copy(alloc)?,
        }),
        None => Ok(ColumnSize {
            length: 0,
            starts: CountList::new(alloc),
        }),
    }
}

// Whether a fetch reads the part, where it reads the attributes at these places.
fn is_used(places: &[u32], part: Part) -> bool
    ensures { result ≡ is_used places.now part }
{
    match part {
        Part::Attr(attr) | Part::Var(attr) | Part::Validity(attr) => is_among(places, attr),
        Part::Meta | Part::Dim(_) | Part::Origin | Part::Plain => true,
    }
}

/// Whether the attribute at a place is one of these.
pub fn is_among(places: &[u32], attr: u8) -> bool
    ensures { result ≡ is_among places.now attr }
{
    places.iter().any(|place| *place == u32::from(attr))
}
