//! The objects of the columns of a fragment in tiles: which there are, and what the metadata says of
//! each.
ghost use Rattle.std.specs.Prelude.{◌≡◌, ◌++◌, map, IfOk, OnOk};
ghost use Rattle.std.specs.List.{flat_map};
ghost use Rattle.ts_footer.specs.Columns.{dim_form, value_forms, validity_forms, attr_forms, origin_forms, column_forms};

use std::alloc::Global;
use ts_base::{CountList, OutOfMemory, Sequence, ValType};
use ts_domain::Dim;
use ts_schema::Attr;

/// How long the object of a column is.
#[derive(Clone, Copy, Debug, PartialEq, Eq)]
pub enum ColumnForm {
    /// It has so many bytes for each cell.
    Fixed(u8),
    /// It has the bytes of texts or blobs, as many as they are.
    Var,
}

/// A list of forms.
pub type FormList = Sequence<ColumnForm>;

/// What the metadata says of the object of a column.
#[derive(Debug, Drop, PartialEq, Eq)]
pub struct ColumnSize {
    /// The length of the object in bytes, its envelope counted.
    pub length: u64,
    /// Where each tile starts in an object of texts or blobs, in bytes from the object's start; of
    /// another object nothing.
    pub starts: CountList,
}

/// A list of what is said of objects.
pub type SizeList = Sequence<ColumnSize>;

/// The forms of the objects of a fragment, in their order: the coordinates along each dimension of which
/// they are stored, then for each attribute its values and their validity, then the origins.
#[tactic(auto, unfolding(crate::specs::Columns::column_forms))]
pub(crate) fn column_forms(
    alloc: Global,
    dims: &[Dim],
    attrs: &[Attr],
    consolidated: bool,
) -> Result<FormList, OutOfMemory>
    ensures { IfOk result (λ forms. forms ≡ column_forms dims.now attrs.now consolidated) }
{
    let mut forms = FormList::new(alloc);
    push_dims(&mut forms, dims)?;
    push_attrs(&mut forms, attrs)?;
    if consolidated {
        forms.push(ColumnForm::Fixed(4))?;
    }
    Ok(forms)
}

fn push_dims(forms: &mut FormList, dims: &[Dim]) -> Result<(), OutOfMemory>
    ensures { OnOk result (forms.new ≡ forms.old ++ map dim_form dims.now) }
{
    for dim in dims {
        forms.push(ColumnForm::Fixed(dim.ty.width()))?;
    }
    Ok(())
}

fn push_attrs(forms: &mut FormList, attrs: &[Attr]) -> Result<(), OutOfMemory>
    ensures { OnOk result (forms.new ≡ forms.old ++ flat_map attr_forms attrs.now) }
{
    for attr in attrs {
        push_attr(forms, attr)?;
    }
    Ok(())
}

fn push_attr(forms: &mut FormList, attr: &Attr) -> Result<(), OutOfMemory>
    ensures { OnOk result (forms.new ≡ forms.old ++ attr_forms attr.now) }
{
    push_values(forms, attr.ty)?;
    if attr.nullable {
        forms.push(ColumnForm::Fixed(1))?;
    }
    Ok(())
}

fn push_values(forms: &mut FormList, ty: ValType) -> Result<(), OutOfMemory>
    ensures { OnOk result (forms.new ≡ forms.old ++ value_forms ty) }
{
    if ty.is_integer() {
        forms.push(ColumnForm::Fixed(ty.width()))?;
    } else {
        forms.push(ColumnForm::Fixed(8))?;
        forms.push(ColumnForm::Var)?;
    }
    Ok(())
}
