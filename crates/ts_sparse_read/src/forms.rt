//! The forms of the objects of all columns.
ghost use Rattle.std.specs.Prelude.{◌≡◌, ◌++◌, map, IfOk, OnOk};
ghost use Rattle.std.specs.List.{flat_map};
ghost use Rattle.ts_footer.specs.Columns.{dim_form, value_forms, attr_forms, column_forms};

use std::alloc::Global;
use ts_base::{OutOfMemory, ValType};
use ts_domain::Dim;
use ts_footer::{ColumnForm, FormList};
use ts_schema::Attr;

/// The forms of all objects of columns, in the order of the metadata.
#[tactic(auto, unfolding(ts_footer::specs::Columns::column_forms))]
pub fn column_forms(
    alloc: Global,
    dims: &[Dim],
    attrs: &[Attr],
    consolidated: bool,
) -> Result<FormList, OutOfMemory>
    ensures { IfOk result (λ forms. forms ≡ column_forms dims.now attrs.now consolidated) }
{
    let mut forms = FormList::new(alloc);
    push_dims(&mut forms, dims)?;
    push_attrs(&mut forms, attrs)?;
    if consolidated {
        forms.push(ColumnForm::Fixed(4))?;
    }
    Ok(forms)
}

fn push_dims(forms: &mut FormList, dims: &[Dim]) -> Result<(), OutOfMemory>
    ensures { OnOk result (forms.new ≡ forms.old ++ map dim_form dims.now) }
{
    for dim in dims {
        forms.push(ColumnForm::Fixed(dim.ty.width()))?;
    }
    Ok(())
}

fn push_attrs(forms: &mut FormList, attrs: &[Attr]) -> Result<(), OutOfMemory>
    ensures { OnOk result (forms.new ≡ forms.old ++ flat_map attr_forms attrs.now) }
{
    for attr in attrs {
        push_attr(forms, attr)?;
    }
    Ok(())
}

fn push_attr(forms: &mut FormList, attr: &Attr) -> Result<(), OutOfMemory>
    ensures { OnOk result (forms.new ≡ forms.old ++ attr_forms attr.now) }
{
    push_values(forms, attr.ty)?;
    if attr.nullable {
        forms.push(ColumnForm::Fixed(1))?;
    }
    Ok(())
}

fn push_values(forms: &mut FormList, ty: ValType) -> Result<(), OutOfMemory>
    ensures { OnOk result (forms.new ≡ forms.old ++ value_forms ty) }
{
    if ty.is_integer() {
        forms.push(ColumnForm::Fixed(ty.width()))?;
    } else {
        forms.push(ColumnForm::Fixed(8))?;
        forms.push(ColumnForm::Var)?;
    }
    Ok(())
}
