//! Evolution: which attributes a schema loses and gets.
ghost use Rattle.std.specs.Prelude.{◌≡◌, [], IfOk};
ghost use Rattle.ts_schema.specs.Attrs.{has_attr, has_label, HasNames};
ghost use Rattle.ts_schema.specs.Evolutions.{less_fault, without, evolved_attrs};

use crate::attrs::{Attr, AttrList};
use crate::faults::SchemaFault;
use std::alloc::Global;
use std::collections::BTreeSet;
use ts_base::{Duplicate, Label, LabelList, OutOfMemory};

/// A change of a schema. See the TileDB format specification, "Array Schema".
#[derive(Clone, Debug, Drop, PartialEq, Eq)]
pub struct Evolution {
    /// The attributes that are added behind the others.
    pub add: AttrList,
    /// The names of the attributes that are taken away before.
    pub less: LabelList,
}

impl Duplicate for Evolution {
    fn copy(&self, _alloc: Global) -> Result<Evolution, OutOfMemory> {
        Ok(self.clone()?)
    }
}

// The names of attributes.
fn attr_names(alloc: Global, attrs: &[Attr]) -> Result<BTreeSet<Label>, OutOfMemory>
    ensures { IfOk result (λ names. HasNames names (has_attr attrs.now)) }
{
    let mut names = BTreeSet::new(alloc);
    for attr in attrs {
        names.insert(attr.name)?;
    }
    Ok(names)
}

// The labels of a list.
fn label_set(alloc: Global, labels: &[Label]) -> Result<BTreeSet<Label>, OutOfMemory>
    ensures { IfOk result (λ names. HasNames names (has_label labels.now)) }
{
    let mut names = BTreeSet::new(alloc);
    for label in labels {
        names.insert(*label)?;
    }
    Ok(names)
}

/// The fault of the first name that cannot be taken away.
pub fn less_fault(
    alloc: Global,
    attrs: &AttrList,
    less: &LabelList,
) -> Result<Option<SchemaFault>, OutOfMemory>
    ensures { IfOk result (λ fault. fault ≡ less_fault attrs.now [] less.now) }
{
    let mut left = attr_names(alloc, attrs.as_slice())?;
    for name in less.as_slice() {
        if !left.remove(name) {
            return Ok(Some(SchemaFault::UnknownAttr(*name)));
        }
    }
    Ok(None)
}

fn without(alloc: Global, less: &LabelList, attrs: &AttrList) -> Result<AttrList, OutOfMemory>
    ensures { IfOk result (λ kept. kept ≡ without less.now attrs.now) }
{
    let names = label_set(alloc, less.as_slice())?;
    let mut kept = AttrList::new(alloc);
    for attr in attrs.as_slice() {
        if !names.contains(&attr.name) {
            kept.push(attr.copy(alloc)?)?;
        }
    }
    Ok(kept)
}

/// The attributes after a change.
pub fn evolved_attrs(
    alloc: Global,
    attrs: &AttrList,
    change: &Evolution,
) -> Result<AttrList, OutOfMemory>
    ensures { IfOk result (λ evolved. evolved ≡ evolved_attrs attrs.now change.now) }
{
    let mut evolved = without(alloc, &change.less, attrs)?;
    for attr in change.add.as_slice() {
        evolved.push(attr.copy(alloc)?)?;
    }
    Ok(evolved)
}
