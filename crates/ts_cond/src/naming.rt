//! The fields that a condition names, as its text is read.
ghost use Rattle.std.specs.Prelude.{◌≡◌, ◌+◌, ◌++◌, ◌≤◌, take, drop, ◌<◌, length, slice_get, IfOk, IfSome, OnOk};
ghost use Rattle.ts_cond.specs.Machine.{named_from, meets, newly, newly_named, first, judges, suits};
ghost use Rattle.ts_cond.specs.Spelled.{kind_of};

use crate::faults::CondFault;
use crate::fields::{CondField, CondFieldList};
use crate::tokens::Kind;
use std::alloc::Global;
use std::mem;
use ts_base::{Label, OutOfMemory, ValType};

/// The fields that were named, in the order of their first names, those that were not, and the
/// first fault of a test.
#[derive(Debug, Drop)]
pub struct Naming {
    pub used: CondFieldList,
    pub unused: CondFieldList,
    pub clash: Option<CondFault>,
}

impl Naming {
    /// A field is named: its place among the fields that were named. Where no field has this name,
    /// the fault is kept, unless there is one before it, and the place is 0.
    pub fn meet(&mut self, alloc: Global, name: &Label) -> Result<u8, OutOfMemory>
        requires { length self.old.used + length self.old.unused ≤ 255 }
        ensures meets { IfOk result (λ place. meets name.now self.old ≡ (place, self.new)) }
        ensures room { OnOk result (length self.new.used + length self.new.unused ≡ length self.old.used + length self.old.unused) }
    {
        match place_of(name, self.used.as_slice()) {
            Some(place) => Ok(place as u8),
            None => self.meet_new(alloc, name),
        }
    }

    fn meet_new(&mut self, alloc: Global, name: &Label) -> Result<u8, OutOfMemory>
        requires { length self.old.used + length self.old.unused ≤ 255 }
        ensures meets { IfOk result (λ place. newly (named_from 0 name.now self.old.unused) name.now self.old ≡ (place, self.new)) }
        ensures room { OnOk result (length self.new.used + length self.new.unused ≡ length self.old.used + length self.old.unused) }
    {
        match place_of(name, self.unused.as_slice()) {
            Some(place) => self.take(alloc, place),
            None => {
                self.keep(CondFault::UnknownField(*name));
                Ok(0)
            }
        }
    }

    // The field at this place is named for the first time.
    fn take(&mut self, alloc: Global, place: usize) -> Result<u8, OutOfMemory>
        requires room { length self.old.used + length self.old.unused ≤ 255 }
        requires within { place < length self.old.unused }
        ensures place { IfOk result (λ found. found ≡ length self.old.used) }
        ensures meets { OnOk result (self.new ≡ newly_named place (slice_get self.old.unused place) self.old) }
        ensures room { OnOk result (length self.new.used + length self.new.unused ≡ length self.old.used + length self.old.unused) }
    {
        let found = self.used.len() as u8;
        let field = take_out(alloc, &mut self.unused, place);
        self.used.push(field)?;
        Ok(found)
    }

    fn keep(&mut self, fault: CondFault)
        ensures { self.new ≡ record { used = self.old.used; unused = self.old.unused; clash = first self.old.clash fault } }
    {
        if self.clash.is_none() {
            self.clash = Some(fault);
        }
    }

    /// The field at this place is compared with this value. Where the value is of another kind, the
    /// fault is kept, unless there is one before it.
    pub fn judge(&mut self, field: u8, kind: &Kind)
        ensures { self.new ≡ judges field (kind_of kind.now) self.old }
    {
        if (field as usize) < self.used.as_slice().len() {
            let known = self.used.at(field as u64);
            if !suits(known.ty, kind) {
                let name = known.name;
                self.keep(CondFault::TypeClash(name));
            }
        }
    }
}

// Takes the field at this place out of a list.
fn take_out(alloc: Global, fields: &mut CondFieldList, place: usize) -> CondField
    requires { place < length fields.old }
    ensures value { slice_get fields.old place ≡ Some result }
    ensures rest { fields.new ≡ take place fields.old ++ drop (place + 1) fields.old }
    ensures count { length fields.new + 1 ≡ length fields.old }
{
    let mut items = mem::replace(fields, CondFieldList::new(alloc)).into_vec();
    let field = items.remove(place);
    *fields = CondFieldList::from_vec(items);
    field
}

fn place_of(name: &Label, fields: &[CondField]) -> Option<usize>
    ensures place { result ≡ named_from 0 name.now fields.now }
    ensures within { IfSome result (λ place. place < length fields.now) }
{
    for place in 0..fields.len() {
        if fields[place].name == *name {
            return Some(place);
        }
    }
    None
}

fn suits(ty: ValType, kind: &Kind) -> bool
    ensures { result ≡ suits ty (kind_of kind.now) }
{
    match kind {
        Kind::Number(_) => ty.is_integer(),
        Kind::Text(_) => matches!(ty, ValType::Text),
        Kind::Blob(_) => matches!(ty, ValType::Blob),
        _ => false,
    }
}
