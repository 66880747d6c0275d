//! Objects in memory, by name.
ghost use Rattle.std.specs.Prelude.{◌≡◌, length, filter, map, OnOk, OnErr, IfOk, All};
ghost use Rattle.std.specs.Option.{option_copied, option_map};
ghost use Rattle.std.specs.FinMap as finite;
ghost use Rattle.std.specs.BTreeMap.{keys, IsOrdered};
ghost use Rattle.std.specs.BTreeMap.Range.{IsLeBy, IsLtBy, entries_between};
ghost use Rattle.std.specs.Range.Bound.{IsForward};
ghost use Rattle.ts_base.specs.Names.{name_cmp, is_under, IsSpelled};
ghost use Rattle.ts_store.specs.declared.fate.Fate.TheVariants.{Done};
ghost use Rattle.ts_store.specs.Ranges.{start_of, end_of};
ghost use Rattle.ts_store.specs.Calls.{after, answer, made_reply, names_under, part_of};

use crate::bytes::SharedBytes;
use crate::call::{Call, Made};
use std::alloc::{AllocError, Global};
use std::collections::BTreeMap;
use std::marker::Model;
use std::ops::Bound;
use ts_base::{CommitKind, FragKey, Key, LeaseMode, Name, NameList, OutOfMemory, Part, Prefix};

/// The least key of a fragment.
const LEAST: FragKey = FragKey {
    t1: 0,
    t2: 0,
    id: 0,
    v: 0,
};

/// Objects in memory, by name. Contracts see them as the map from each name to its bytes.
#[derive(Debug, Drop)]
pub(crate) struct Objects {
    by_name: BTreeMap<Name, SharedBytes>,
}

impl Model for Objects {
    ghost use Rattle.std.specs.Prelude.{All};
    ghost use Rattle.std.specs.FinMap as finite;
    ghost use Rattle.std.specs.BTreeMap.{keys};
    ghost use Rattle.ts_base.specs.Names.{IsSpelled};
    ghost use Rattle.ts_base.specs.Held.{Held, held_code};

    ghost Value = { Held };

    ghost coded = { held_code };

    ghost view = { λ objects. finite.from_entries objects.by_name.entries };

    ghost invariant = { λ objects. All IsSpelled (keys objects.by_name) };
}

impl Objects {
    /// No objects.
    pub(crate) fn new(alloc: Global) -> Objects
        ensures { result ≡ finite.empty }
    {
        Objects {
            by_name: BTreeMap::new(alloc),
        }
    }

    /// The bytes of an object.
    pub(crate) fn get(&self, name: Name) -> Option<&SharedBytes>
        ensures { option_copied result ≡ finite.get self.now name }
    {
        self.by_name.get(&name)
    }

    /// Whether a name is held.
    pub(crate) fn contains(&self, name: Name) -> bool
        ensures { result ≡ finite.contains_key self.now name }
    {
        self.get(name).is_some()
    }

    /// Makes an object held, in place of one of that name.
    pub(crate) fn insert(&mut self, name: Name, bytes: SharedBytes) -> Result<(), OutOfMemory>
        requires { IsSpelled name }
        ensures ok { OnOk result (self.new ≡ finite.insert self.old name bytes) }
        ensures err { OnErr result (self.new ≡ self.old) }
    {
        self.by_name.insert(name, bytes)?;
        Ok(())
    }

    /// Makes an object held, unless one of that name is.
    pub(crate) fn put(&mut self, name: Name, bytes: &SharedBytes) -> Result<Made, OutOfMemory>
        requires { IsSpelled name }
        ensures ok { IfOk result (λ made. (made_reply made ≡ answer self.old (Call.Put name bytes.now)) × (self.new ≡ after self.old (Call.Put name bytes.now) Done)) }
        ensures err { OnErr result (self.new ≡ self.old) }
    {
        if self.contains(name) {
            return Ok(Made::Taken);
        }
        self.insert(name, bytes.clone()?)?;
        Ok(Made::New)
    }

    /// The bytes of an object from a place on, at most `len` of them.
    pub(crate) fn part(
        &self,
        name: Name,
        from: u64,
        len: u64,
    ) -> Result<Option<SharedBytes>, OutOfMemory>
        ensures { IfOk result (λ part. part ≡ option_map (part_of from len) (finite.get self.now name)) }
    {
        match self.get(name) {
            Some(bytes) => Ok(Some(bytes.part(from, len)?)),
            None => Ok(None),
        }
    }

    /// The length of an object in bytes.
    pub(crate) fn size(&self, name: Name) -> Option<u64>
        ensures { result ≡ option_map length (finite.get self.now name) }
    {
        match self.get(name) {
            None => None,
            Some(bytes) => Some(bytes.len()),
        }
    }

    /// Takes an object away, if it is held.
    pub(crate) fn remove(&mut self, name: Name)
        ensures { self.new ≡ finite.remove self.old name }
    {
        let _ = self.by_name.remove(&name);
    }

    /// The names that are held, ascending.
    pub(crate) fn names(&self, alloc: Global) -> Result<NameList, OutOfMemory>
        ensures { IfOk result (λ names. names ≡ finite.keys self.now) }
    {
        Ok(NameList::from_vec(all_keys(alloc, &self.by_name)?))
    }

    /// The names that are held under a prefix, ascending.
    pub(crate) fn under(&self, alloc: Global, prefix: Prefix) -> Result<NameList, OutOfMemory>
        ensures names { IfOk result (λ names. names ≡ names_under prefix self.now) }
        ensures spelled { IfOk result (All IsSpelled) }
    {
        Ok(NameList::from_vec(keys_under(alloc, &self.by_name, prefix)?))
    }
}

// All keys, ascending.
fn all_keys(alloc: Global, objects: &BTreeMap<Name, SharedBytes>) -> Result<Vec<Name>, AllocError>
    ensures found { IfOk result (λ names. names.items ≡ keys objects.now) }
    ensures ordered { IsOrdered name_cmp objects.now }
{
    objects.keys().copied().collect(alloc)
}

// The keys under a prefix, ascending.
fn keys_under(
    alloc: Global,
    objects: &BTreeMap<Name, SharedBytes>,
    prefix: Prefix,
) -> Result<Vec<Name>, AllocError>
    ensures found { IfOk result (λ names. names.items ≡ filter (is_under prefix) (keys objects.now)) }
    ensures ordered { IsOrdered name_cmp objects.now }
{
    let bounds = bounds_of(prefix);
    let names = keys_between(alloc, objects, bounds.0, bounds.1)?;
    Ok(names)
}

// The keys between two bounds, ascending.
fn keys_between(
    alloc: Global,
    objects: &BTreeMap<Name, SharedBytes>,
    start: Bound<Name>,
    end: Bound<Name>,
) -> Result<Vec<Name>, AllocError>
    requires { IsForward (IsLeBy name_cmp) (IsLtBy name_cmp) start end }
    ensures found { IfOk result (λ names. names.items ≡ map (λ entry. entry.0) (entries_between name_cmp start end objects.now.entries)) }
    ensures ordered { IsOrdered name_cmp objects.now }
{
    objects
        .range((start, end))
        .map(|(name, _)| *name)
        .collect(alloc)
}

// Where the names under a prefix start and end in the order of names.
fn bounds_of(prefix: Prefix) -> (Bound<Name>, Bound<Name>)
    ensures { (result.0 ≡ start_of prefix) × (result.1 ≡ end_of prefix) }
{
    let schemas = Name::Schema(Key { t: 0, id: 0 });
    let commits = Name::Commit(LEAST, CommitKind::Wrt);
    let parts = Name::Part(LEAST, Part::Meta);
    let leases = Name::Lease(Key { t: 0, id: 0 }, LeaseMode::Shr);
    match prefix {
        Prefix::Schemas => (Bound::Included(schemas), Bound::Excluded(commits)),
        Prefix::Commits => (Bound::Included(commits), Bound::Excluded(parts)),
        Prefix::Leases => (Bound::Included(leases), Bound::Unbounded),
        Prefix::Fragment(frag) => (
            Bound::Included(Name::Part(frag, Part::Meta)),
            Bound::Included(Name::Part(frag, Part::Plain)),
        ),
    }
}
