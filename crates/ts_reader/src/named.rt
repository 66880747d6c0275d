//! The keys of the further schemas.
ghost use Rattle.std.specs.Prelude.{◌≡◌, IfOk, OnOk};
ghost use Rattle.std.specs.List.Sorted.{IsStrictlySortedBy};
ghost use Rattle.std.specs.BTreeMap.{keys, IsOrdered};
ghost use Rattle.std.specs.FinMap as finite;
ghost use Rattle.ts_base.specs.Keys.{key_cmp};
ghost use Rattle.ts_reader.specs.Newest.{keys_in, keys_of_others, with_other};

use std::alloc::{AllocError, Global};
use std::collections::BTreeMap;
use ts_base::{Key, KeyList, OutOfMemory};
use ts_model::Opened;

/// The keys of the schemas that the heads name beside the schema that holds, ascending and each
/// once.
pub(crate) fn keys_named(
    alloc: Global,
    current: Key,
    opened: &[Opened],
) -> Result<KeyList, OutOfMemory>
    ensures is { IfOk result (λ keys. keys ≡ finite.keys (keys_of_others current opened.now)) }
    ensures rise { IfOk result (IsStrictlySortedBy key_cmp) }
{
    let named = others(alloc, current, opened)?;
    Ok(KeyList::from_vec(all_keys(alloc, &named)?))
}

// The keys of the further schemas in a tree.
fn others(alloc: Global, current: Key, opened: &[Opened]) -> Result<BTreeMap<Key, Key>, OutOfMemory>
    ensures { IfOk result (λ named. keys_in named ≡ keys_of_others current opened.now) }
{
    let mut named = BTreeMap::new(alloc);
    for fragment in opened.iter().rev() {
        add_other(&mut named, current, fragment.head.schema)?;
    }
    Ok(named)
}

// Adds a key, unless it is that of the schema that holds.
fn add_other(named: &mut BTreeMap<Key, Key>, current: Key, key: Key) -> Result<(), OutOfMemory>
    ensures { OnOk result (keys_in named.new ≡ with_other current key (keys_in named.old)) }
{
    if key != current {
        named.insert(key, key)?;
    }
    Ok(())
}

// All keys, ascending.
fn all_keys(alloc: Global, named: &BTreeMap<Key, Key>) -> Result<Vec<Key>, AllocError>
    ensures found { IfOk result (λ names. names.items ≡ keys named.now) }
    ensures ordered { IsOrdered key_cmp named.now }
{
    named.keys().copied().collect(alloc)
}
