//! The keys of the schemas that heads name.
ghost use Rattle.std.specs.Prelude.{◌≡◌, IfOk, OnOk};
ghost use Rattle.std.specs.List.Sorted.{IsStrictlySortedBy};
ghost use Rattle.std.specs.BTreeMap.{keys, IsOrdered};
ghost use Rattle.std.specs.FinMap as finite;
ghost use Rattle.ts_base.specs.Keys.{key_cmp};
ghost use Rattle.ts_model.specs.States.{schemas_named};
ghost use Rattle.ts_consolidate.specs.Named.{keys_in, keys_of};

use std::alloc::{AllocError, Global};
use std::collections::BTreeMap;
use ts_base::{Key, KeyList, OutOfMemory};
use ts_model::Opened;

/// The keys of the schemas that the heads name, ascending and each once.
pub(crate) fn schemas_named(alloc: Global, opened: &[Opened]) -> Result<KeyList, OutOfMemory>
    ensures is { IfOk result (λ keys. keys ≡ schemas_named opened.now) }
    ensures rise { IfOk result (IsStrictlySortedBy key_cmp) }
{
    let named = tree_of(alloc, opened)?;
    Ok(KeyList::from_vec(all_keys(alloc, &named)?))
}

// The keys in a tree.
fn tree_of(alloc: Global, opened: &[Opened]) -> Result<BTreeMap<Key, Key>, OutOfMemory>
    ensures { IfOk result (λ named. keys_in named ≡ keys_of opened.now) }
{
    let mut named = BTreeMap::new(alloc);
    for fragment in opened.iter().rev() {
        add_key(&mut named, fragment.head.schema)?;
    }
    Ok(named)
}

// Adds a key.
fn add_key(named: &mut BTreeMap<Key, Key>, key: Key) -> Result<(), OutOfMemory>
    ensures { OnOk result (keys_in named.new ≡ finite.insert (keys_in named.old) key key) }
{
    named.insert(key, key)?;
    Ok(())
}

// All keys, ascending.
fn all_keys(alloc: Global, named: &BTreeMap<Key, Key>) -> Result<Vec<Key>, AllocError>
    ensures found { IfOk result (λ names. names.items ≡ keys named.now) }
    ensures ordered { IsOrdered key_cmp named.now }
{
    named.keys().copied().collect(alloc)
}
