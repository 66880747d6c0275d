//! The schema that holds at a timestamp.
ghost use Rattle.std.specs.Prelude.{◌≡◌, ◌<◌, ◌↔◌, Some, IsNone};
ghost use Rattle.std.specs.List.{All};
ghost use Rattle.ts_base.specs.declared.keys.Key.{Key as AnyKey};
ghost use Rattle.ts_base.specs.Keys.{greater};
ghost use Rattle.ts_schema.specs.Evolutions.{schema_at};

use ts_base::{Key, KeyList};

fn later(key: Key, found: Option<Key>) -> Option<Key>
    ensures { result ≡ greater (λ key. key) (Some key) found }
{
    match found {
        None => Some(key),
        Some(other) if key < other => Some(other),
        Some(_) => Some(key),
    }
}

/// The key of the schema that holds at the timestamp `b`, in milliseconds since 1970: the greatest
/// of those that are stamped at `b` or before. Keys are compared by timestamp, then by identifier.
///
/// It is None exactly where no key is stamped at `b` or before. It takes no memory.
#[tactic(auto, using(crate::proofs::NoneYet::none_exactly))]
pub fn schema_at(keys: &KeyList, b: u64) -> Option<Key>
    ensures greatest { result ≡ schema_at keys.now b }
    ensures none { IsNone result ↔ All (λ (key : AnyKey). b < key.t) keys.now }
{
    greatest_until(keys.as_slice(), b)
}

// The greatest of the keys that are stamped at `b` or before.
fn greatest_until(keys: &[Key], b: u64) -> Option<Key>
    ensures { result ≡ schema_at keys.now b }
{
    let mut found = None;
    for key in keys.iter().rev() {
        if key.t <= b {
            found = later(*key, found);
        }
    }
    found
}
