//! Which leases an unlock removes.
ghost use Rattle.std.specs.Prelude.{◌≡◌, ◌/◌, ◌^◌, IfOk};
ghost use Rattle.ts_model.specs.States.{is_unlocked, lane_in, leases_unlocked};

use std::alloc::Global;
use ts_base::{Name, NameList, OutOfMemory};

/// The leases of a listing that an unlock of a seed and a lane removes, in its order.
pub(crate) fn leases_unlocked(
    alloc: Global,
    seed: u64,
    lane: u32,
    names: NameList,
) -> Result<NameList, OutOfMemory>
    ensures { IfOk result (λ leases. leases ≡ leases_unlocked seed lane names) }
{
    let mut leases = NameList::new(alloc);
    for name in names.into_vec() {
        if is_unlocked(seed, lane, &name) {
            leases.push(name)?;
        }
    }
    Ok(leases)
}

// Whether an unlock of a seed and a lane removes the lease: its identifier has another seed, or that
// lane.
fn is_unlocked(seed: u64, lane: u32, name: &Name) -> bool
    ensures { result ≡ is_unlocked seed lane name.now }
{
    match name {
        Name::Lease(key, _) => seed_in(key.id) != seed || lane_in(key.id) == lane,
        _ => false,
    }
}

// The seed that an identifier has: its upper 64 bits.
fn seed_in(id: u128) -> u64
    ensures { result ≡ id / 2 ^ 64 }
{
    (id >> 64) as u64
}

// The lane that an identifier has.
fn lane_in(id: u128) -> u32
    ensures { result ≡ lane_in id }
{
    ((id >> 32) % (1 << 32)) as u32
}
