//! What is read of a space tile.
ghost use Rattle.std.specs.Prelude.{◌≡◌, length, replicate, All, IfErr, IfOk, IfSome, IsTrue};

use std::marker::Model;
use ts_base::IndexList;
use ts_column::ColumnList;

/// What stands for the origin of a slot without a cell.
pub(crate) const NO_ORIGIN: u32 = 4_294_967_295;

/// The columns of a space tile, of as many values each as it has slots.
#[derive(Debug, Drop)]
pub(crate) struct TileSlots {
    /// The number of slots.
    pub(crate) count: u64,
    /// Which write each slot is of, by its place among the origins, or [`NO_ORIGIN`] in a hole.
    pub(crate) origins: SlotOrigins,
    /// The values, one column for each attribute.
    pub(crate) vals: ColumnList,
}

/// How the origins of slots lie in memory.
#[derive(Debug, Drop)]
pub(crate) enum HeldOrigins {
    /// One origin, and how many slots have it.
    One(u32, u64),
    /// The origin of each slot.
    Each(IndexList),
}

/// The origins of slots. Contracts see the list of these. Where all slots have one
/// origin it is held once.
#[derive(Debug, Drop)]
pub(crate) struct SlotOrigins {
    held: HeldOrigins,
}

impl Model for SlotOrigins {
    ghost use Rattle.std.specs.Prelude.{ℕ, List};

    ghost Value = { List ℕ };

    ghost use Rattle.ts_dense_read.specs.Origins.{origins_held};

    ghost view = { λ origins. origins_held origins.held };
}

impl SlotOrigins {
    /// So many slots of one origin. It takes no memory.
    pub(crate) fn one(origin: u32, count: u64) -> SlotOrigins
        ensures { result ≡ replicate count origin }
    {
        SlotOrigins {
            held: HeldOrigins::One(origin, count),
        }
    }

    /// Slots of these origins. It takes no memory.
    pub(crate) fn of(origins: IndexList) -> SlotOrigins
        ensures { result ≡ origins }
    {
        match common(origins.as_slice()) {
            Some(origin) => SlotOrigins::one(origin, origins.len()),
            None => SlotOrigins {
                held: HeldOrigins::Each(origins),
            },
        }
    }

    /// The origin of each slot, or the one that all of them have.
    pub(crate) fn into_each(self) -> Result<IndexList, u32>
        ensures ok { IfOk result (λ origins. origins ≡ self) }
        ensures err { IfErr result (λ origin. self ≡ replicate (length self) origin) }
    {
        let SlotOrigins { held } = self;
        match held {
            HeldOrigins::One(origin, _count) => Err(origin),
            HeldOrigins::Each(origins) => Ok(origins),
        }
    }
}

// The number that all of these are, if there is one.
#[tactic(auto, using(crate::proofs::OriginLists::alikes))]
fn common(numbers: &[u32]) -> Option<u32>
    ensures { IfSome result (λ number. numbers.now ≡ replicate (length numbers.now) number) }
{
    let first = *numbers.first()?;
    if are_all(numbers, first) {
        Some(first)
    } else {
        None
    }
}

// Whether all numbers are this one.
fn are_all(numbers: &[u32], number: u32) -> bool
    ensures { IsTrue result → All (λ n. n ≡ number) numbers.now }
{
    numbers.iter().all(|it| *it == number)
}
