//! Loading: which of its fragments a read fetches.
ghost use Rattle.std.specs.Prelude.{◌≡◌, IfOk, All};
ghost use Rattle.ts_model.specs.States.{heads_of, loaded_of, opened_among, with_clipped};
ghost use Rattle.ts_commit.specs.Selections.{clipped_names};
ghost use Rattle.ts_actor.specs.Listings.{AreSpelled};

use std::alloc::Global;
use ts_actor::{heads_of, opened_among};
use ts_base::{Boxed, FragList, OutOfMemory};
use ts_commit::{Selection, selection_of};
use ts_model::{OpenedList, Reading};

/// What a read reads, and the fragments that it loads.
#[derive(Drop)]
pub(crate) struct Loaded {
    /// What it reads, with the fragments that are clipped.
    pub reading: Boxed<Reading>,
    /// The fragments.
    pub chosen: OpenedList,
}

/// Which of the open fragments a read loads, and which are clipped.
pub(crate) fn choose(
    alloc: Global,
    reading: Boxed<Reading>,
    opened: OpenedList,
) -> Result<Loaded, OutOfMemory>
    requires { AreSpelled opened }
    ensures reading { IfOk result (λ loaded. loaded.reading ≡ with_clipped reading (clipped_names reading.from reading.to (heads_of opened))) }
    ensures chosen { IfOk result (λ loaded. loaded.chosen ≡ opened_among (loaded_of reading opened) opened) }
    ensures spelled { IfOk result (λ loaded. AreSpelled loaded.chosen) }
{
    let heads = heads_of(alloc, opened.as_slice())?;
    let known = reading.get();
    let Selection { loaded, clipped } = selection_of(
        alloc,
        &heads,
        &known.vacs,
        known.from,
        known.to,
    )?;
    let chosen = opened_among(alloc, &loaded, opened)?;
    Ok(Loaded {
        reading: with_clipped(alloc, reading, clipped)?,
        chosen,
    })
}

// A read that knows which fragments are clipped.
fn with_clipped(
    alloc: Global,
    reading: Boxed<Reading>,
    clipped: FragList,
) -> Result<Boxed<Reading>, OutOfMemory>
    ensures { IfOk result (λ known. known ≡ with_clipped reading clipped) }
{
    let mut reading = reading.into_inner();
    reading.clipped = clipped;
    Boxed::new(alloc, reading)
}
