//! Open fragments: their heads, and those of them that a job takes.
ghost use Rattle.std.specs.Prelude.{◌≡◌, IfOk};
ghost use Rattle.ts_model.specs.States.{heads_of, opened_among};

use std::alloc::Global;
use ts_base::{FragList, HeadList, OutOfMemory};
use ts_commit::set_of;
use ts_model::{Opened, OpenedList};

/// The heads of open fragments, in their order.
pub fn heads_of(alloc: Global, opened: &[Opened]) -> Result<HeadList, OutOfMemory>
    ensures { IfOk result (λ heads. heads ≡ heads_of opened.now) }
{
    let mut heads = HeadList::new(alloc);
    for one in opened {
        heads.push(one.head.clone()?)?;
    }
    Ok(heads)
}

/// Those of the open fragments that are among these, in their order.
pub fn opened_among(
    alloc: Global,
    frags: &FragList,
    opened: OpenedList,
) -> Result<OpenedList, OutOfMemory>
    ensures { IfOk result (λ chosen. chosen ≡ opened_among frags.now opened) }
{
    let set = set_of(alloc, frags.as_slice())?;
    let mut chosen = OpenedList::new(alloc);
    for one in opened.into_vec() {
        if set.contains(&one.frag) {
            chosen.push(one)?;
        }
    }
    Ok(chosen)
}
