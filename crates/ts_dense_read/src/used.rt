//! The objects of columns that a fetch reads.
ghost use Rattle.std.specs.Prelude.{◌≡◌, ◌≤◌, length, IfOk};
ghost use Rattle.ts_dense_read.specs.SpaceOpens.{space_used};

use std::alloc::Global;
use ts_base::OutOfMemory;
use ts_footer::Footer;
use ts_schema::Attr;
use ts_sparse_read::{UsedList, column_forms, column_parts, used_among};

/// The objects that a fetch reads of a fragment with this metadata, where it reads the attributes at
/// these places. Coordinates have none.
#[tactic(auto, unfolding(crate::specs::SpaceOpens::space_used))]
pub(crate) fn space_used(
    alloc: Global,
    attrs: &[Attr],
    footer: &Footer,
    places: &[u32],
) -> Result<UsedList, OutOfMemory>
    requires few { length attrs.now ≤ 64 }
    ensures { IfOk result (λ used. used ≡ space_used attrs.now footer.now places.now) }
{
    let consolidated = footer.head.consolidated;
    let parts = column_parts(alloc, &[], attrs, consolidated)?;
    let forms = column_forms(alloc, &[], attrs, consolidated)?;
    used_among(
        alloc,
        places,
        parts.as_slice(),
        forms.as_slice(),
        footer.sizes.as_slice(),
    )
}
