//! The metadata of a dense fragment.
ghost use Rattle.std.specs.Prelude.{◌≡◌, ◌<◌, ◌^◌, length, All, IfOk};
ghost use Rattle.ts_wire.specs.declared.kinds.Kind.TheVariants as kind;
ghost use Rattle.ts_wire.specs.Envelope.{wrapped};
ghost use Rattle.ts_dense.specs.Laying.{meta_with};

use std::alloc::Global;
use ts_base::{ByteList, Head, OutOfMemory};
use ts_plain::write_head;
use ts_sparse::write_sizes;
use ts_wire::{Kind, Scribe};

/// The object of the metadata, of a fragment of so many tiles, whose columns' objects have these sizes.
#[tactic(auto, unfolding(crate::specs::Laying::meta_with))]
pub(crate) fn meta_object(
    alloc: Global,
    head: &Head,
    tiles: u32,
    sizes: &[u64],
) -> Result<ByteList, OutOfMemory>
    requires corners { length head.now.high ≡ length head.now.low }
    requires few { length head.now.origins < 2 ^ 32 }
    ensures spelled { IfOk result (λ bytes. bytes ≡ wrapped kind.Meta (meta_with head.now tiles sizes.now)) }
    ensures lengths { All (λ size. size < 2 ^ 64) sizes.now }
{
    let mut scribe = Scribe::new(alloc);
    write_head(&mut scribe, head)?;
    scribe.u32(tiles)?;
    write_sizes(&mut scribe, sizes)?;
    scribe.into_object(Kind::Meta)
}
