//! Reading what the metadata says of the objects of the columns.
ghost use Rattle.std.specs.Prelude.{◌≡◌, ◌<◌, ◌^◌, [], IfOk};
ghost use Rattle.ts_wire.specs.Reading.{Reads, ReadsOr};
ghost use Rattle.ts_footer.specs.Columns.{fixed_at, start_at, starts_at, size_at, sizes_at};

use crate::columns::{ColumnForm, ColumnSize, SizeList};
use std::alloc::Global;
use ts_base::CountList;
use ts_wire::{Cursor, Damaged, ReadFault, kept};

// The bytes of an envelope.
const ENVELOPE: u64 = 14;

// A length that is known.
#[tactic(auto, unfolding(crate::specs::Columns::fixed_at))]
fn read_fixed(width: u8, cells: u64, cursor: &mut Cursor) -> Result<u64, Damaged>
    ensures { Reads (λ length. length) (fixed_at width cells) cursor.old cursor.new result }
{
    let at = cursor.at();
    let length = cursor.u64()?;
    let known = u128::from(ENVELOPE) + u128::from(width) * u128::from(cells);
    kept(at, length, u128::from(length) == known)
}

// Where a tile starts, behind those before it.
#[tactic(auto, unfolding(crate::specs::Columns::start_at))]
fn read_start(end: u64, front: &CountList, cursor: &mut Cursor) -> Result<u64, Damaged>
    ensures { Reads (λ start. start) (start_at end front.now) cursor.old cursor.new result }
{
    let at = cursor.at();
    let start = cursor.u64()?;
    let follows = match front.as_slice().last() {
        None => start == ENVELOPE,
        Some(before) => *before <= start,
    };
    kept(at, start, follows && start <= end)
}

#[tactic(auto, using(ts_wire::proofs::Loop::items_loop), unfolding(crate::specs::Columns::starts_at))]
fn read_starts(
    alloc: Global,
    tiles: u32,
    end: u64,
    cursor: &mut Cursor,
) -> Result<CountList, ReadFault>
    ensures { ReadsOr (λ starts. starts) (starts_at tiles end) cursor.old cursor.new result }
{
    let mut starts = CountList::new(alloc);
    for tile in 0..tiles {
        let start = read_start(end, &starts, cursor)?;
        starts.push(start)?;
    }
    Ok(starts)
}

#[tactic(auto, unfolding(crate::specs::Columns::size_at))]
fn read_size(
    alloc: Global,
    form: ColumnForm,
    cells: u64,
    tiles: u32,
    cursor: &mut Cursor,
) -> Result<ColumnSize, ReadFault>
    ensures { ReadsOr (λ size. size) (size_at cells tiles form) cursor.old cursor.new result }
{
    match form {
        ColumnForm::Fixed(width) => {
            let length = read_fixed(width, cells, cursor)?;
            let starts = CountList::new(alloc);
            Ok(ColumnSize { length, starts })
        }
        ColumnForm::Var => {
            let length = cursor.u64()?;
            let starts = read_starts(alloc, tiles, length, cursor)?;
            Ok(ColumnSize { length, starts })
        }
    }
}

/// What the metadata says of each object of these forms.
#[tactic(auto, using(ts_wire::proofs::Loop::each_number_loop), unfolding(crate::specs::Columns::sizes_at))]
pub(crate) fn read_sizes(
    alloc: Global,
    forms: &[ColumnForm],
    cells: u64,
    tiles: u32,
    cursor: &mut Cursor,
) -> Result<SizeList, ReadFault>
    ensures { ReadsOr (λ sizes. sizes) (sizes_at cells tiles forms.now) cursor.old cursor.new result }
{
    let mut sizes = SizeList::new(alloc);
    for form in forms {
        let size = read_size(alloc, *form, cells, tiles, cursor)?;
        sizes.push(size)?;
    }
    Ok(sizes)
}
