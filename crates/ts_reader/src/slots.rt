//! The newest version of each cell of a box, at the place of the cell.
ghost use Rattle.std.specs.Prelude.{◌≡◌, ◌<◌, ◌≤◌, ℕ, All, IfOk, IsTrue, None, Some, length, map, slice_get, true};
ghost use Rattle.std.specs.List.{flat_map};
ghost use Rattle.std.specs.Option.{option_map_or};
ghost use Rattle.ts_base.specs.Keys.{key_lt};
ghost use Rattle.ts_base.specs.declared.heads.Version.{Version as AnyVersion};
ghost use Rattle.ts_actor.specs.PieceLaws.{AreInBox};
ghost use Rattle.ts_domain.specs.Boxes.{IsBox, cells_of, coords_of_box, is_in_box};
ghost use Rattle.ts_model.specs.Pieces.{Newest, newest_after, newest_of, with_version};
ghost use Rattle.ts_model.specs.Queries.{most_cells};
ghost use Rattle.ts_strip.specs.Strips.{strip_versions, IsStrip};
ghost use Rattle.ts_reader.specs.Newest.{slots_in};

use std::alloc::Global;
use ts_base::{Key, OutOfMemory, Sequence};
use ts_batch::{Batch, BatchCell};
use ts_domain::{Order, SubBox};
use ts_order::position_of;
use ts_strip::Strip;

/// For each place of a box the newest version there, if there is one.
pub(crate) type SlotList<'a> = Sequence<Option<BatchCell<'a>>>;

/// The newest of these versions at each place of a box, the places counted from 0 in row order.
pub(crate) fn slots_of<'a>(
    alloc: Global,
    sub: &SubBox,
    got: &[BatchCell<'a>],
) -> Result<SlotList<'a>, OutOfMemory>
    requires valid { IsBox sub.now }
    requires few_cells { cells_of sub.now ≤ most_cells }
    requires inside { AreInBox sub.now got.now }
    ensures { IfOk result (λ slots. slots ≡ slots_in sub.now (newest_of got.now)) }
{
    let mut slots = empty_slots(alloc, sub)?;
    for version in got {
        put(&mut slots, sub, version);
    }
    Ok(slots)
}

// No version at each place.
fn empty_slots<'a>(alloc: Global, sub: &SubBox) -> Result<SlotList<'a>, OutOfMemory>
    requires valid { IsBox sub.now }
    requires few_cells { cells_of sub.now ≤ most_cells }
    ensures { IfOk result (λ slots. slots ≡ map (λ c. None) (coords_of_box sub.now)) }
{
    let mut slots = SlotList::new(alloc);
    for _place in 0..sub.cells() {
        slots.push(None)?;
    }
    Ok(slots)
}

// One version more: it takes the place of an older one.
fn put<'a>(slots: &mut SlotList<'a>, sub: &SubBox, version: &BatchCell<'a>)
    requires few_cells { cells_of sub.now ≤ most_cells }
    requires inside { IsTrue (is_in_box sub.now version.now.coords) }
    requires all { length slots.old ≡ cells_of sub.now }
    ensures { (newest : Newest) → slots.old ≡ slots_in sub.now newest → slots.new ≡ slots_in sub.now (with_version newest version.now) }
{
    let place = position_of(sub, Order::Row, &version.coords());
    put_at(slots, sub, place, version);
}

// One version more, whose cell has this place.
fn put_at<'a>(slots: &mut SlotList<'a>, sub: &SubBox, place: u64, version: &BatchCell<'a>)
    requires below { place < length slots.old }
    requires there { slice_get (coords_of_box sub.now) place ≡ Some version.now.coords }
    requires only { (other : ℕ) → slice_get (coords_of_box sub.now) other ≡ Some version.now.coords → other ≡ place }
    ensures put { (newest : Newest) → slots.old ≡ slots_in sub.now newest → slots.new ≡ slots_in sub.now (with_version newest version.now) }
    ensures long { length slots.new ≡ length slots.old }
{
    if is_new(slots.at(place), version.key()) {
        slots.set(place, Some(version.again()));
    }
}

/// The newest of the versions in strips at each place of a box, the places counted from 0 in row order.
/// No place is looked for.
pub(crate) fn strip_slots<'a>(
    alloc: Global,
    sub: &SubBox,
    batches: &'a [Batch],
    strips: &[Strip],
) -> Result<SlotList<'a>, OutOfMemory>
    requires valid { IsBox sub.now }
    requires few_cells { cells_of sub.now ≤ most_cells }
    requires each { All (IsStrip batches.now (coords_of_box sub.now)) strips.now }
    ensures { IfOk result (λ slots. slots ≡ slots_in sub.now (newest_of (flat_map (strip_versions batches.now) strips.now))) }
{
    let mut slots = empty_slots(alloc, sub)?;
    for strip in strips {
        put_strip(&mut slots, sub, batches, *strip);
    }
    Ok(slots)
}

// The versions of one strip more.
fn put_strip<'a>(slots: &mut SlotList<'a>, sub: &SubBox, batches: &'a [Batch], strip: Strip)
    requires valid { IsBox sub.now }
    requires few_cells { cells_of sub.now ≤ most_cells }
    requires strip { IsStrip batches.now (coords_of_box sub.now) strip }
    requires all { length slots.old ≡ cells_of sub.now }
    ensures put { (newest : Newest) → slots.old ≡ slots_in sub.now newest → slots.new ≡ slots_in sub.now (newest_after newest (strip_versions batches.now strip)) }
    ensures long { length slots.new ≡ length slots.old }
{
    let batch = &batches[strip.batch as usize];
    let _long = batch.len(); // so the places fit 64 bits
    for step in 0..strip.count {
        let version = BatchCell::of(batch, strip.place + step);
        put_at(slots, sub, strip.start + step, &version);
    }
}

// Whether there is no version, or one with a lower key.
fn is_new(other: &Option<BatchCell>, key: Key) -> bool
    ensures { result ≡ option_map_or (λ (v : AnyVersion). key_lt v.key key) other.now true }
{
    match other {
        None => true,
        Some(other) => other.key() < key,
    }
}
