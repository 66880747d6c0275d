//! The rules of the fields of a plain object.
ghost use Rattle.std.specs.Prelude.{◌≡◌, ◌≤◌, ◌<◌, ◌^◌, length, IsTrue, MatchOption};
ghost use Rattle.std.specs.List.{All};
ghost use Rattle.ts_base.specs.Keys.{key_eq};
ghost use Rattle.ts_domain.specs.Bounds.{count_between};
ghost use Rattle.ts_domain.specs.Domains.{is_in_domain};
ghost use Rattle.ts_plain.specs.Rules.{is_on_side, volume, counted, may_span, is_full, may_hold, may_count, own_key, last_of, rises_from, may_end, may_be_origin, coords_rise, origin_rises};
ghost use Rattle.ts_plain.specs.Insides.{IsSide, IsInside};

use crate::stored::{Side, StoredCellList};
use std::cmp::Ordering;
use ts_base::{Coords, FragKey, Key, KeyList};
use ts_order::cmp_global;
use ts_schema::Frame;

/// Whether the coordinate lies on the side.
pub fn is_on_side(side: Side, x: i128) -> bool
    ensures { result ≡ is_on_side side x }
{
    side.low <= x && x <= side.high
}

/// Whether a fragment of this span may be consolidated, or not be: one that is not has one timestamp.
pub fn may_span(frag: FragKey, consolidated: bool) -> bool
    ensures { result ≡ may_span frag consolidated }
{
    consolidated || frag.t1 == frag.t2
}

/// Whether a fragment has each cell of its hull: one of a dense array that is not consolidated.
pub fn is_full(dense: bool, consolidated: bool) -> bool
    ensures { result ≡ is_full dense consolidated }
{
    dense && !consolidated
}

// How many numbers lie on the side, where that is below 2^64.
#[tactic(auto, using(crate::proofs::Volumes::count_is))]
fn count_of(side: &Side) -> Option<u64>
    requires { IsSide side.now }
    ensures { MatchOption result (2 ^ 64 ≤ count_between side.now.low side.now.high) (λ count. count ≡ count_between side.now.low side.now.high) }
{
    let count = side.high - side.low + 1;
    if count <= u64::MAX as i128 {
        Some(count as u64)
    } else {
        None
    }
}

// How many cells lie between the sides, where that is below 2^64.
#[tactic(auto, using(crate::proofs::Volumes::volume_loop))]
fn volume(hull: &[Side]) -> Option<u64>
    requires { All IsSide hull.now }
    ensures { MatchOption result (2 ^ 64 ≤ volume hull.now) (λ count. count ≡ volume hull.now) }
{
    let mut cells: u64 = 1;
    for side in hull {
        let count = count_of(side)?;
        cells = cells.checked_mul(count)?;
    }
    Some(cells)
}

/// How many cells the head of a fragment of this hull tells of: a dense one of those of its hull, or of
/// 2^64 - 1 where there are more, another of so many as it stores.
pub fn counted(dense: bool, hull: &[Side], many: u64) -> u64
    requires { All IsSide hull.now }
    ensures { result ≡ counted dense hull.now many }
{
    if dense {
        volume(hull).unwrap_or(u64::MAX)
    } else {
        many
    }
}

/// Whether a fragment of this hull may have so many cells: a full one has each cell of the hull,
/// another has one or more.
pub fn may_hold(full: bool, hull: &[Side], cells: u64) -> bool
    requires { All IsSide hull.now }
    ensures { result ≡ may_hold full hull.now cells }
{
    if full {
        volume(hull) == Some(cells)
    } else {
        cells >= 1
    }
}

/// Whether a fragment may have so many origins: one that is not consolidated has one.
pub fn may_count(consolidated: bool, count: u32) -> bool
    ensures { result ≡ may_count consolidated count }
{
    if consolidated { count >= 1 } else { count == 1 }
}

/// Whether the key may be an origin of the fragment, of so many, behind those before it.
pub fn may_be_origin(
    frag: FragKey,
    consolidated: bool,
    count: u32,
    front: &KeyList,
    key: Key,
) -> bool
    requires { length front.now < count }
    ensures { result ≡ may_be_origin frag consolidated count front.now key }
{
    if consolidated {
        rises_from(frag, front, key) && may_end(frag, front.len() + 1 == count as u64, key)
    } else {
        is_own_key(frag, key)
    }
}

fn is_own_key(frag: FragKey, key: Key) -> bool
    ensures { result ≡ key_eq key (own_key frag) }
{
    let own = Key {
        t: frag.t1,
        id: frag.id,
    };
    key.cmp(&own).is_eq()
}

fn rises_from(frag: FragKey, front: &KeyList, key: Key) -> bool
    ensures { result ≡ rises_from frag (last_of front.now) key }
{
    match front.as_slice().last() {
        None => key.t == frag.t1,
        Some(before) => before.cmp(&key).is_lt(),
    }
}

fn may_end(frag: FragKey, is_last: bool, key: Key) -> bool
    ensures { result ≡ may_end frag is_last key }
{
    !is_last || key.t == frag.t2
}

/// Whether a cell of these coordinates may stand behind those cells, in global order.
pub fn coords_rise(frame: &Frame, front: &StoredCellList, coords: &Coords) -> bool
    requires before { All (IsInside frame.now) front.now }
    requires inside { IsTrue (is_in_domain frame.now.domain coords.now) }
    ensures { result ≡ coords_rise frame.now (last_of front.now) coords.now }
{
    match front.as_slice().last() {
        None => true,
        Some(before) => {
            let order = cmp_global(
                &frame.domain,
                frame.tile,
                frame.cell,
                &before.coords,
                coords,
            );
            order != Ordering::Greater
        }
    }
}

/// Whether a cell of these coordinates and this origin may stand behind those cells, where its
/// coordinates may: equal coordinates need a greater origin, and come in sparse arrays alone.
pub fn origin_rises(dense: bool, front: &StoredCellList, coords: &Coords, origin: u32) -> bool
    ensures { result ≡ origin_rises dense (last_of front.now) coords.now origin }
{
    match front.as_slice().last() {
        None => true,
        Some(before) => before.coords != *coords || (!dense && before.origin < origin),
    }
}
