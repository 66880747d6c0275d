//! The coordinates of the cells of a tile.
ghost use Rattle.std.specs.Prelude.{◌≡◌, ◌<◌, ◌≤◌, ◌*◌, ◌&&◌, int_le, length, slice_index_or, None, pos, IfOk, IsTrue};
ghost use Rattle.std.specs.List.{list_all, list_any, position_from};
ghost use Rattle.ts_base.specs.Values.{is_integer, width_of};
ghost use Rattle.ts_wire.specs.Reading.{DecodesOr};
ghost use Rattle.ts_column.specs.Coords.{coords_in, first_out, is_out, AreCoords};

use crate::bytes::are_bytes;
use crate::numbers::read_numbers;
use std::alloc::Global;
use ts_base::ValType;
use ts_table::{Integers, Numbers};
use ts_wire::{Damaged, ReadFault};

/// The coordinates of so many cells along a dimension of this type, whose tile goes from `low` to
/// `high` there.
///
/// A coordinate outside is broken. Where no cell is at the low end, or none at the high one, the first
/// coordinate is. Bytes that are too few or too many are broken there, before any coordinate.
pub fn decode_coords(
    alloc: Global,
    ty: ValType,
    low: &i128,
    high: &i128,
    count: u64,
    bytes: &[u8],
) -> Result<Numbers, ReadFault>
    requires { IsTrue (is_integer ty) }
    ensures decodes { DecodesOr (λ coords. coords) (coords_in ty low.now high.now count bytes.now) result }
    ensures spelled { IfOk result (AreCoords ty low.now high.now count bytes.now) }
{
    are_bytes(bytes);
    read_coords(alloc, ty, low, high, count, bytes)
}

#[tactic(auto, using(crate::proofs::CoordLaws::answers))]
fn read_coords(
    alloc: Global,
    ty: ValType,
    low: &i128,
    high: &i128,
    count: u64,
    bytes: &[u8],
) -> Result<Numbers, ReadFault>
    requires { IsTrue (is_integer ty) }
    ensures { DecodesOr (λ coords. coords) (coords_in ty low.now high.now count bytes.now) result }
{
    let coords = match read_numbers(alloc, ty, count, bytes) {
        Ok(coords) => coords,
        Err(fault) => return Err(fault),
    };
    match first_out(&coords, low, high) {
        None => Ok(coords),
        Some(place) => {
            are_bytes(bytes);
            let at = offset_of(place, ty, bytes);
            Err(ReadFault::Damaged(Damaged { at }))
        }
    }
}

// The offset of the coordinate at a place.
fn offset_of(place: u64, ty: ValType, bytes: &[u8]) -> u64
    requires { place * width_of ty ≤ length bytes.now }
    ensures { result ≡ place * width_of ty }
{
    let _count = bytes.len();
    place * u64::from(ty.width())
}

// The place of the coordinate that is broken first, if one is.
fn first_out(coords: &Numbers, low: &i128, high: &i128) -> Option<u64>
    ensures { result ≡ first_out low.now high.now coords.now }
{
    if do_span(coords, *low, *high) {
        None
    } else {
        sought_out(coords, low, high)
    }
}

// Whether no coordinate is broken. Where it says no, there may be none all the same.
fn do_span(coords: &Numbers, low: i128, high: i128) -> bool
    ensures { IsTrue result → first_out low high coords.now ≡ None }
{
    match coords.as_slice() {
        Some(Integers::Short(all)) => match (i32::try_from(low), i32::try_from(high)) {
            (Ok(low), Ok(high)) => do_short_span(all, &low, &high),
            _ => false,
        },
        Some(Integers::Long(all)) => match (i64::try_from(low), i64::try_from(high)) {
            (Ok(low), Ok(high)) => do_long_span(all, &low, &high),
            _ => false,
        },
        None => false,
    }
}

fn do_short_span(all: &[i32], low: &i32, high: &i32) -> bool
    ensures { IsTrue result → first_out low.now high.now all.now ≡ None }
{
    if !has_short_at_most(all, low) || !has_short_at_least(all, high) {
        return false;
    }
    are_short_within(all, low, high)
}

fn has_short_at_most(all: &[i32], low: &i32) -> bool
    ensures { result ≡ list_any (λ x. int_le x low.now) all.now }
{
    all.iter().any(|x| *x <= *low)
}

fn has_short_at_least(all: &[i32], high: &i32) -> bool
    ensures { result ≡ list_any (λ x. int_le high.now x) all.now }
{
    all.iter().any(|x| *high <= *x)
}

fn are_short_within(all: &[i32], low: &i32, high: &i32) -> bool
    ensures { result ≡ list_all (λ x. int_le low.now x && int_le x high.now) all.now }
{
    all.iter().all(|x| *low <= *x && *x <= *high)
}

fn do_long_span(all: &[i64], low: &i64, high: &i64) -> bool
    ensures { IsTrue result → first_out low.now high.now all.now ≡ None }
{
    if !has_long_at_most(all, low) || !has_long_at_least(all, high) {
        return false;
    }
    are_long_within(all, low, high)
}

fn has_long_at_most(all: &[i64], low: &i64) -> bool
    ensures { result ≡ list_any (λ x. int_le x low.now) all.now }
{
    all.iter().any(|x| *x <= *low)
}

fn has_long_at_least(all: &[i64], high: &i64) -> bool
    ensures { result ≡ list_any (λ x. int_le high.now x) all.now }
{
    all.iter().any(|x| *high <= *x)
}

fn are_long_within(all: &[i64], low: &i64, high: &i64) -> bool
    ensures { result ≡ list_all (λ x. int_le low.now x && int_le x high.now) all.now }
{
    all.iter().all(|x| *low <= *x && *x <= *high)
}

// The place of the coordinate that is broken first, if one is, sought one by one.
#[tactic(auto, using(crate::proofs::CoordLaws::outs), unfolding(crate::specs::Coords::first_out))]
fn sought_out(coords: &Numbers, low: &i128, high: &i128) -> Option<u64>
    ensures { result ≡ first_out low.now high.now coords.now }
{
    if !has_at_most(coords, low) || !has_at_least(coords, high) {
        return Some(0);
    }
    outside(coords, low, high)
}

#[tactic(auto, using(crate::proofs::CoordLaws::at_most))]
fn has_at_most(coords: &Numbers, low: &i128) -> bool
    ensures { result ≡ list_any (λ x. int_le x low.now) coords.now }
{
    for place in 0..coords.len() {
        if is_at_most(coords, place, low) {
            return true;
        }
    }
    false
}

#[tactic(auto, using(crate::proofs::CoordLaws::got))]
fn is_at_most(coords: &Numbers, place: u64, low: &i128) -> bool
    requires { place < length coords.now }
    ensures { result ≡ int_le (slice_index_or coords.now place (pos 0)) low.now }
{
    coords.at(place) <= *low
}

#[tactic(auto, using(crate::proofs::CoordLaws::at_least))]
fn has_at_least(coords: &Numbers, high: &i128) -> bool
    ensures { result ≡ list_any (λ x. int_le high.now x) coords.now }
{
    for place in 0..coords.len() {
        if is_at_least(coords, place, high) {
            return true;
        }
    }
    false
}

#[tactic(auto, using(crate::proofs::CoordLaws::got))]
fn is_at_least(coords: &Numbers, place: u64, high: &i128) -> bool
    requires { place < length coords.now }
    ensures { result ≡ int_le high.now (slice_index_or coords.now place (pos 0)) }
{
    *high <= coords.at(place)
}

#[tactic(auto, using(crate::proofs::CoordLaws::positions))]
fn outside(coords: &Numbers, low: &i128, high: &i128) -> Option<u64>
    ensures { result ≡ position_from (is_out low.now high.now) 0 coords.now }
{
    for place in 0..coords.len() {
        if !is_at_least(coords, place, low) || !is_at_most(coords, place, high) {
            return Some(place);
        }
    }
    None
}
