//! Comparisons of many integers with one.
ghost use Rattle.std.specs.Prelude.{◌≡◌, ◌&&◌, ◌<ℤ◌, ◌≤ℤ◌, ℤ, pos, length, get_or, FitsSigned};
ghost use Rattle.std.specs.Int.{w32, w64};
ghost use Rattle.std.specs.Ordering.{int_cmp};
ghost use Rattle.ts_base.specs.declared.values.Val.TheVariants as val;
ghost use Rattle.ts_cond.specs.Holds.{compares};
ghost use Rattle.ts_table.specs.Widths.{numbers_seen};
ghost use Rattle.ts_match.specs.Keeping.{is_on, AreKept};

use crate::matching::passes;
use std::cmp::Ordering;
use ts_cond::CondOp;
use ts_table::Integers;

/// A bound, and which integers pass.
#[derive(Clone, Copy)]
pub(crate) struct Sides<T> {
    bound: T,
    // Those below it.
    below: bool,
    // The bound itself.
    there: bool,
    // Those above it.
    above: bool,
}

/// Of the places that are kept, keeps those whose integers compare so with a bound.
///
/// It takes no branch at an integer, so that the compiler compares several at once.
pub(crate) fn keep_compared(op: CondOp, bound: &i128, numbers: Integers<'_>, kept: &mut [bool])
    requires { length (numbers_seen numbers) ≡ length kept.old }
    ensures { AreKept (λ place. compares op (val.Int (get_or (numbers_seen numbers.entry) place (pos 0))) (val.Int bound.now)) kept.old kept.new }
{
    match numbers {
        Integers::Short(numbers) => keep_short(op, bound, numbers, kept),
        Integers::Long(numbers) => keep_long(op, bound, numbers, kept),
    }
}

// Which integers of 32 bits compare so with a bound.
fn short_sides(op: CondOp, bound: &i128) -> Sides<i32>
    ensures { (number : ℤ) → FitsSigned w32 number → is_on result number ≡ compares op (val.Int number) (val.Int bound.now) }
{
    match i32::try_from(*bound) {
        Ok(bound) => Sides {
            bound,
            below: passes(op, Ordering::Less),
            there: passes(op, Ordering::Equal),
            above: passes(op, Ordering::Greater),
        },
        Err(_far) => all_or_none(passes(op, side_of(bound)), 0),
    }
}

// Which integers of 64 bits compare so with a bound.
fn long_sides(op: CondOp, bound: &i128) -> Sides<i64>
    ensures { (number : ℤ) → FitsSigned w64 number → is_on result number ≡ compares op (val.Int number) (val.Int bound.now) }
{
    match i64::try_from(*bound) {
        Ok(bound) => Sides {
            bound,
            below: passes(op, Ordering::Less),
            there: passes(op, Ordering::Equal),
            above: passes(op, Ordering::Greater),
        },
        Err(_far) => all_or_none(passes(op, side_of(bound)), 0),
    }
}

// On which side of a bound the integers lie whose least is above it, or whose greatest is below it.
fn side_of(bound: &i128) -> Ordering
    ensures { (number : ℤ) → (bound.now <ℤ pos 0 → bound.now <ℤ number) → (pos 0 ≤ℤ bound.now → number <ℤ bound.now) → result ≡ int_cmp number bound.now }
{
    if *bound < 0 {
        Ordering::Greater
    } else {
        Ordering::Less
    }
}

// All integers pass, or none.
fn all_or_none<T>(all: bool, bound: T) -> Sides<T>
    ensures below { result.below ≡ all }
    ensures there { result.there ≡ all }
    ensures above { result.above ≡ all }
{
    Sides {
        bound,
        below: all,
        there: all,
        above: all,
    }
}

// Of the places that are kept, keeps those whose integers compare so with a bound.
#[tactic(auto, using(crate::proofs::Kept::steps))]
fn keep_short(op: CondOp, bound: &i128, numbers: &[i32], kept: &mut [bool])
    requires { length numbers.now ≡ length kept.old }
    ensures { AreKept (λ place. compares op (val.Int (get_or numbers.now place (pos 0))) (val.Int bound.now)) kept.old kept.new }
{
    let sides = short_sides(op, bound);
    for place in 0..kept.len() {
        let found = is_short_found(&sides, &numbers[place]);
        kept[place] = both(kept[place], found);
    }
}

// Of the places that are kept, keeps those whose integers compare so with a bound.
#[tactic(auto, using(crate::proofs::Kept::steps))]
fn keep_long(op: CondOp, bound: &i128, numbers: &[i64], kept: &mut [bool])
    requires { length numbers.now ≡ length kept.old }
    ensures { AreKept (λ place. compares op (val.Int (get_or numbers.now place (pos 0))) (val.Int bound.now)) kept.old kept.new }
{
    let sides = long_sides(op, bound);
    for place in 0..kept.len() {
        let found = is_long_found(&sides, &numbers[place]);
        kept[place] = both(kept[place], found);
    }
}

// Whether an integer passes.
fn is_short_found(sides: &Sides<i32>, number: &i32) -> bool
    ensures found { result ≡ is_on sides.now number.now }
    ensures fits { FitsSigned w32 number.now }
{
    let (number, bound) = (*number, sides.bound);
    ((number < bound) & sides.below)
        | ((number == bound) & sides.there)
        | ((number > bound) & sides.above)
}

// Whether an integer passes.
fn is_long_found(sides: &Sides<i64>, number: &i64) -> bool
    ensures found { result ≡ is_on sides.now number.now }
    ensures fits { FitsSigned w64 number.now }
{
    let (number, bound) = (*number, sides.bound);
    ((number < bound) & sides.below)
        | ((number == bound) & sides.there)
        | ((number > bound) & sides.above)
}

// Whether both are so.
fn both(first: bool, second: bool) -> bool
    ensures { result ≡ (first && second) }
{
    first & second
}
