//! Lists of integers of 64 bits, and of wider ones behind them.
ghost use Rattle.std.specs.Prelude.{◌≡◌, ◌<◌, [], ◌∷◌, ◌++◌, length, slice_get, OnOk, OnErr, IfSome, IfNone};
ghost use Rattle.ts_table.specs.Longs.{AreLong};

use std::alloc::Global;
use std::marker::Model;
use ts_base::OutOfMemory;

/// A list of integers.
///
/// Those before the first that does not fit 64 bits take 8 bytes each, those from there on 16.
#[derive(Debug, Drop)]
pub(crate) struct LongNumbers {
    long: Vec<i64>,
    wide: Vec<i128>,
}

impl Model for LongNumbers {
    ghost use Rattle.std.specs.Prelude.{List, ℤ, ◌++◌};
    ghost use Rattle.std.specs.Coded.{coded_list, coded_ℤ};
    ghost use Rattle.ts_table.specs.Longs.{IsWideFirst};

    ghost Value = { List ℤ };

    ghost coded = { coded_list coded_ℤ };

    ghost view = { λ numbers. numbers.long.items ++ numbers.wide.items };

    ghost invariant = { λ numbers. IsWideFirst numbers.wide.items };
}

impl LongNumbers {
    /// The list of these integers. It takes no memory.
    pub(crate) fn from_long(alloc: Global, long: Vec<i64>) -> LongNumbers
        ensures { result ≡ long.items }
    {
        LongNumbers {
            long,
            wide: Vec::new(alloc),
        }
    }

    /// The number of integers.
    pub(crate) fn len(&self) -> u64
        ensures { result ≡ length self.now }
    {
        self.long.len() as u64 + self.wide.len() as u64
    }

    /// The integer at a place, counted from 0.
    pub(crate) fn at(&self, place: u64) -> i128
        requires { place < length self.now }
        ensures { slice_get self.now place ≡ Some result }
    {
        let place = place as usize;
        let front = self.long.len();
        if place < front {
            self.long[place] as i128
        } else {
            self.wide[place - front]
        }
    }

    /// Appends an integer. Want of memory leaves the list as it was.
    pub(crate) fn push(&mut self, number: i128) -> Result<(), OutOfMemory>
        ensures ok { OnOk result (self.new ≡ self.old ++ number ∷ []) }
        ensures err { OnErr result (self.new ≡ self.old) }
    {
        match i64::try_from(number) {
            Ok(long) if self.wide.is_empty() => self.long.push(long)?,
            _ => self.wide.push(number)?,
        }
        Ok(())
    }

    /// All integers as a slice, if each fits 64 bits.
    #[tactic(auto, using(crate::proofs::LongLaws::not_long))]
    pub(crate) fn as_long(&self) -> Option<&[i64]>
        ensures all { IfSome result (λ all. all.now ≡ self.now) }
        ensures none { IfNone result (AreLong self.now → ⊥) }
    {
        if self.wide.is_empty() {
            Some(self.long.as_slice())
        } else {
            None
        }
    }

    /// Appends integers that fit 64 bits. Want of memory leaves the list as it was.
    #[tactic(auto, using(crate::proofs::LongLaws::firsts))]
    pub(crate) fn extend_long(&mut self, more: &[i64]) -> Result<(), OutOfMemory>
        ensures ok { OnOk result (self.new ≡ self.old ++ more.now) }
        ensures err { OnErr result (self.new ≡ self.old) }
    {
        if self.wide.is_empty() {
            self.long.extend_from_slice(more)?;
            Ok(())
        } else {
            extend_wide(&mut self.wide, more)
        }
    }
}

// Appends integers. Want of memory leaves the list as it was.
fn extend_wide(wide: &mut Vec<i128>, more: &[i64]) -> Result<(), OutOfMemory>
    ensures ok { OnOk result (wide.new.items ≡ wide.old.items ++ more.now) }
    ensures err { OnErr result (wide.new.items ≡ wide.old.items) }
{
    let before = wide.len();
    for number in more {
        if wide.push(*number as i128).is_err() {
            wide.truncate(before);
            return Err(OutOfMemory);
        }
    }
    Ok(())
}
