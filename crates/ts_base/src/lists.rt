//! Lists: a vector that contracts see as the list of its items, its copy, and want of memory.
ghost use Rattle.std.specs.Prelude.{◌≡◌, [], ◌∷◌, ◌++◌, ◌<◌, ◌↔◌, length, slice_get, slice_set, IsTrue, IfOk, MatchOption, OnOk, OnErr};
ghost use Rattle.std.specs.Cmp.Lexicographic.{pointwise, lists_per, lists_equiv};

use std::alloc::{AllocError, AllocFailed, Global};
use std::marker::Model;

/// There was no memory for what was asked. What was to change is as it was.
#[derive(Clone, Copy, Debug, PartialEq, Eq)]
pub struct OutOfMemory;

impl From<AllocError> for OutOfMemory {
    fn from(_error: AllocError) -> OutOfMemory {
        OutOfMemory
    }
}

impl<T: Drop> From<AllocFailed<T>> for OutOfMemory {
    fn from(_error: AllocFailed<T>) -> OutOfMemory {
        OutOfMemory
    }
}

/// A list of items in a vector.
///
/// Contracts see it as the list of its items, so two of them are equal where their items are,
/// wherever the vectors lie in memory.
#[derive(Debug, Drop)]
pub struct Sequence<T> {
    items: Vec<T>,
}

/// A list of bytes.
pub type ByteList = Sequence<u8>;

/// A list of counts, as of cells.
pub type CountList = Sequence<u64>;

/// A list of lengths in bytes.
pub type LengthList = Sequence<u64>;

/// A list of places in another list.
pub type IndexList = Sequence<u32>;

/// For each column in turn, where the values of its cells start.
pub type StartList = Sequence<CountList>;

impl<T> Model for Sequence<T> {
    ghost use Rattle.std.specs.Prelude.{List};
    ghost use Rattle.std.specs.Coded.{coded_list};

    ghost Value = { List T };

    ghost coded = { coded_list T.code };

    ghost view = { λ sequence. sequence.items.items };
}

impl<T> Sequence<T> {
    /// The list of no items. It takes no memory.
    pub fn new(alloc: Global) -> Self
        ensures { result ≡ [] }
    {
        Sequence {
            items: Vec::new(alloc),
        }
    }

    /// The list of the items of a vector. It takes no memory.
    pub fn from_vec(items: Vec<T>) -> Self
        ensures { result ≡ items.items }
    {
        Sequence { items }
    }

    /// The items as a vector. It takes no memory.
    pub fn into_vec(self) -> Vec<T>
        ensures { result.items ≡ self }
    {
        let Sequence { items } = self;
        items
    }

    /// The number of items.
    pub fn len(&self) -> u64
        ensures { result ≡ length self.now }
    {
        self.items.len() as u64
    }

    /// Whether the list holds no item.
    pub fn is_empty(&self) -> bool
        ensures { IsTrue result ↔ (self.now ≡ []) }
    {
        self.items.is_empty()
    }

    /// The item at a place, counted from 0.
    pub fn at(&self, place: u64) -> &T
        requires { place < length self.now }
        ensures { slice_get self.now place ≡ Some result.now }
    {
        &self.items[place as usize]
    }

    /// The items as a slice, to go over them.
    pub fn as_slice(&self) -> &[T]
        ensures { result.now ≡ self.now }
    {
        self.items.as_slice()
    }
}

impl<T: Drop> Sequence<T> {
    /// Appends an item. Want of memory leaves the list as it was.
    pub fn push(&mut self, item: T) -> Result<(), OutOfMemory>
        ensures ok { OnOk result (self.new ≡ self.old ++ item ∷ []) }
        ensures err { OnErr result (self.new ≡ self.old) }
    {
        self.items.push(item)?;
        Ok(())
    }

    /// Puts an item in place of the one at a place, counted from 0.
    pub fn set(&mut self, place: u64, item: T)
        requires { place < length self.old }
        ensures { self.new ≡ slice_set self.old place item }
    {
        self.items[place as usize] = item;
    }

    /// Takes the last item away. It gives None where the list holds none.
    pub fn pop(&mut self) -> Option<T>
        ensures { MatchOption result ((self.old ≡ []) × (self.new ≡ [])) (λ last. self.old ≡ self.new ++ last ∷ []) }
    {
        self.items.pop()
    }
}

impl Sequence<u8> {
    /// The list of these bytes.
    pub fn of_bytes(alloc: Global, bytes: &[u8]) -> Result<ByteList, OutOfMemory>
        ensures { IfOk result (λ list. list ≡ bytes.now) }
    {
        let items = Vec::from_slice(alloc, bytes)?;
        Ok(Sequence { items })
    }

    /// Appends bytes. Want of memory leaves the list as it was.
    pub fn append(&mut self, bytes: &[u8]) -> Result<(), OutOfMemory>
        ensures ok { OnOk result (self.new ≡ self.old ++ bytes.now) }
        ensures err { OnErr result (self.new ≡ self.old) }
    {
        self.items.extend_from_slice(bytes)?;
        Ok(())
    }
}

impl<T: PartialEq> PartialEq for Sequence<T> {
    ghost eq = { λ x y. pointwise T.eq x y };

    ghost laws = { lists_per T.laws };

    fn eq(&self, other: &Self) -> bool {
        self.as_slice() == other.as_slice()
    }
}

impl<T: Eq> Eq for Sequence<T> {
    ghost laws = { lists_equiv T.Eq.laws };
}

/// A type whose values can be copied into new memory.
pub trait Duplicate: Drop + Sized {
    /// A value equal to this one.
    fn copy(&self, alloc: Global) -> Result<Self, OutOfMemory>
        ensures { IfOk result (λ twin. twin ≡ self.now) };

    /// A vector of values equal to these, in one piece of memory.
    fn copies(alloc: Global, items: &[Self]) -> Result<Vec<Self>, OutOfMemory>
        ensures { IfOk result (λ twins. twins.items ≡ items.now) }
    {
        let mut twins = Vec::with_capacity(alloc, items.len())?;
        for item in items {
            twins.push(item.copy(alloc)?)?;
        }
        Ok(twins)
    }
}

impl<T: Copy> Duplicate for T {
    fn copy(&self, _alloc: Global) -> Result<T, OutOfMemory>
        ensures { result ≡ Ok self.now }
    {
        Ok(*self)
    }

    fn copies(alloc: Global, items: &[T]) -> Result<Vec<T>, OutOfMemory> {
        Ok(Vec::from_slice(alloc, items)?)
    }
}

impl<T: Duplicate> Clone for Sequence<T> {
    ghost is_clone = { λ sequence twin. twin ≡ sequence };

    fn clone(&self) -> Result<Self, AllocError> {
        match T::copies(*self.items.allocator(), self.as_slice()) {
            Ok(items) => Ok(Sequence { items }),
            Err(OutOfMemory) => Err(AllocError),
        }
    }
}

impl<T: Duplicate> Duplicate for Sequence<T> {
    fn copy(&self, alloc: Global) -> Result<Self, OutOfMemory> {
        let items = T::copies(alloc, self.as_slice())?;
        Ok(Sequence { items })
    }
}
