//! Of what kind values are.
ghost use Rattle.std.specs.Prelude.{◌≡◌, ◌<◌, ◌≤◌, ◌+◌, ◌^◌, ◌++◌, ◌∷◌, [], drop, length, map, replicate, slice_get, slice_index_or, take, All, IfOk, IsTrue, OnOk, OnErr};
ghost use Rattle.ts_table.specs.declared.kinds.Kind.TheVariants as kind;

use crate::slices::part_of;
use std::alloc::Global;
use std::marker::Model;
use ts_base::OutOfMemory;

/// Of what kind a value is.
#[derive(Clone, Copy, Debug, PartialEq, Eq)]
pub enum Kind {
    /// There is no value.
    Null,
    /// An integer.
    Number,
    /// The bytes of a text or a blob.
    Text,
}

// The most values that the front counts; with the others their number fits 64 bits.
const MOST: u64 = 1 << 62;

/// Of what kind each of some values is.
///
/// As long as all are of one kind they take no memory, and each from the first of another on takes a byte.
/// Kinds that are copied from behind the first of another take a byte each too.
#[derive(Debug, Drop)]
pub struct Kinds {
    first: Kind,
    count: u64,
    rest: Vec<Kind>,
}

impl Model for Kinds {
    ghost use Rattle.std.specs.Prelude.{List, ◌^◌, ◌≤◌, ◌++◌, replicate};
    ghost use Rattle.ts_table.specs.declared.kinds.Kind.{Kind};

    ghost Value = { List Kind };

    ghost view = { λ kinds. replicate kinds.count kinds.first ++ kinds.rest.items };

    ghost invariant = { λ kinds. kinds.count ≤ 2 ^ 62 };
}

impl Kinds {
    /// The kinds of no values. It takes no memory.
    pub fn new(alloc: Global) -> Kinds
        ensures { result ≡ [] }
    {
        Kinds {
            first: Kind::Null,
            count: 0,
            rest: Vec::new(alloc),
        }
    }

    /// The kinds of so many values of one kind. It takes no memory. More than 2^62 end in `OutOfMemory`.
    pub fn same(alloc: Global, kind: Kind, count: u64) -> Result<Kinds, OutOfMemory>
        ensures ok { IfOk result (λ kinds. kinds ≡ replicate count kind) }
        ensures err { OnErr result (2 ^ 62 < count) }
    {
        if count > MOST {
            return Err(OutOfMemory);
        }
        Ok(Kinds {
            first: kind,
            count,
            rest: Vec::new(alloc),
        })
    }

    /// The number of values.
    #[inline(always)]
    pub fn len(&self) -> u64
        ensures { result ≡ length self.now }
    {
        self.count + self.rest.len() as u64
    }

    /// The kind of the value at a place, counted from 0.
    #[inline(always)]
    pub fn at(&self, place: u64) -> Kind
        requires { place < length self.now }
        ensures { slice_get self.now place ≡ Some result }
    {
        if place < self.count {
            self.first
        } else {
            self.rest[(place - self.count) as usize]
        }
    }

    /// Appends the kind of a value. Want of memory leaves them as they were.
    #[inline(always)]
    pub fn push(&mut self, kind: Kind) -> Result<(), OutOfMemory>
        ensures ok { OnOk result (self.new ≡ self.old ++ kind ∷ []) }
        ensures err { OnErr result (self.new ≡ self.old) }
    {
        let goes_on = goes_on(self.first, self.count, self.rest.as_slice(), kind);
        if goes_on && self.count < MOST {
            self.first = kind;
            self.count += 1;
        } else {
            self.rest.push(kind)?;
        }
        Ok(())
    }

    /// Keeps the kinds of the first so many values, or all where there are no more.
    #[tactic(auto, using(crate::proofs::KindLists::cuts))]
    pub(crate) fn truncate(&mut self, count: u64)
        ensures { self.new ≡ take count self.old }
    {
        if count < self.count {
            self.count = count;
            self.rest.truncate(0);
        } else {
            self.rest.truncate((count - self.count) as usize);
        }
    }

    /// Appends the kind of so many values. Want of memory leaves them as they were.
    #[tactic(auto, using(crate::proofs::KindLists::runs))]
    pub(crate) fn push_times(&mut self, kind: Kind, count: u64) -> Result<(), OutOfMemory>
        ensures ok { OnOk result (self.new ≡ self.old ++ replicate count kind) }
        ensures err { OnErr result (self.new ≡ self.old) }
    {
        let goes_on = goes_on(self.first, self.count, self.rest.as_slice(), kind);
        if goes_on && count <= MOST - self.count {
            self.first = kind;
            self.count += count;
            return Ok(());
        }
        self.rest
            .resize(self.rest.len().saturating_add(count as usize), kind)?;
        Ok(())
    }

    /// Appends the kinds of other values from a place on, so many of them. After want of memory nothing is
    /// told of them but their number.
    #[tactic(auto, using(crate::proofs::KindLists::parts))]
    pub(crate) fn append_part(
        &mut self,
        other: &Kinds,
        from: u64,
        count: u64,
    ) -> Result<(), OutOfMemory>
        requires { from + count ≤ length other.now }
        ensures all { OnOk result (self.new ≡ self.old ++ take count (drop from other.now)) }
        ensures long { OnOk result (length self.new ≡ length self.old + count) }
        ensures longer { length self.old ≤ length self.new }
    {
        let rest = other.rest.as_slice();
        if other.count <= from {
            return self.extend(part_of(rest, from - other.count, count));
        }
        let left = other.count - from;
        if count <= left {
            return self.push_times(other.first, count);
        }
        self.extend_by(other.first, left, part_of(rest, 0, count - left))
    }

    // Appends the kind of so many values, and these kinds behind it.
    fn extend_by(&mut self, kind: Kind, count: u64, more: &[Kind]) -> Result<(), OutOfMemory>
        ensures all { OnOk result (self.new ≡ self.old ++ (replicate count kind ++ more.now)) }
        ensures long { OnOk result (length self.new ≡ length self.old + (count + length more.now)) }
        ensures longer { length self.old ≤ length self.new }
    {
        self.push_times(kind, count)?;
        self.extend(more)
    }

    // Appends these kinds. Want of memory leaves them as they were.
    fn extend(&mut self, more: &[Kind]) -> Result<(), OutOfMemory>
        ensures ok { OnOk result (self.new ≡ self.old ++ more.now) }
        ensures err { OnErr result (self.new ≡ self.old) }
    {
        self.rest.extend_from_slice(more)?;
        Ok(())
    }

    /// Whether all values are of this kind. Only where it is true something is told.
    pub(crate) fn are_all(&self, kind: Kind) -> bool
        ensures { IsTrue result → All (λ k. k ≡ kind) self.now }
    {
        (self.count == 0 || self.first == kind) && self.rest.iter().all(|it| *it == kind)
    }

    /// The kinds of the values at these places, in their order.
    #[tactic(auto, using(crate::proofs::KindLists::sames))]
    pub(crate) fn gathered(&self, alloc: Global, places: &[u32]) -> Result<Kinds, OutOfMemory>
        requires { All (λ place. place < length self.now) places.now }
        ensures { IfOk result (λ kinds. kinds ≡ map (λ place. slice_index_or self.now place kind.Null) places.now) }
    {
        if are_none(self.rest.as_slice()) {
            return Ok(Kinds::same(alloc, self.first, places.len() as u64)?);
        }
        let mut kinds = Kinds::new(alloc);
        for place in places {
            kinds.push_from(self, *place as u64)?;
        }
        Ok(kinds)
    }

    // Appends the kind of the value at a place of others. Want of memory leaves them as they were.
    #[tactic(auto, using(crate::proofs::Gathers::nexts))]
    fn push_from(&mut self, other: &Kinds, place: u64) -> Result<(), OutOfMemory>
        requires { place < length other.now }
        ensures ok { OnOk result (self.new ≡ self.old ++ slice_index_or other.now place kind.Null ∷ []) }
        ensures err { OnErr result (self.new ≡ self.old) }
    {
        self.push(other.at(place))
    }
}

// Whether these kinds are none.
fn are_none(kinds: &[Kind]) -> bool
    ensures { IsTrue result → kinds.now ≡ [] }
{
    kinds.is_empty()
}

// Whether values of a kind go on those of the first kind.
fn goes_on(first: Kind, count: u64, rest: &[Kind], kind: Kind) -> bool
    ensures none { IsTrue result → rest.now ≡ [] }
    ensures same { IsTrue result → replicate count first ≡ replicate count kind }
{
    rest.is_empty() && (count == 0 || first == kind)
}
