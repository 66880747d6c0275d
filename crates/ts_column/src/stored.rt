//! Values as they are stored, and the marks that say which of them are there.
ghost use Rattle.std.specs.Prelude.{◌≡◌, ◌<◌, length, nat_eq, replicate, slice_index_or, true, IfOk, IsTrue, Ok};
ghost use Rattle.std.specs.List.{list_all};
ghost use Rattle.ts_base.specs.declared.values.Val.TheVariants as val;
ghost use Rattle.ts_wire.specs.Place.{each_at};
ghost use Rattle.ts_wire.specs.Reading.{Reads, ReadsOr, DecodesOr};
ghost use Rattle.ts_column.specs.Stored.{stored_vals, kinds_vals, kind_of, kind_val};
ghost use Rattle.ts_column.specs.Tiles.{is_blank, cell_at, cells_in};

use std::alloc::Global;
use ts_table::{Column, Kind, Kinds, Numbers, Texts};
use ts_wire::{Cursor, Damaged, ReadFault};

/// The stored values of some cells.
#[derive(Debug, Drop)]
pub(crate) enum Stored {
    /// Integers.
    Numbers(Numbers),
    /// The bytes of texts or blobs.
    Texts(Texts),
}

impl Stored {
    /// The number of values.
    #[tactic(auto, using(crate::proofs::StoredLaws::lengths))]
    pub(crate) fn len(&self) -> u64
        ensures { result ≡ length (stored_vals self.now) }
    {
        match self {
            Stored::Numbers(numbers) => numbers.len(),
            Stored::Texts(texts) => texts.len(),
        }
    }

    /// The kind of the values.
    pub(crate) fn kind(&self) -> Kind
        ensures { result ≡ kind_of self.now }
    {
        match self {
            Stored::Numbers(_) => Kind::Number,
            Stored::Texts(_) => Kind::Text,
        }
    }

    /// Whether the value at a place is one that a null is stored as: 0, or no bytes.
    #[tactic(auto, using(crate::proofs::StoredLaws::blanks))]
    pub(crate) fn is_blank(&self, place: u64) -> bool
        requires { place < length (stored_vals self.now) }
        ensures { result ≡ is_blank (slice_index_or (stored_vals self.now) place val.Null) }
    {
        match self {
            Stored::Numbers(numbers) => numbers.at_or_zero(place) == 0,
            Stored::Texts(texts) => texts.at_or_none(place).is_empty(),
        }
    }

    /// The column of the values of these kinds. It takes no memory.
    #[tactic(auto, using(crate::proofs::StoredLaws::lengths))]
    pub(crate) fn into_column(self, alloc: Global, kinds: Kinds) -> Column
        requires { length kinds ≡ length (stored_vals self) }
        ensures { result ≡ kinds_vals self kinds }
    {
        match self {
            Stored::Numbers(numbers) => Column::of(kinds, numbers, Texts::new(alloc)),
            Stored::Texts(texts) => Column::of(kinds, Numbers::new(alloc), texts),
        }
    }
}

/// Of what kind each value is: null where its mark says so. Where there can be no null there are no
/// marks.
#[tactic(auto, using(crate::proofs::StoredLaws::all_kinds))]
pub(crate) fn read_kinds(
    alloc: Global,
    nullable: bool,
    stored: &Stored,
    bytes: &[u8],
) -> Result<Kinds, ReadFault>
    ensures reads { DecodesOr (λ kinds. kinds_vals stored.now kinds) (cells_in nullable (stored_vals stored.now) bytes.now) result }
    ensures many { IfOk result (λ kinds. length kinds ≡ length (stored_vals stored.now)) }
{
    if nullable {
        return read_marks(alloc, stored, bytes);
    }
    let mut cursor = Cursor::new(bytes, 0);
    cursor.end()?;
    Ok(Kinds::same(alloc, stored.kind(), stored.len())?)
}

// Of what kind each value is by its mark.
fn read_marks(alloc: Global, stored: &Stored, bytes: &[u8]) -> Result<Kinds, ReadFault>
    ensures reads { DecodesOr (λ kinds. kinds_vals stored.now kinds) (cells_in true (stored_vals stored.now) bytes.now) result }
    ensures many { IfOk result (λ kinds. length kinds ≡ length (stored_vals stored.now)) }
{
    if are_all_there(stored, bytes) {
        return Ok(Kinds::same(alloc, stored.kind(), stored.len())?);
    }
    let mut cursor = Cursor::new(bytes, 0);
    let kinds = read_each_kind(alloc, stored, &mut cursor)?;
    cursor.end()?;
    Ok(kinds)
}

// Whether there is a mark for each value, and each says that the value is there.
fn are_all_there(stored: &Stored, marks: &[u8]) -> bool
    ensures { IsTrue result → cells_in true (stored_vals stored.now) marks.now ≡ Ok (kinds_vals stored.now (replicate (length (stored_vals stored.now)) (kind_of stored.now))) }
{
    if marks.len() as u64 != stored.len() {
        return false;
    }
    are_ones(marks)
}

// Whether all marks say that a value is there.
fn are_ones(marks: &[u8]) -> bool
    ensures { result ≡ list_all (λ b. nat_eq b 1) marks.now }
{
    marks.iter().all(|b| *b == 1)
}

// Of what kind each value is by its mark, read one by one.
fn read_each_kind(alloc: Global, stored: &Stored, cursor: &mut Cursor) -> Result<Kinds, ReadFault>
    ensures reads { ReadsOr (λ kinds. kinds_vals stored.now kinds) (each_at cell_at (stored_vals stored.now)) cursor.old cursor.new result }
    ensures many { IfOk result (λ kinds. length kinds ≡ length (stored_vals stored.now)) }
{
    let mut kinds = Kinds::new(alloc);
    for place in 0..stored.len() {
        match read_kind(stored, place, cursor) {
            Ok(kind) => kinds.push(kind)?,
            Err(damaged) => return Err(ReadFault::Damaged(damaged)),
        }
    }
    Ok(kinds)
}

// The kind that the mark of the value at a place tells.
#[tactic(auto, using(crate::proofs::StoredLaws::marks))]
fn read_kind(stored: &Stored, place: u64, cursor: &mut Cursor) -> Result<Kind, Damaged>
    requires { place < length (stored_vals stored.now) }
    ensures { Reads (λ kind. kind_val stored.now kind place) (cell_at (slice_index_or (stored_vals stored.now) place val.Null)) cursor.old cursor.new result }
{
    let at = cursor.at();
    let there = cursor.bool()?;
    if there {
        return Ok(stored.kind());
    }
    if stored.is_blank(place) {
        Ok(Kind::Null)
    } else {
        Err(Damaged { at })
    }
}
