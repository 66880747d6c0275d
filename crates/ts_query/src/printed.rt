//! Printed text in pieces.
ghost use Rattle.std.specs.Prelude.{◌≡◌, ◌++◌, ◌<◌, [], length, slice_index_or, OnOk};
ghost use Rattle.std.specs.List.{flat_map};
ghost use Rattle.ts_query.specs.Rows.{row_text};

use crate::rows::print_row;
use std::alloc::Global;
use std::marker::Model;
use std::mem;
use ts_base::{ByteList, OutOfMemory, ValType};
use ts_batch::RowBatch;

/// How many bytes a piece has room for.
const PIECE: usize = 65536;

/// A piece with so many bytes is full, so that most texts behind it begin another.
const FULL: usize = PIECE - 4096;

/// A printed text. It stands in pieces, so that a long one takes no more memory than it has bytes, and
/// none is moved as it grows. Contracts see the text.
#[derive(Drop)]
pub struct Printed {
    // The pieces that are full.
    full: Vec<ByteList>,
    // The text behind them.
    last: Vec<u8>,
}

/// The pieces of a printed text.
#[derive(Drop)]
pub struct PrintedParts<'a> {
    /// The pieces that are full.
    pub full: &'a [ByteList],
    /// The text behind them.
    pub last: &'a [u8],
}

impl Model for Printed {
    ghost use Rattle.std.specs.Prelude.{ℕ, List, ◌++◌};
    ghost use Rattle.std.specs.List.{flat_map};

    ghost Value = { List ℕ };

    ghost view = { λ text. flat_map (λ (piece : List ℕ). piece) text.full.items ++ text.last.items };
}

impl Printed {
    /// No text. It takes no memory.
    pub fn new(alloc: Global) -> Printed
        ensures { result ≡ [] }
    {
        Printed {
            full: Vec::new(alloc),
            last: Vec::new(alloc),
        }
    }

    /// Appends bytes. What the text is on `OutOfMemory` no clause says.
    pub fn add(&mut self, alloc: Global, more: &[u8]) -> Result<(), OutOfMemory>
        ensures { OnOk result (self.new ≡ self.old ++ more.now) }
    {
        self.cut(alloc)?;
        self.last.extend_from_slice(more)?;
        Ok(())
    }

    /// Appends the row at a place.
    pub(crate) fn add_row(
        &mut self,
        alloc: Global,
        types: &[ValType],
        rows: &RowBatch,
        row: u64,
    ) -> Result<(), OutOfMemory>
        requires { row < length rows.now }
        ensures { OnOk result (self.new ≡ self.old ++ row_text types.now (slice_index_or rows.now row [])) }
    {
        self.cut(alloc)?;
        print_row(&mut self.last, types, rows, row)
    }

    /// The pieces. It takes no memory.
    pub fn parts(&self) -> PrintedParts<'_>
        ensures { flat_map (λ piece. piece) result.full.now ++ result.last.now ≡ self.now }
    {
        PrintedParts {
            full: self.full.as_slice(),
            last: self.last.as_slice(),
        }
    }

    // Begins another piece where the last one is full.
    #[tactic(auto, using(crate::proofs::PieceSteps::cut_text))]
    fn cut(&mut self, alloc: Global) -> Result<(), OutOfMemory>
        ensures { OnOk result (self.new ≡ self.old) }
    {
        if self.last.len() < FULL {
            return Ok(());
        }
        let full = mem::replace(&mut self.last, Vec::with_capacity(alloc, PIECE)?);
        self.full.push(ByteList::from_vec(full))?;
        Ok(())
    }
}
