//! The types of values, values and rows.
ghost use Rattle.std.specs.Prelude.{◌≡◌, IsTrue};
ghost use Rattle.ts_base.specs.Values.{is_integer, least_of, greatest_of, width_of};

use crate::lists::{ByteList, Duplicate, OutOfMemory, Sequence};
use std::alloc::Global;

/// The type of an attribute's values, or of a dimension's coordinates.
#[derive(Clone, Copy, Debug, PartialEq, Eq)]
pub enum ValType {
    /// Signed integers of 8 bits.
    I8,
    /// Signed integers of 16 bits.
    I16,
    /// Signed integers of 32 bits.
    I32,
    /// Signed integers of 64 bits.
    I64,
    /// Unsigned integers of 8 bits.
    U8,
    /// Unsigned integers of 16 bits.
    U16,
    /// Unsigned integers of 32 bits.
    U32,
    /// Unsigned integers of 64 bits.
    U64,
    /// Texts in UTF-8.
    Text,
    /// Lists of any bytes.
    Blob,
}

impl ValType {
    /// Whether the values are integers.
    pub fn is_integer(self) -> bool
        ensures { result ≡ is_integer self }
    {
        !matches!(self, ValType::Text | ValType::Blob)
    }

    /// The least integer of the type.
    pub fn least(self) -> i128
        requires { IsTrue (is_integer self) }
        ensures { result ≡ least_of self }
    {
        match self {
            ValType::I8 => i8::MIN as i128,
            ValType::I16 => i16::MIN as i128,
            ValType::I32 => i32::MIN as i128,
            ValType::I64 => i64::MIN as i128,
            ValType::U8 | ValType::U16 | ValType::U32 | ValType::U64 => 0,
            ValType::Text | ValType::Blob => unreachable!(),
        }
    }

    /// The greatest integer of the type.
    pub fn greatest(self) -> i128
        requires { IsTrue (is_integer self) }
        ensures { result ≡ greatest_of self }
    {
        match self {
            ValType::I8 => i8::MAX as i128,
            ValType::I16 => i16::MAX as i128,
            ValType::I32 => i32::MAX as i128,
            ValType::I64 => i64::MAX as i128,
            ValType::U8 => u8::MAX as i128,
            ValType::U16 => u16::MAX as i128,
            ValType::U32 => u32::MAX as i128,
            ValType::U64 => u64::MAX as i128,
            ValType::Text | ValType::Blob => unreachable!(),
        }
    }

    /// The bytes that an integer of the type takes, and 0 for texts and blobs, whose values have
    /// no fixed width.
    pub fn width(self) -> u8
        ensures { result ≡ width_of self }
    {
        match self {
            ValType::I8 | ValType::U8 => 1,
            ValType::I16 | ValType::U16 => 2,
            ValType::I32 | ValType::U32 => 4,
            ValType::I64 | ValType::U64 => 8,
            ValType::Text | ValType::Blob => 0,
        }
    }
}

/// A value of a cell.
#[derive(Clone, Debug, Drop, PartialEq, Eq)]
pub enum Val {
    /// No value, where the attribute is nullable.
    Null,
    /// An integer.
    Int(i128),
    /// The bytes of a text or a blob.
    Bytes(ByteList),
}

/// The values of a cell, one for each attribute in the schema's order.
pub type Row = Sequence<Val>;

/// A list of rows.
pub type RowList = Sequence<Row>;

impl Duplicate for Val {
    fn copy(&self, _alloc: Global) -> Result<Val, OutOfMemory> {
        Ok(self.clone()?)
    }
}
