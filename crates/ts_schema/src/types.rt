//! The types of values as fields of objects.
ghost use Rattle.std.specs.Prelude.{◌≡◌, ◌≤◌, ◌+◌, ◌++◌, OnOk};
ghost use Rattle.ts_wire.specs.Reading.{Reads};
ghost use Rattle.ts_schema.specs.SchemaTexts.{type_code, type_of, type_at, type_bytes};

use ts_base::{OutOfMemory, ValType};
use ts_wire::{Cursor, Damaged, Scribe, kept};

// The types in the order of their numbers, which count from 1.
const TYPES: [ValType; 10] = [
    ValType::I8,
    ValType::I16,
    ValType::I32,
    ValType::I64,
    ValType::U8,
    ValType::U16,
    ValType::U32,
    ValType::U64,
    ValType::Text,
    ValType::Blob,
];

/// Reads a type: a number from 1 to 10 in one byte.
#[tactic(auto, unfolding(crate::specs::SchemaTexts::type_at))]
pub fn read_type(cursor: &mut Cursor) -> Result<ValType, Damaged>
    ensures reads { Reads (λ ty. ty) type_at cursor.old cursor.new result }
    ensures moves { OnOk result (cursor.new.at ≡ cursor.old.at + 1) }
{
    let at = cursor.at();
    let code = cursor.u8()?;
    let code = kept(at, code, 1 <= code && code <= 10)?;
    Ok(type_of(code))
}

fn type_of(code: u8) -> ValType
    requires least { 1 ≤ code }
    requires greatest { code ≤ 10 }
    ensures { result ≡ type_of code }
{
    TYPES[code as usize - 1]
}

/// Writes a type.
#[tactic(auto, unfolding(crate::specs::SchemaTexts::type_bytes))]
pub fn write_type(scribe: &mut Scribe, ty: ValType) -> Result<(), OutOfMemory>
    ensures { OnOk result (scribe.new ≡ scribe.old ++ type_bytes ty) }
{
    scribe.u8(code_of(ty))
}

fn code_of(ty: ValType) -> u8
    ensures { result ≡ type_code ty }
{
    match ty {
        ValType::I8 => 1,
        ValType::I16 => 2,
        ValType::I32 => 3,
        ValType::I64 => 4,
        ValType::U8 => 5,
        ValType::U16 => 6,
        ValType::U32 => 7,
        ValType::U64 => 8,
        ValType::Text => 9,
        ValType::Blob => 10,
    }
}
