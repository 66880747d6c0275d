//! The printed text of rows: their values with tabs between them.
ghost use Rattle.std.specs.Prelude.{◌≡◌, ◌++◌, ◌∷◌, ◌<◌, [], codes, if◌then◌else◌, length, slice_index_or, true, IsFalse, IsTrue, OnOk};
ghost use Rattle.hex.specs.Hex.{encode_lower};
ghost use Rattle.std.specs.List.{flat_map};
ghost use Rattle.ts_base.specs.declared.values.Val.TheVariants.{Bytes};
ghost use Rattle.ts_table.specs.Columns.{val_seen};
ghost use Rattle.ts_query.specs.Rows.{row_text, rows_text, vals_text, val_text, escaped};

use crate::printed::Printed;
use std::alloc::Global;
use ts_base::{OutOfMemory, ValType};
use ts_batch::RowBatch;
use ts_table::Seen;

/// Appends the rows that a read shows, a line for each.
pub(crate) fn print_rows(
    alloc: Global,
    text: &mut Printed,
    types: &[ValType],
    rows: &RowBatch,
) -> Result<(), OutOfMemory>
    ensures { OnOk result (text.new ≡ text.old ++ rows_text types.now rows.now) }
{
    for row in 0..rows.len() {
        text.add_row(alloc, types, rows, row)?;
    }
    Ok(())
}

/// Adds the row at a place: its values with tabs between them.
#[tactic(auto, unfolding(crate::specs::Rows::row_text))]
pub(crate) fn print_row(
    bytes: &mut Vec<u8>,
    types: &[ValType],
    rows: &RowBatch,
    row: u64,
) -> Result<(), OutOfMemory>
    requires { row < length rows.now }
    ensures { OnOk result (bytes.new.items ≡ bytes.old.items ++ row_text types.now (slice_index_or rows.now row [])) }
{
    print_vals(bytes, types, rows, row)?;
    bytes.push(b'\n')?;
    Ok(())
}

/// Adds the values of the row at a place, which are of these types, each behind a tab but the first.
fn print_vals(
    bytes: &mut Vec<u8>,
    types: &[ValType],
    rows: &RowBatch,
    row: u64,
) -> Result<(), OutOfMemory>
    requires { row < length rows.now }
    ensures { OnOk result (bytes.new.items ≡ bytes.old.items ++ vals_text true types.now (slice_index_or rows.now row [])) }
{
    let mut first = true;
    for (column, ty) in types.iter().enumerate() {
        let Some(val) = rows.val(row, column as u64) else {
            return Ok(());
        };
        print_next(bytes, *ty, val, first)?;
        first = false;
    }
    Ok(())
}

/// Adds a value of this type, behind a tab if it is not the first.
fn print_next(bytes: &mut Vec<u8>, ty: ValType, val: Seen, first: bool) -> Result<(), OutOfMemory>
    ensures { OnOk result (bytes.new.items ≡ bytes.old.items ++ ((if first then [] else codes "\t") ++ val_text ty (val_seen val.entry))) }
{
    if !first {
        bytes.push(b'\t')?;
    }
    print_val(bytes, ty, val)
}

/// Adds a value of this type: null, a decimal number, a text between quotes, or the digits of a
/// blob behind a number sign.
fn print_val(bytes: &mut Vec<u8>, ty: ValType, val: Seen) -> Result<(), OutOfMemory>
    ensures { OnOk result (bytes.new.items ≡ bytes.old.items ++ val_text ty (val_seen val.entry)) }
{
    match val {
        Seen::Null => add_bytes(bytes, b"null"),
        Seen::Int(number) => {
            let mut buffer = itoa::Buffer::new();
            add_bytes(bytes, buffer.format(number).as_bytes())
        }
        Seen::Bytes(own) => print_bytes(bytes, ty, own),
    }
}

/// Adds bytes behind others.
fn add_bytes(bytes: &mut Vec<u8>, more: &[u8]) -> Result<(), OutOfMemory>
    ensures { OnOk result (bytes.new.items ≡ bytes.old.items ++ more.now) }
{
    bytes.extend_from_slice(more)?;
    Ok(())
}

/// Adds the bytes of a value of this type.
fn print_bytes(bytes: &mut Vec<u8>, ty: ValType, own: &[u8]) -> Result<(), OutOfMemory>
    ensures { OnOk result (bytes.new.items ≡ bytes.old.items ++ val_text ty (Bytes own.now)) }
{
    if let ValType::Text = ty {
        bytes.push(b'"')?;
        print_text(bytes, own)?;
        bytes.push(b'"')?;
        Ok(())
    } else {
        bytes.push(b'#')?;
        print_digits(bytes, own)
    }
}

/// Adds a text, whose quotes, backslashes and control characters are escaped. One without them is
/// copied as it is.
fn print_text(bytes: &mut Vec<u8>, own: &[u8]) -> Result<(), OutOfMemory>
    ensures { OnOk result (bytes.new.items ≡ bytes.old.items ++ flat_map escaped own.now) }
{
    if is_plain(own) {
        add_bytes(bytes, own)
    } else {
        print_each(bytes, own)
    }
}

/// Whether no byte of a text is escaped.
fn is_plain(own: &[u8]) -> bool
    ensures { IsTrue result → flat_map escaped own.now ≡ own.now }
{
    for byte in own {
        if is_escaped(*byte) {
            return false;
        }
    }
    true
}

/// Whether a byte of a text is escaped: a quote, a backslash or a control character.
fn is_escaped(byte: u8) -> bool
    ensures { IsFalse result → escaped byte ≡ byte ∷ [] }
{
    byte < 32 || byte == b'"' || byte == b'\\'
}

/// Adds the bytes of a text one by one.
fn print_each(bytes: &mut Vec<u8>, own: &[u8]) -> Result<(), OutOfMemory>
    ensures { OnOk result (bytes.new.items ≡ bytes.old.items ++ flat_map escaped own.now) }
{
    for byte in own {
        print_escaped(bytes, *byte)?;
    }
    Ok(())
}

/// Adds a byte of a text.
fn print_escaped(bytes: &mut Vec<u8>, byte: u8) -> Result<(), OutOfMemory>
    ensures { OnOk result (bytes.new.items ≡ bytes.old.items ++ escaped byte) }
{
    match byte {
        b'"' => add_bytes(bytes, b"\\\""),
        b'\\' => add_bytes(bytes, b"\\\\"),
        8 => add_bytes(bytes, b"\\b"),
        12 => add_bytes(bytes, b"\\f"),
        b'\n' => add_bytes(bytes, b"\\n"),
        b'\r' => add_bytes(bytes, b"\\r"),
        b'\t' => add_bytes(bytes, b"\\t"),
        0..=31 => {
            add_bytes(bytes, b"\\u00")?;
            print_digits(bytes, &[byte])
        }
        _ => {
            bytes.push(byte)?;
            Ok(())
        }
    }
}

/// Adds two lower-case hexadecimal digits for each byte.
#[tactic(auto, unfolding(hex::specs::Hex::encode_with))]
fn print_digits(bytes: &mut Vec<u8>, own: &[u8]) -> Result<(), OutOfMemory>
    ensures { OnOk result (bytes.new.items ≡ bytes.old.items ++ encode_lower own.now) }
{
    for byte in own {
        print_pair(bytes, *byte)?;
    }
    Ok(())
}

/// Adds the two digits of a byte.
fn print_pair(bytes: &mut Vec<u8>, byte: u8) -> Result<(), OutOfMemory>
    ensures { OnOk result (bytes.new.items ≡ bytes.old.items ++ encode_lower (byte ∷ [])) }
{
    let mut digits = [0u8; 2];
    let _ = hex::encode_to_slice([byte].as_slice(), &mut digits);
    add_bytes(bytes, &digits)
}
