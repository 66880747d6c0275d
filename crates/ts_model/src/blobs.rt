//! Blobs as texts of hexadecimal digits.
ghost use Rattle.std.specs.Prelude.{◌≡◌, ◌<◌, IfOk, IfSome};
ghost use Rattle.ts_model.specs.Commands.{hex_digit, byte_of, blob_bytes};

use std::alloc::Global;
use ts_base::{ByteList, OutOfMemory};

/// The bytes of a blob whose digits a text has, two lower-case hexadecimal ones for each byte, or
/// None where the text has another form. For want of memory for the bytes there is an error.
pub fn blob_bytes(alloc: Global, text: &[u8]) -> Result<Option<ByteList>, OutOfMemory>
    ensures { IfOk result (λ bytes. bytes ≡ blob_bytes text.now) }
{
    let mut bytes = ByteList::new(alloc);
    for pair in 0..text.len() / 2 {
        match byte_of(text[2 * pair], text[2 * pair + 1]) {
            Some(byte) => bytes.push(byte)?,
            None => return Ok(None),
        }
    }
    if text.len() % 2 == 0 {
        Ok(Some(bytes))
    } else {
        Ok(None)
    }
}

// The byte of two digits.
fn byte_of(high: u8, low: u8) -> Option<u8>
    ensures { result ≡ byte_of high low }
{
    match (hex_digit(high), hex_digit(low)) {
        (Some(high), Some(low)) => Some(high * 16 + low),
        _ => None,
    }
}

fn hex_digit(digit: u8) -> Option<u8>
    ensures value { result ≡ hex_digit digit }
    ensures small { IfSome result (λ value. value < 16) }
{
    if digit.is_ascii_digit() {
        Some(digit - b'0')
    } else if b'a' <= digit && digit <= b'f' {
        Some(digit - b'a' + 10)
    } else {
        None
    }
}
