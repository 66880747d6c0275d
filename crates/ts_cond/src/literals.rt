//! The values that tokens spell.
ghost use Rattle.std.specs.Prelude.{◌≡◌, ◌+◌, ◌*◌, ◌≤◌, false, IfOk};
ghost use Rattle.ts_cond.specs.Tokens.{unquoted, unhexed, hex_digit};

use std::alloc::Global;
use ts_base::{ByteList, OutOfMemory};

/// The text that stands between quotes, where each quote in it was doubled.
pub fn unquoted(alloc: Global, raw: &[u8]) -> Result<ByteList, OutOfMemory>
    ensures { IfOk result (λ text. text ≡ unquoted false raw.now) }
{
    let mut text = ByteList::new(alloc);
    let mut second = false;
    for byte in raw {
        if *byte == b'\'' && !second {
            second = true;
        } else {
            text.push(*byte)?;
            second = false;
        }
    }
    Ok(text)
}

/// The bytes that pairs of hexadecimal digits spell, of either case, the higher digit first.
pub fn unhexed(alloc: Global, digits: &[u8]) -> Result<ByteList, OutOfMemory>
    ensures { IfOk result (λ bytes. bytes ≡ unhexed digits.now) }
{
    let mut bytes = ByteList::new(alloc);
    let mut high = None;
    for digit in digits {
        match high {
            None => high = Some(*digit),
            Some(first) => {
                bytes.push(byte_of(first, *digit))?;
                high = None;
            }
        }
    }
    Ok(bytes)
}

fn byte_of(high: u8, low: u8) -> u8
    ensures { result ≡ 16 * hex_digit high + hex_digit low }
{
    16 * hex_digit(high) + hex_digit(low)
}

fn hex_digit(digit: u8) -> u8
    ensures value { result ≡ hex_digit digit }
    ensures bound { result ≤ 15 }
{
    if digit <= b'9' {
        digit.saturating_sub(b'0')
    } else if digit <= b'F' {
        digit.saturating_sub(b'A' - 10)
    } else {
        digit.saturating_sub(b'a' - 10).min(15)
    }
}
