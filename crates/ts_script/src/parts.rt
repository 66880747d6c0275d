//! The parts of a text between its marks.
ghost use Rattle.std.specs.Prelude.{◌≡◌, [], ◌∷◌, ◌<◌, length, map, MatchOption, IfOk, position, ◌==◌};
ghost use Rattle.ts_script.specs.Parts.{parts_at};

use std::alloc::Global;
use ts_base::OutOfMemory;

/// The bytes before the first mark, and those after it. It gives None where there is none.
pub(crate) fn next_part(bytes: &[u8], mark: u8) -> Option<(&[u8], &[u8])>
    ensures parts { MatchOption result (parts_at mark bytes.now ≡ bytes.now ∷ [])
        (λ parts. parts_at mark bytes.now ≡ parts.0.now ∷ parts_at mark parts.1.now) }
    ensures shorter { MatchOption result (Unit {0}) (λ parts. length parts.1.now < length bytes.now) }
{
    let end = first_mark(bytes, mark)?;
    Some((&bytes[..end], &bytes[end + 1..]))
}

/// The place of the first mark.
fn first_mark(bytes: &[u8], mark: u8) -> Option<usize>
    ensures { result ≡ position (λ b. b == mark) bytes.now }
{
    bytes.iter().position(|byte| *byte == mark)
}

/// The parts of a text between its marks: there is one more than marks.
pub(crate) fn parts_at<'a>(
    alloc: Global,
    bytes: &'a [u8],
    mark: u8,
) -> Result<Vec<&'a [u8]>, OutOfMemory>
    ensures { IfOk result (λ parts. map (λ part. part.now) parts.items ≡ parts_at mark bytes.entry.now) }
{
    let mut parts = Vec::new(alloc);
    let mut rest = bytes;
    while let Some((part, others)) = next_part(rest, mark) {
        parts.push(part)?;
        rest = others;
    }
    parts.push(rest)?;
    Ok(parts)
}
