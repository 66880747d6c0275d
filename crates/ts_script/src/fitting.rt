//! Which commands there can be.
ghost use Rattle.std.specs.Prelude.{◌≡◌, IsTrue};
ghost use Rattle.std.specs.List.{list_all};
ghost use Rattle.ts_schema.specs.FrameTexts.{is_bound};
ghost use Rattle.ts_model.specs.Commands.{are_limits, fits, is_spelled_box, is_spelled_col, is_spelled_dim, is_text};
ghost use Rattle.ts_script.specs.Typed.{is_typed, is_typed_col, has_value};

use ts_base::ByteList;
use ts_commit::Limits;
use ts_cond::NamedBox;
use ts_domain::Dim;
use ts_model::{ColIn, Command};

/// Whether the command is one that there can be: an array has a dimension and a capacity, its numbers
/// and limits lie in their ranges, and each column has a value. What the types of its values ensure is not tested.
pub(crate) fn fits(command: &Command) -> bool
    requires { IsTrue (is_typed command.now) }
    ensures { result ≡ fits command.now }
{
    match command {
        Command::Create(made) => {
            let capacity = made.capacity;
            !made.dims.is_empty()
                && are_dims(made.dims.as_slice())
                && 1 <= capacity
                && capacity <= 1_000_000
        }
        Command::Evolve(_) => true,
        Command::Write(cells) => {
            are_columns(cells.cols.as_slice()) && are_boxes(cells.sub.as_slice())
        }
        Command::Read {
            from: _,
            to: _,
            query,
        } => are_boxes(query.sub.as_slice()),
        Command::Delete(_) => true,
        Command::Consolidate {
            from: _,
            to: _,
            limits,
        } => are_limits(*limits),
        Command::Vacuum => true,
        Command::Unlock { seed: _, lane: _ } => true,
        Command::Fragments => true,
    }
}

/// Whether a consolidation that takes so many fragments is one that there can be.
fn are_limits(limits: Limits) -> bool
    ensures { result ≡ are_limits limits }
{
    2 <= limits.min && limits.min <= limits.max && limits.max <= 4096
}

/// Whether each dimension is one that there can be.
fn are_dims(dims: &[Dim]) -> bool
    ensures { result ≡ list_all is_spelled_dim dims.now }
{
    dims.iter().all(|dim| is_dim(dim))
}

/// Whether a dimension has an integer type and numbers between -2^64 and 2^64.
fn is_dim(dim: &Dim) -> bool
    ensures { result ≡ is_spelled_dim dim.now }
{
    let _label = dim.name.as_bytes();
    dim.ty.is_integer() && is_bound(dim.low) && is_bound(dim.high) && is_bound(dim.extent)
}

/// Whether each box is one that there can be.
fn are_boxes(boxes: &[NamedBox]) -> bool
    ensures { result ≡ list_all is_spelled_box boxes.now }
{
    boxes.iter().all(|sub| is_box(sub))
}

/// Whether a box has bounds between -2^64 and 2^64, the low one at most the high one.
fn is_box(sub: &NamedBox) -> bool
    ensures { result ≡ is_spelled_box sub.now }
{
    let _label = sub.name.as_bytes();
    is_bound(sub.low) && is_bound(sub.high) && sub.low <= sub.high
}

/// Whether a number lies between -2^64 and 2^64.
fn is_bound(number: i128) -> bool
    ensures { result ≡ is_bound number }
{
    -18_446_744_073_709_551_616 <= number && number <= 18_446_744_073_709_551_616
}

/// Whether each column has a value.
#[tactic(auto, using(crate::proofs::Typed::columns_by_values))]
fn are_columns(cols: &[ColIn]) -> bool
    requires { IsTrue (list_all is_typed_col cols.now) }
    ensures { result ≡ list_all is_spelled_col cols.now }
{
    have_values(cols)
}

/// Whether each column has a value.
fn have_values(cols: &[ColIn]) -> bool
    ensures { result ≡ list_all has_value cols.now }
{
    cols.iter().all(|col| col.values.len() > 0)
}

/// The bytes as they are. They are a text: their type says so, and nothing is tested.
pub(crate) fn as_text(bytes: ByteList) -> ByteList
    ensures is { result ≡ bytes }
    ensures typed { IsTrue (is_text result) }
{
    are_text(bytes.as_slice());
    bytes
}

/// Bytes are a text: there are so few that their number has 64 bits, and each is below 256.
pub(crate) fn are_text(bytes: &[u8])
    ensures { IsTrue (is_text bytes.now) }
{
    let _count = bytes.len();
}
