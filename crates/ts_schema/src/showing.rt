//! How a row that was written under some attributes shows through others.
ghost use Rattle.std.specs.Prelude.{◌≡◌, IfOk};
ghost use Rattle.ts_schema.specs.Attrs.{agrees, shown_val, shown_row};

use crate::attrs::{Attr, AttrList};
use std::alloc::Global;
use ts_base::{Duplicate, OutOfMemory, Row, Val};

impl Attr {
    /// Whether the two agree: they have one name, one type and one nullability. Their fills may differ.
    pub fn agrees(&self, other: &Attr) -> bool
        ensures { result ≡ agrees self.now other.now }
    {
        self.name == other.name && self.ty == other.ty && self.nullable == other.nullable
    }
}

// The value of the first attribute that agrees with the wanted one, or the fill of that one.
#[tactic(auto, using(crate::proofs::Shown::shown_on, crate::proofs::Shown::shown_here, crate::proofs::Shown::shown_end))]
fn shown_val<'a>(attrs: &[Attr], row: &'a [Val], wanted: &'a Attr) -> &'a Val
    ensures { result.now ≡ shown_val attrs.now row.now wanted.now }
{
    for place in 0..attrs.len().min(row.len()) {
        if attrs[place].agrees(wanted) {
            return &row[place];
        }
    }
    &wanted.fill
}

/// A row that was written under some attributes, as it shows through others: each of these has the
/// row's value where one of the first agrees with it, and else its own fill.
pub fn show_row(
    alloc: Global,
    attrs: &AttrList,
    row: &Row,
    wanted: &AttrList,
) -> Result<Row, OutOfMemory>
    ensures { IfOk result (λ shown. shown ≡ shown_row attrs.now row.now wanted.now) }
{
    let mut shown = Row::new(alloc);
    for attr in wanted.as_slice() {
        let val = shown_val(attrs.as_slice(), row.as_slice(), attr);
        shown.push(val.copy(alloc)?)?;
    }
    Ok(shown)
}
