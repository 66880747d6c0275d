//! The printed text of all ends of a script.
ghost use Rattle.std.specs.Prelude.{◌≡◌, ◌++◌, length, IfOk, OnOk, option_map};
ghost use Rattle.ts_top.specs.Ends.{end_of, ends_text};
ghost use Rattle.ts_query.specs.Ends.{text_of};
ghost use Rattle.ts_top.specs.Items.{numbered};

use crate::item::Item;
use std::alloc::Global;
use ts_base::OutOfMemory;
use ts_model::{Driven, Outcome};
use ts_query::{Printed, print_outcome};

/// Prints how the commands of these lines came out, each with its lane and its number there.
pub(crate) fn print_ends(
    alloc: Global,
    items: &[Item],
    results: &[Driven<Outcome>],
) -> Result<Printed, OutOfMemory>
    requires count { length items.now ≡ length results.now }
    ensures { IfOk result (λ text. text ≡ ends_text (numbered items.now) results.now) }
{
    let mut text = Printed::new(alloc);
    for (index, result) in results.iter().enumerate() {
        print_one(alloc, &mut text, &items[index], result)?;
    }
    Ok(text)
}

/// Appends how the command of a line came out.
pub(crate) fn print_one(
    alloc: Global,
    text: &mut Printed,
    item: &Item,
    came: &Driven<Outcome>,
) -> Result<(), OutOfMemory>
    ensures { OnOk result (text.new ≡ text.old ++ text_of item.now.line.value.lane item.now.number item.now.line.value.command (end_of came.now)) }
{
    print_outcome(alloc, text, item.lane, item.number, item.name, end_of(came))
}

/// The end of a command, or None where it was stopped before.
fn end_of(came: &Driven<Outcome>) -> Option<&Outcome>
    ensures { option_map (λ end. end.now) result ≡ end_of came.now }
{
    match came {
        Driven::Done(end) => Some(end),
        Driven::Stopped => None,
    }
}
