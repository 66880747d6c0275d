//! The printed text of ends: a line for each; behind that of a read a line for each clipped fragment
//! and then for each row, and behind that of a listing a line for each name.
ghost use Rattle.std.specs.Prelude.{◌≡◌, ◌++◌, string_bytes, OnOk, option_map};
ghost use Rattle.ts_query.specs.Ends.{clipped_line, clipped_text, command_name, end_text, name_line, named_text, names_text, outcome_text, result_text};

use crate::printed::Printed;
use crate::refusals::print_refusal;
use crate::rows::print_rows;
use std::alloc::Global;
use ts_base::{FragKey, Name, OutOfMemory};
use ts_model::{Command, Outcome};

/// Appends the text of one end, each line of it with its line feed.
///
/// `lane` and `number` are those of the command, which is counted in its lane. `name` is printed as it is;
/// [`command_name`] gives that of a command. No outcome stands for a command that was stopped before its end. `OutOfMemory` comes where there is no room for the text.
/// What is printed then no clause says: a caller drops it.
pub fn print_outcome(
    alloc: Global,
    printed: &mut Printed,
    lane: u32,
    number: u32,
    name: &str,
    outcome: Option<&Outcome>,
) -> Result<(), OutOfMemory>
    ensures { OnOk result (printed.new ≡ printed.old ++ named_text lane number name.now (option_map (λ outcome. outcome.now) outcome.entry)) }
{
    let mut text = String::new(alloc);
    print_end(&mut text, lane, number, name, outcome)?;
    match outcome {
        Some(Outcome::Read(answer)) => {
            print_clipped(&mut text, answer.clipped.as_slice())?;
            printed.add(alloc, text.as_bytes())?;
            print_rows(alloc, printed, answer.types.as_slice(), &answer.rows)
        }
        Some(Outcome::Listed(names)) => {
            print_names(&mut text, names.as_slice())?;
            printed.add(alloc, text.as_bytes())
        }
        _ => printed.add(alloc, text.as_bytes()),
    }
}

/// Adds the fragments that are clipped from a read, a line for each.
fn print_clipped(text: &mut String, clipped: &[FragKey]) -> Result<(), OutOfMemory>
    ensures { OnOk result (string_bytes text.new ≡ string_bytes text.old ++ clipped_text clipped.now) }
{
    for frag in clipped {
        print_clipped_name(text, frag)?;
    }
    Ok(())
}

/// Adds the line of one clipped fragment.
#[tactic(auto, unfolding(crate::specs::Ends::clipped_line))]
fn print_clipped_name(text: &mut String, frag: &FragKey) -> Result<(), OutOfMemory>
    ensures { OnOk result (string_bytes text.new ≡ string_bytes text.old ++ clipped_line frag.now) }
{
    let spelled = frag.spell();
    let name = spelled.text();
    write!(text, "clipped\t{name}\n")?;
    Ok(())
}

/// Adds the names of a listing, a line for each.
fn print_names(text: &mut String, names: &[Name]) -> Result<(), OutOfMemory>
    ensures { OnOk result (string_bytes text.new ≡ string_bytes text.old ++ names_text names.now) }
{
    for name in names {
        print_name_line(text, name)?;
    }
    Ok(())
}

/// Adds the line of a name.
#[tactic(auto, unfolding(crate::specs::Ends::name_line))]
fn print_name_line(text: &mut String, name: &Name) -> Result<(), OutOfMemory>
    ensures { OnOk result (string_bytes text.new ≡ string_bytes text.old ++ name_line name.now) }
{
    let spelled = name.spell();
    text.push_str(spelled.text())?;
    text.push_str("\n")?;
    Ok(())
}

/// Adds how a command came out, but for what it shows.
#[tactic(auto, unfolding(crate::specs::Ends::end_text))]
fn print_end(
    text: &mut String,
    lane: u32,
    number: u32,
    name: &str,
    outcome: Option<&Outcome>,
) -> Result<(), OutOfMemory>
    ensures { OnOk result (string_bytes text.new
        ≡ string_bytes text.old ++ end_text lane number name.now (option_map (λ outcome. outcome.now) outcome.entry)) }
{
    write!(text, "{lane}.{number}\t{name}\t")?;
    print_result(text, outcome)
}

/// The name of a command, as scripts and answers have it.
pub fn command_name(command: &Command) -> &'static str
    ensures { result.now ≡ command_name command.now }
{
    match command {
        Command::Create(_) => "create",
        Command::Evolve(_) => "evolve",
        Command::Write(_) => "write",
        Command::Read { .. } => "read",
        Command::Delete(_) => "delete",
        Command::Consolidate { .. } => "consolidate",
        Command::Vacuum => "vacuum",
        Command::Unlock { .. } => "unlock",
        Command::Fragments => "fragments",
    }
}

/// Adds how a command ended, or that it was stopped.
#[tactic(auto, unfolding(crate::specs::Ends::result_text))]
fn print_result(text: &mut String, outcome: Option<&Outcome>) -> Result<(), OutOfMemory>
    ensures { OnOk result (string_bytes text.new ≡ string_bytes text.old ++ result_text (option_map (λ outcome. outcome.now) outcome.entry)) }
{
    match outcome {
        Some(end) => print_how(text, end),
        None => {
            text.push_str("stopped\n")?;
            Ok(())
        }
    }
}

/// Adds how a command ended, but for what it shows.
#[tactic(auto, unfolding(crate::specs::Ends::outcome_text))]
fn print_how(text: &mut String, end: &Outcome) -> Result<(), OutOfMemory>
    ensures { OnOk result (string_bytes text.new ≡ string_bytes text.old ++ outcome_text end.now) }
{
    match end {
        Outcome::Created => {
            text.push_str("ok\n")?;
            Ok(())
        }
        Outcome::Evolved(key) => {
            let spelled = key.spell_stamp();
            let name = spelled.text();
            write!(text, "ok\t{name}\n")?;
            Ok(())
        }
        Outcome::Written(frag) => {
            let spelled = frag.spell();
            let name = spelled.text();
            write!(text, "ok\t{name}\n")?;
            Ok(())
        }
        Outcome::Read(answer) => {
            let count = answer.rows.len();
            let clipped = answer.clipped.len();
            write!(text, "ok\t{count}\t{clipped}\n")?;
            Ok(())
        }
        Outcome::Deleted(frag) => {
            let spelled = frag.spell();
            let name = spelled.text();
            write!(text, "ok\t{name}\n")?;
            Ok(())
        }
        Outcome::Consolidated(frag, count) => {
            let spelled = frag.spell();
            let name = spelled.text();
            write!(text, "ok\t{name}\t{count}\n")?;
            Ok(())
        }
        Outcome::Vacuumed(count) | Outcome::Unlocked(count) => {
            write!(text, "ok\t{count}\n")?;
            Ok(())
        }
        Outcome::Listed(names) => {
            let count = names.len();
            write!(text, "ok\t{count}\n")?;
            Ok(())
        }
        Outcome::Refused(refusal) => {
            text.push_str("refused\t")?;
            print_refusal(text, refusal)?;
            text.push_str("\n")?;
            Ok(())
        }
        Outcome::OutOfMemory => {
            text.push_str("memory\n")?;
            Ok(())
        }
    }
}
