//! What is printed of a generated script: what came of it, or the first command that was refused.
ghost use Rattle.std.specs.Prelude.{◌≡◌, ◌^◌, ◌<◌, ◌≤◌, ◌++◌, [], length, IfOk, OnOk, option_map, slice_get, slice_index_or, string_bytes};
ghost use Rattle.std.specs.List.{list_any};
ghost use Rattle.std.specs.Option.{unwrap_or};
ghost use Rattle.ts_table.specs.Columns.{val_seen};
ghost use Rattle.ts_top.specs.Items.{numbered};
ghost use Rattle.ts_top.specs.Summaries.{first_in, generated_text, lacks_memory, line_text, number_in, refusal_text, removed_in, rows_in, sources_in, status_generated, sum_of, sums_of, sums_text, was_refused, writes_in, written_in};

use crate::ends::print_one;
use crate::item::Item;
use itoa::Buffer;
use std::alloc::Global;
use ts_base::OutOfMemory;
use ts_batch::RowBatch;
use ts_model::{Driven, Outcome, Refusal};
use ts_query::Printed;
use ts_table::Seen;

// The least number that is too large to be counted.
const LIMIT: i128 = 1 << 63;

/// What came of the commands of a generated script.
#[derive(Drop)]
struct Sums {
    /// How many writes were done.
    writes: u64,
    /// How many fragments the consolidation merged.
    consolidated: u32,
    /// How many fragments the vacuum removed.
    removed: u64,
    /// How many rows the read shows.
    rows: u64,
    /// The sum of their values.
    sum: u128,
}

/// Prints what came of the commands of a generated script. Where a command found no memory nothing is
/// printed; where one was refused, other than a consolidation that found nothing to merge, the end of
/// the first such command is.
#[tactic(auto, unfolding(crate::specs::Summaries::generated_text))]
pub(crate) fn print_summary(
    alloc: Global,
    items: &[Item],
    results: &[Driven<Outcome>],
) -> Result<Printed, OutOfMemory>
    requires count { length items.now ≡ length results.now }
    ensures { IfOk result (λ text. text ≡ generated_text (numbered items.now) results.now) }
{
    if is_short(results) {
        Ok(Printed::new(alloc))
    } else if is_refused(results) {
        print_refusal(alloc, items, results)
    } else {
        print_sums(alloc, &sums_of(results))
    }
}

/// The status of a generated script: 7 where a command found no memory, else 6 where one was refused,
/// other than a consolidation that found nothing to merge, and else 0.
#[tactic(auto, unfolding(crate::specs::Summaries::status_generated))]
pub(crate) fn status_generated(results: &[Driven<Outcome>]) -> u8
    ensures { result ≡ status_generated results.now }
{
    if is_short(results) {
        7
    } else if is_refused(results) {
        6
    } else {
        0
    }
}

// Whether a command found no memory.
fn is_short(results: &[Driven<Outcome>]) -> bool
    ensures { result ≡ list_any lacks_memory results.now }
{
    results.iter().any(|came| lacks_memory(came))
}

// Whether a command was refused.
fn is_refused(results: &[Driven<Outcome>]) -> bool
    ensures { result ≡ list_any was_refused results.now }
{
    results.iter().any(|came| was_refused(came))
}

// Whether it found no memory.
fn lacks_memory(came: &Driven<Outcome>) -> bool
    ensures { result ≡ lacks_memory came.now }
{
    matches!(came, Driven::Done(Outcome::OutOfMemory))
}

// Whether it was refused, other than a consolidation that found nothing to merge.
fn was_refused(came: &Driven<Outcome>) -> bool
    ensures { result ≡ was_refused came.now }
{
    match came {
        Driven::Done(Outcome::Refused(Refusal::NothingToDo { .. })) => false,
        Driven::Done(Outcome::Refused(_)) => true,
        _ => false,
    }
}

// Prints the end of the first command that was refused.
fn print_refusal(
    alloc: Global,
    items: &[Item],
    results: &[Driven<Outcome>],
) -> Result<Printed, OutOfMemory>
    requires count { length items.now ≡ length results.now }
    ensures { IfOk result (λ text. text ≡ refusal_text (numbered items.now) results.now) }
{
    for (index, result) in results.iter().enumerate() {
        if was_refused(result) {
            let mut text = Printed::new(alloc);
            print_one(alloc, &mut text, &items[index], result)?;
            return Ok(text);
        }
    }
    Ok(Printed::new(alloc))
}

// Prints the summary, a line for each number.
#[tactic(auto, unfolding(crate::specs::Summaries::sums_text))]
fn print_sums(alloc: Global, sums: &Sums) -> Result<Printed, OutOfMemory>
    ensures { IfOk result (λ text. text ≡ sums_text sums.now) }
{
    let mut text = String::new(alloc);
    add_line(&mut text, "writes", u128::from(sums.writes))?;
    add_line(&mut text, "consolidated", u128::from(sums.consolidated))?;
    add_line(&mut text, "removed", u128::from(sums.removed))?;
    add_line(&mut text, "rows", u128::from(sums.rows))?;
    add_line(&mut text, "sum", sums.sum)?;
    let mut printed = Printed::new(alloc);
    printed.add(alloc, text.as_bytes())?;
    Ok(printed)
}

// Adds a line of the summary.
fn add_line(text: &mut String, name: &str, number: u128) -> Result<(), OutOfMemory>
    ensures { OnOk result (string_bytes text.new ≡ string_bytes text.old ++ line_text name.now number) }
{
    let mut digits = Buffer::new();
    text.push_str(name)?;
    text.push_str("\t")?;
    text.push_str(digits.format(number))?;
    text.push_str("\n")?;
    Ok(())
}

// What came of the commands.
fn sums_of(results: &[Driven<Outcome>]) -> Sums
    ensures { result ≡ sums_of results.now }
{
    let read = rows_read(results);
    Sums {
        writes: writes_done(results),
        consolidated: sources_merged(results),
        removed: fragments_removed(results),
        rows: count_of(read),
        sum: sum_in(read),
    }
}

// How many writes were done.
fn writes_done(results: &[Driven<Outcome>]) -> u64
    ensures { result ≡ writes_in results.now }
{
    let mut writes = 0;
    for came in results {
        writes += written_in(came);
    }
    writes
}

// 1 for a write that was done, else 0.
fn written_in(came: &Driven<Outcome>) -> u64
    ensures is { result ≡ written_in came.now }
    ensures few { result ≤ 1 }
{
    match came {
        Driven::Done(Outcome::Written(_)) => 1,
        _ => 0,
    }
}

// How many fragments the consolidation merged.
fn sources_merged(results: &[Driven<Outcome>]) -> u32
    ensures { result ≡ first_in sources_in 0 results.now }
{
    for came in results {
        if let Some(count) = sources_in(came) {
            return count;
        }
    }
    0
}

// How many fragments it merged, if it is a consolidation that was done.
fn sources_in(came: &Driven<Outcome>) -> Option<u32>
    ensures { result ≡ sources_in came.now }
{
    match came {
        Driven::Done(Outcome::Consolidated(_, count)) => Some(*count),
        _ => None,
    }
}

// How many fragments the vacuum removed.
fn fragments_removed(results: &[Driven<Outcome>]) -> u64
    ensures { result ≡ first_in removed_in 0 results.now }
{
    for came in results {
        if let Some(count) = removed_in(came) {
            return count;
        }
    }
    0
}

// How many fragments it removed, if it is a vacuum that was done.
fn removed_in(came: &Driven<Outcome>) -> Option<u64>
    ensures { result ≡ removed_in came.now }
{
    match came {
        Driven::Done(Outcome::Vacuumed(count)) => Some(*count),
        _ => None,
    }
}

// The rows that the read shows, if there is one that was done.
fn rows_read(results: &[Driven<Outcome>]) -> Option<&RowBatch>
    ensures { unwrap_or (option_map (λ rows. rows.now) result) [] ≡ first_in rows_in [] results.now }
{
    for came in results {
        if let Some(rows) = rows_in(came) {
            return Some(rows);
        }
    }
    None
}

// The rows that it shows, if it is a read that was done.
fn rows_in(came: &Driven<Outcome>) -> Option<&RowBatch>
    ensures { option_map (λ rows. rows.now) result ≡ rows_in came.now }
{
    match came {
        Driven::Done(Outcome::Read(answer)) => Some(&answer.rows),
        _ => None,
    }
}

// How many rows there are.
fn count_of(read: Option<&RowBatch>) -> u64
    ensures { result ≡ length (unwrap_or (option_map (λ rows. rows.now) read.entry) []) }
{
    match read {
        Some(rows) => rows.len(),
        None => 0,
    }
}

// The values of the rows, behind their one coordinate, added up.
fn sum_in(read: Option<&RowBatch>) -> u128
    ensures { result ≡ sum_of (unwrap_or (option_map (λ rows. rows.now) read.entry) []) }
{
    match read {
        Some(rows) => sum_of(rows),
        None => 0,
    }
}

// The values of rows, behind their one coordinate, added up.
fn sum_of(rows: &RowBatch) -> u128
    ensures { result ≡ sum_of rows.now }
{
    let mut sum = 0;
    for row in 0..rows.len() {
        sum += u128::from(value_of(rows, row));
    }
    sum
}

// The value of the row at a place, behind its one coordinate.
fn value_of(rows: &RowBatch, row: u64) -> u64
    requires { row < length rows.now }
    ensures is { result ≡ number_in (slice_get (slice_index_or rows.now row []) 1) }
    ensures few { result < 2 ^ 63 }
{
    number_in(rows.val(row, 1))
}

// A whole number from 0 to 2^63 - 1, and 0 for any other value.
fn number_in(value: Option<Seen>) -> u64
    ensures is { result ≡ number_in (option_map val_seen value.entry) }
    ensures few { result < 2 ^ 63 }
{
    match value {
        Some(Seen::Int(number)) if 0 <= number && number < LIMIT => number as u64,
        _ => 0,
    }
}
