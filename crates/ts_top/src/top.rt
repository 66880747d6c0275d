//! The top call: from words and a script to printed text and a status.
ghost use Rattle.std.specs.Prelude.{◌≡◌, ◌⊎◌, ◌+◌, ◌≤◌, ℕ, List, [], length, Err, Some, None, true, IfOk, IfErr, IsErrOf, IsSomeAnd};
ghost use Rattle.ts_store.specs.Counts.{capped, Rose};
ghost use Rattle.ts_store.specs.Journals.{failures};
ghost use Rattle.ts_script.specs.Words.{asked, word_texts};
ghost use Rattle.ts_top.specs.Runners.{JustMade};
ghost use Rattle.ts_script.specs.declared.words.Asked.{Asked};
ghost use Rattle.ts_script.specs.Meanings.{has_input, meaning};
ghost use Rattle.ts_script.specs.Script.{Bad, AreLimited};
ghost use Rattle.ts_law.specs.Fresh.{in_lane_order};
ghost use Rattle.ts_script.specs.declared.words.Report.TheVariants.{Single};
ghost use Rattle.ts_top.specs.Reports.{report_text, status_alone, status_printed};
ghost use Rattle.ts_top.specs.Items.{numbered};
ghost use Rattle.ts_top.specs.Promised.{Promised};
ghost use Rattle.ts_top.specs.Seen.{Stream, stream, AskFor, HasReason, IsPrepared, IsTaken, Plays, Prints, PrintsEnds, IsRunOf, WasRefused, status_of, stop_text};

use crate::crew::run_lines;
use crate::ends::print_ends;
use crate::item::Item;
use crate::items::in_lane_order;
use crate::notices::{bad_script_notice, usage_notice};
use crate::summaries::{print_summary, status_generated};
use crate::texts::write_text;
use std::alloc::Global;
use std::sync::Wait;
use std::thread::Threads;
use ts_base::{ByteList, OutOfMemory};
use ts_lanes::Gate;
use ts_model::{Driven, Line, LineList, Outcome};
use ts_query::Printed;
use ts_script::{FormFault, Report, ScriptFault, read_lines, read_words};
use ts_store::{Clock, InputFault, Journal, Sink, Source, Store, read_input, write_all};
use ts_turnstile::Closed;

/// What a run leaves: its status, the store, and every call that was made of it, in order.
pub struct Ran<S> {
    /// 0: the commands were done and what came of them was printed. 2: the words ask for nothing that
    /// can be done. 3: a line of the input is bad. 4: the input could not be read. 5: the text could not
    /// be written. 6: a single command was refused, or one of a generated script, and its line was
    /// printed. 7: out of memory; of a single command its line may have been printed.
    pub status: u8,
    /// The store that was handed over.
    pub store: S,
    /// The calls that were made of the store, in order.
    pub journal: Journal,
}

/// Why a run stops before its first command.
#[derive(Clone, Copy, Debug, PartialEq, Eq)]
pub(crate) enum Stop {
    /// The words ask for nothing that can be done.
    Usage,
    /// The line of the input with this number, counted from 1, is bad.
    BadScript(u64),
    /// The source failed.
    ReadFault,
    /// There was no memory.
    OutOfMemory,
}

impl Stop {
    // The status that a run ends with.
    fn status(self) -> u8
        ensures { result ≡ status_of self }
    {
        match self {
            Stop::Usage => 2,
            Stop::BadScript(_) => 3,
            Stop::ReadFault => 4,
            Stop::OutOfMemory => 7,
        }
    }
}

// Prints why a run stopped. Where the sink fails a front of the line was appended.
fn print_stop<O: Sink>(out: &mut O, stop: Stop)
    ensures { Prints (stream O.contents O.faults out.old out.new) (stop_text stop) }
{
    match stop {
        Stop::Usage => print_line(out, usage_notice().as_str().as_bytes()),
        Stop::BadScript(line) => print_line(out, bad_script_notice(line).as_str().as_bytes()),
        Stop::ReadFault => print_line(out, &[]),
        Stop::OutOfMemory => print_line(out, &[]),
    }
}

// Appends a text to a sink, or a front of it where the sink fails.
fn print_line<O: Sink>(out: &mut O, text: &[u8])
    ensures { Prints (stream O.contents O.faults out.old out.new) text.now }
{
    let _ = write_all(out, text);
}

// What is to be done.
#[derive(Drop)]
struct Prepared {
    // The lines, in order.
    lines: LineList,
    // What is printed of how they came out.
    report: Report,
}

// Reads the words, and the input where they ask for something that has one.
fn prepare<I: Source>(alloc: Global, words: &[&str], input: &mut I) -> Result<Prepared, Stop>
    ensures read { IfOk result (IsPrepared (word_texts words.entry.now) (stream I.left I.faults input.old input.new)) }
    ensures limited { IfOk result (λ prepared. AreLimited prepared.lines) }
    ensures reason { IfErr result (HasReason (word_texts words.entry.now) (stream I.left I.faults input.old input.new)) }
{
    let asked = match read_words(alloc, words) {
        Ok(asked) => asked,
        Err(FormFault::Form) => return Err(Stop::Usage),
        Err(FormFault::OutOfMemory) => return Err(Stop::OutOfMemory),
    };
    let report = asked.report();
    let bytes = match take_input(alloc, asked.has_input(), input) {
        Ok(bytes) => bytes,
        Err(InputFault::Failed) => return Err(Stop::ReadFault),
        Err(InputFault::OutOfMemory) => return Err(Stop::OutOfMemory),
    };
    match read_lines(alloc, asked, bytes.as_slice()) {
        Ok(lines) => Ok(Prepared { lines, report }),
        Err(ScriptFault::Bad { line }) => Err(Stop::BadScript(line)),
        Err(ScriptFault::OutOfMemory) => Err(Stop::OutOfMemory),
    }
}

// Reads the input where there is one, and else nothing.
fn take_input<I: Source>(alloc: Global, has: bool, input: &mut I) -> Result<ByteList, InputFault>
    ensures taken { IfOk result (IsTaken has (stream I.left I.faults input.old input.new)) }
    ensures failed { IsErrOf result InputFault.Failed → (has ≡ true) × Rose (I.faults input.old) (I.faults input.new) }
{
    if has {
        read_input(alloc, input)
    } else {
        Ok(ByteList::new(alloc))
    }
}

// Prints how the commands came out, and gives the status: the one that this gives, or 5 where the sink
// fails, or 7 for want of memory.
fn print_all<O: Sink>(
    alloc: Global,
    out: &mut O,
    items: &[Item],
    results: &[Driven<Outcome>],
    report: Report,
) -> u8
    requires count { length items.now ≡ length results.now }
    ensures { PrintsEnds (stream O.contents O.faults out.old out.new) (report_text report (numbered items.now) results.now) (status_printed report results.now) result }
{
    let Ok(text) = print_report(alloc, report, items, results) else {
        return 7;
    };
    match write_text(out, &text) {
        Ok(()) => status_printed(report, results),
        Err(_) => 5,
    }
}

// What is printed of how the commands came out.
fn print_report(
    alloc: Global,
    report: Report,
    items: &[Item],
    results: &[Driven<Outcome>],
) -> Result<Printed, OutOfMemory>
    requires count { length items.now ≡ length results.now }
    ensures { IfOk result (λ text. text ≡ report_text report (numbered items.now) results.now) }
{
    match report {
        Report::Script | Report::Single => print_ends(alloc, items, results),
        Report::Summary => print_summary(alloc, items, results),
    }
}

// The status that these ends give once they are printed.
fn status_printed(report: Report, results: &[Driven<Outcome>]) -> u8
    ensures { result ≡ status_printed report results.now }
{
    match report {
        Report::Script => 0,
        Report::Single => status_single(results),
        Report::Summary => status_generated(results),
    }
}

// The status of a single command, whose end is the only one.
fn status_single(results: &[Driven<Outcome>]) -> u8
    ensures { result ≡ status_printed Single results.now }
{
    match results {
        [Driven::Done(end)] => status_alone(end),
        _ => 0,
    }
}

// The status of a single command that ended so.
fn status_alone(end: &Outcome) -> u8
    ensures { result ≡ status_alone end.now }
{
    match end {
        Outcome::Refused(_) => 6,
        Outcome::OutOfMemory => 7,
        _ => 0,
    }
}

// Does the commands of a script over a store, and prints their ends.
fn play<R: Threads + Wait + Sync, S: Store, O: Sink, C: Clock, G: Gate>(
    rt: &R,
    alloc: Global,
    seed: u64,
    store: S,
    out: &mut O,
    lines: LineList,
    report: Report,
    clock: &C,
    gate: &G,
) -> Ran<S>
    requires { AreLimited lines }
    ensures plays { (words : List (List ℕ)) (input : Stream) → Plays S.held (JustMade S.held S.last S.faults S.asked S.notes) (record { words = words; seed = seed; gives = C.gives clock.now; input = input; out = stream O.contents O.faults out.old out.new; store = store; later = result.store; status = result.status; journal = result.journal }) report lines }
    ensures counted { capped (S.faults store + failures result.journal) ≤ S.faults result.store }
{
    let Ok(items) = in_lane_order(alloc, lines.as_slice()) else {
        let journal = Journal::new(alloc);
        return left_by(Closed { store, journal }, 7);
    };
    let (closed, results) = run_lines(rt, alloc, seed, store, lines, clock, gate);
    let Ok(results) = results else {
        return left_by(closed, 7);
    };
    let status = print_all(alloc, out, items.as_slice(), results.as_slice(), report);
    left_by(closed, status)
}

// What a run leaves that ends with this status.
fn left_by<S>(closed: Closed<S>, status: u8) -> Ran<S>
    ensures { result ≡ record { status = status; store = closed.store; journal = closed.journal } }
{
    let Closed { store, journal } = closed;
    Ran {
        status,
        store,
        journal,
    }
}

/// Reads the words, and the input of what they ask for, does the commands, those of each lane in a thread
/// of its own, and prints how each came out, lane by lane.
///
/// The words ask for a script, or for a single command, which is done as a script of one line. Or they
/// ask for a generated script, of which a summary is printed.
/// Everything that is printed goes to `out`: the ends of lane 0 first, then those of lane 1, up to lane 7.
/// The commands of a lane are done one after the other, beside those of other lanes. The store gets one
/// call at a time, in any order that leaves each lane its own. A lane comes to the `gate` before each of its
/// commands, which may hold it up. A script of lane 0 alone makes no thread for a lane, and where no thread can
/// be made the lanes are done one after the other.
///
/// The call may wait, for the gate or for the turn of a lane: what is said here holds once it returns.
/// Nothing is proved of whether lanes are at work at once, nor of when a lane comes to its gate.
///
/// A line without a stamp gets the number of the `clock`, in milliseconds since
/// 1970-01-01, as its command starts. `seed` stands in the upper 64 bits of each identifier that the
/// run makes:
/// over a store that holds something it has to be one that no identifier there has, for what is said
/// of answers.
///
/// `Ran::status` says how the run ended. The clause `promise` says what that means, over a store that
/// told what it held, where that stands for a history and no identifier there has the seed. Each command
/// was done, to its end or to where its line stops it, at times of its own between the calls of other lanes.
/// By each of its calls it appended no deed, or one of its own, and its end tells the truth of what was
/// held and of the history at those times. After each call, whoever made it, the store stands for the
/// history. What was printed is the text of how they came out.
///
/// So a read that names no clipped fragment shows of each cell the last write, in the order of timestamp
/// and identifier, among those stamped in its interval, of the writes committed when the read lists them,
/// unless a later delete of those stamped there and committed then matches it. It shows it through the schema
/// that holds at the end of the interval, of those that are there when the read then lists the schemas. A read
/// that names clipped fragments shows the same of the writes that are not clipped.
///
/// A script of one lane, as each single command is, is done one command after the other. The promise then
/// says besides, as `alone`, what each end tells of the history before and after its command.
///
/// The clause `run` says of every command which calls it made and how it ended, and that no other calls
/// were made of the store.
pub fn run<R: Threads + Wait + Sync, S: Store, I: Source, O: Sink, C: Clock, G: Gate>(
    rt: &R,
    alloc: Global,
    words: &[&str],
    seed: u64,
    store: S,
    input: &mut I,
    out: &mut O,
    clock: &C,
    gate: &G,
) -> Ran<S>
    ensures run { IsRunOf S.held (JustMade S.held S.last S.faults S.asked S.notes) (record {
      words = word_texts words.entry.now;
      seed = seed;
      gives = C.gives clock.now;
      input = stream I.left I.faults input.old input.new;
      out = stream O.contents O.faults out.old out.new;
      store = store;
      later = result.store;
      status = result.status;
      journal = result.journal;
    }) }

    // What it means, in words of the history.
    ensures promise { Promised S.held (record {
      words = word_texts words.entry.now;
      seed = seed;
      gives = C.gives clock.now;
      input = stream I.left I.faults input.old input.new;
      out = stream O.contents O.faults out.old out.new;
      store = store;
      later = result.store;
      status = result.status;
      journal = result.journal;
    }) }

    // Each call of the journal that failed was counted by the store.
    ensures counted { capped (S.faults store + failures result.journal) ≤ S.faults result.store }

    // Each status, with where it comes.
    ensures usage { result.status ≡ 2 → asked (word_texts words.entry.now) ≡ None }
    ensures usage_there { asked (word_texts words.entry.now) ≡ None → (result.status ≡ 2) ⊎ (result.status ≡ 7) }
    ensures bad_script { result.status ≡ 3 → (n : ℕ) × AskFor (word_texts words.entry.now) (I.left input.old) (Err (Bad n)) }
    ensures bad_script_there { (job : Asked) → asked (word_texts words.entry.now) ≡ Some job → (n : ℕ) → IsSomeAnd (I.left input.old) (λ all. meaning job all ≡ Err (Bad n))
        → (result.status ≡ 3) ⊎ (result.status ≡ 4) ⊎ (result.status ≡ 7) }
    ensures read_fault { result.status ≡ 4 → IsSomeAnd (asked (word_texts words.entry.now)) (λ job. has_input job ≡ true) × Rose (I.faults input.old) (I.faults input.new) }
    ensures write_fault { result.status ≡ 5 → Rose (O.faults out.old) (O.faults out.new) }
    ensures refused { result.status ≡ 6 → WasRefused S.held (JustMade S.held S.last S.faults S.asked S.notes) (record {
      words = word_texts words.entry.now;
      seed = seed;
      gives = C.gives clock.now;
      input = stream I.left I.faults input.old input.new;
      out = stream O.contents O.faults out.old out.new;
      store = store;
      later = result.store;
      status = result.status;
      journal = result.journal;
    }) }

    // Without a command no call is made of the store.
    ensures untouched { (result.status ≡ 2) ⊎ (result.status ≡ 3) ⊎ (result.status ≡ 4) → (result.journal ≡ []) × (result.store ≡ store) }
{
    match prepare(alloc, words, input) {
        Ok(prepared) => {
            let Prepared { lines, report } = prepared;
            play(rt, alloc, seed, store, out, lines, report, clock, gate)
        }
        Err(stop) => {
            print_stop(out, stop);
            Ran {
                status: stop.status(),
                store,
                journal: Journal::new(alloc),
            }
        }
    }
}
