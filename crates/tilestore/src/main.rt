//! The program: `tilestore STORE COMMAND [OPTIONS]`.
//!
//! STORE is a folder, or `-` for an empty store in memory. A command reads its input from standard
//! input, and all that is printed goes to standard output. The exit status is that of the run.
#![tactic(auto)]

ghost use Rattle.std.specs.Prelude.{◌≡◌, ◌⊎◌, None};
ghost use Rattle.ts_script.specs.Words.{asked, word_texts};

mod clock;
mod streams;

use clock::RealClock;
use std::alloc::Global;
use std::process::ExitCode;
use std::rt::Env;
use std::sync::Wait;
use std::thread::Threads;
use std::time::Clock;
use std::{env, io};
use streams::{StdSink, StdSource};
use ts_folder::{FolderStore, PathText};
use ts_lanes::OpenGate;
use ts_store::{FaultList, MemStore, Store};
use ts_top::{Ran, run};

/// The status of a run that found no memory.
const OUT_OF_MEMORY: u8 = 7;

/// The seed of a run over an empty store in memory.
const SEED: u64 = 0;

fn main(rt: HostRuntime) -> ExitCode {
    ExitCode::from(status(&rt, rt))
}

// Runs the words of the command line over the store that they begin with, and gives the status.
// Where the arguments cannot be had, or name no store, none are run over an empty store in memory.
// The machine gives files and the time.
fn status<R: Env + Input + Print + AllocGlobal + Threads + Wait + Sync>(
    rt: &R,
    machine: HostRuntime,
) -> u8 {
    let Ok(arguments) = arguments(rt) else {
        return run_in_memory(rt, machine, &[]);
    };
    let mut words = Vec::new(rt.alloc());
    for argument in arguments.iter().skip(2) {
        if words.push(argument.as_str()).is_err() {
            return OUT_OF_MEMORY;
        }
    }
    match store_of(&arguments) {
        "" => run_in_memory(rt, machine, &[]),
        "-" => run_in_memory(rt, machine, words.as_slice()),
        folder => run_in_folder(rt, machine, folder, words.as_slice()),
    }
}

// The arguments, with the program's name first.
fn arguments<R: Env + AllocGlobal>(rt: &R) -> io::Result<Vec<String>> {
    let mut all = Vec::new(rt.alloc());
    for argument in env::args(rt)? {
        all.push(argument)?;
    }
    Ok(all)
}

// The argument that names the store: an empty one where there is none.
fn store_of(arguments: &[String]) -> &str {
    match arguments.get(1) {
        Some(store) => store.as_str(),
        None => "",
    }
}

// Runs these words over an empty store in memory.
fn run_in_memory<R: Input + Print + AllocGlobal + Threads + Wait + Sync>(
    rt: &R,
    machine: HostRuntime,
    words: &[&str],
) -> u8
    ensures usage { result ≡ 2 → asked (word_texts words.entry.now) ≡ None }
    ensures usage_there { asked (word_texts words.entry.now) ≡ None → (result ≡ 2) ⊎ (result ≡ 7) }
{
    let alloc = rt.alloc();
    let store = MemStore::new(alloc, FaultList::new(alloc));
    run_words(rt, machine, words, SEED, store)
}

// Runs these words over the store in this folder. The seed is the clock's nanoseconds since 1970, or
// 0 where the clock cannot be read: then the folder takes no object, since its files are named by the
// clock.
fn run_in_folder<R: Input + Print + AllocGlobal + Threads + Wait + Sync>(
    rt: &R,
    machine: HostRuntime,
    folder: &str,
    words: &[&str],
) -> u8
    ensures usage { result ≡ 2 → asked (word_texts words.entry.now) ≡ None }
    ensures usage_there { asked (word_texts words.entry.now) ≡ None → (result ≡ 2) ⊎ (result ≡ 7) }
{
    let Ok(root) = PathText::new(rt.alloc(), folder) else {
        return OUT_OF_MEMORY;
    };
    let seed = match machine.since_1970() {
        Ok(time) => u64::try_from(time.as_nanos()).unwrap_or(u64::MAX),
        Err(_) => 0,
    };
    run_words(rt, machine, words, seed, FolderStore::at(machine, root))
}

// Runs these words over a store, with the standard streams and the machine's clock.
fn run_words<R: Input + Print + AllocGlobal + Threads + Wait + Sync, S: Store + Drop>(
    rt: &R,
    machine: HostRuntime,
    words: &[&str],
    seed: u64,
    store: S,
) -> u8
    ensures usage { result ≡ 2 → asked (word_texts words.entry.now) ≡ None }
    ensures usage_there { asked (word_texts words.entry.now) ≡ None → (result ≡ 2) ⊎ (result ≡ 7) }
{
    let alloc: Global = rt.alloc();
    let mut input = StdSource::new(rt.reader());
    let mut out = StdSink::new(io::writer(rt));
    let clock = RealClock::new(machine);
    let Ran {
        status,
        store: _,
        journal: _,
    } = run(
        rt, alloc, words, seed, store, &mut input, &mut out, &clock, &OpenGate,
    );
    status
}
