//! The program `calls`: `calls SCRIPT..` plays scripts over one store in memory, and prints the calls
//! that the store got.
//!
//! Each SCRIPT is a file. The first is played with the seed 0, the next one with the seed 1 over the
//! store that the first left, and so on, as `tilestore - play` plays a script. For each there is a line
//! `run` with its seed, what is printed of it, and then a line for each call, in the order in which the
//! store got them: `call`, the lane, what was asked, the name of the object or of the folder, and what
//! came of it, with a tab between two. A line without a stamp gets the stamp 0.
//!
//! Status 4 is a file that cannot be read, 5 an output that takes no text, and 7 want of memory.
#![tactic(auto)]

use std::alloc::Global;
use std::io::Write;
use std::process::ExitCode;
use std::rt::{Env, Files};
use std::sync::Wait;
use std::thread::Threads;
use std::{env, fs, io};
use ts_base::ByteList;
use ts_lanes::OpenGate;
use ts_store::{Call, Entry, Fate, FaultList, FixedClock, MemSink, MemSource, MemStore};
use ts_top::{Ran, run};

/// The status of a file that cannot be read.
const NOT_READ: u8 = 4;

/// The status of a text that cannot be written.
const NOT_WRITTEN: u8 = 5;

/// The status of want of memory.
const OUT_OF_MEMORY: u8 = 7;

fn main(rt: HostRuntime) -> ExitCode {
    match play_all(&rt) {
        Ok(()) => ExitCode::from(0),
        Err(status) => ExitCode::from(status),
    }
}

// Plays the files that the words name, one after the other, over one store.
fn play_all<R: Env + Files + Print + AllocGlobal + Threads + Wait + Sync>(
    rt: &R,
) -> Result<(), u8> {
    let alloc: Global = rt.alloc();
    let mut store = MemStore::new(alloc, FaultList::new(alloc));
    let mut seed: u64 = 0;
    let Ok(words) = env::args(rt) else {
        return Err(OUT_OF_MEMORY);
    };
    for path in words.skip(1) {
        let Ok(script) = fs::read_to_string(rt, path.as_str()) else {
            return Err(NOT_READ);
        };
        store = play(rt, alloc, seed, script.as_bytes(), store)?;
        seed = seed.saturating_add(1);
    }
    Ok(())
}

// Plays a script with a seed over a store, prints what came of it and its calls, and gives the store
// that it left.
fn play<R: Print + AllocGlobal + Threads + Wait + Sync>(
    rt: &R,
    alloc: Global,
    seed: u64,
    script: &[u8],
    store: MemStore,
) -> Result<MemStore, u8> {
    let Ok(bytes) = ByteList::of_bytes(alloc, script) else {
        return Err(OUT_OF_MEMORY);
    };
    let mut input = MemSource::new(bytes, FaultList::new(alloc));
    let mut out = MemSink::new(alloc, FaultList::new(alloc));
    let Ran {
        status: _,
        store,
        journal,
    } = run(
        rt,
        alloc,
        &["play"],
        seed,
        store,
        &mut input,
        &mut out,
        &FixedClock::new(0),
        &OpenGate,
    );
    match print(rt, seed, out.bytes(), journal.as_slice()) {
        Ok(()) => Ok(store),
        Err(_) => Err(NOT_WRITTEN),
    }
}

// Prints a run: its seed, its text and its calls.
fn print<R: Print>(rt: &R, seed: u64, text: &[u8], journal: &[Entry]) -> io::Result<()> {
    println!(rt; "run\t{seed}")?;
    io::writer(rt).write_all(text)?;
    for entry in journal {
        print_call(rt, entry)?;
    }
    Ok(())
}

// Prints a call: its lane, what was asked, of which object or folder, and whether it was done.
fn print_call<R: Print>(rt: &R, entry: &Entry) -> io::Result<()> {
    let (asked, object) = match &entry.call {
        Call::Put(name, _) => ("put", name.spell()),
        Call::Remove(name) => ("remove", name.spell()),
        Call::List(prefix) => ("list", prefix.spell()),
        Call::Get(name, _, _) => ("get", name.spell()),
        Call::Size(name) => ("size", name.spell()),
    };
    let done = match entry.fate {
        Fate::Done => "done",
        _ => "failed",
    };
    println!(rt; "call\t{}\t{asked}\t{}\t{done}", entry.lane, object.text())
}
