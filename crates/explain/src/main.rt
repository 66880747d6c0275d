//! The program `explain`: it reads a script from standard input, by the reader of `tilestore`, and
//! says what is wrong with the first line that is no command.
//!
//! Of a script it says nothing, with status 0. Else it prints one line, with status 3, which
//! `tilestore` has for this script too. Status 4 is an input that cannot be read, 5 an output that
//! takes no text, and 7 want of memory.
#![tactic(auto)]

mod boxes;
mod commands;
mod complaints;
mod creates;
mod explained;
mod lines;

use explained::{Explained, explain};
use std::alloc::Global;
use std::io;
use std::io::{Read, Write};
use std::process::ExitCode;

/// How many bytes are read at once.
const PIECE: usize = 4096;

/// How many bytes are read at most: one more than a script may have, so that one that is too long is
/// seen to be.
const READ_LIMIT: usize = (1 << 26) + 1;

/// The status of a bad line.
const BAD: u8 = 3;

/// The status of an input that cannot be read.
const NOT_READ: u8 = 4;

/// The status of a text that cannot be written.
const NOT_WRITTEN: u8 = 5;

/// The status of want of memory.
const OUT_OF_MEMORY: u8 = 7;

fn main(rt: HostRuntime) -> ExitCode {
    ExitCode::from(status(&rt))
}

// Explains the script on standard input, and gives the status.
fn status<R: Input + Print + AllocGlobal>(rt: &R) -> u8 {
    let alloc: Global = rt.alloc();
    let mut input = Vec::new(alloc);
    match read_all(&mut rt.reader(), &mut input) {
        Ok(()) => {}
        Err(status) => return status,
    }
    match explain(alloc, input.as_slice()) {
        Ok(None) => 0,
        Ok(Some(said)) => print(&mut io::writer(rt), &said),
        Err(_) => OUT_OF_MEMORY,
    }
}

// Reads all that there is, up to the limit.
fn read_all<I: Read>(reader: &mut I, input: &mut Vec<u8>) -> Result<(), u8> {
    let mut piece = [0; PIECE];
    // Each round but the last reads a byte.
    for _ in 0..READ_LIMIT {
        if input.len() >= READ_LIMIT {
            break;
        }
        let room = PIECE.min(READ_LIMIT - input.len());
        let Ok(count) = reader.read(&mut piece[..room]) else {
            return Err(NOT_READ);
        };
        if count == 0 {
            break;
        }
        if input.extend_from_slice(&piece[..count]).is_err() {
            return Err(OUT_OF_MEMORY);
        }
    }
    Ok(())
}

// Prints what was said, and gives the status.
fn print<W: Write>(writer: &mut W, said: &Explained) -> u8 {
    if writer.write_all(said.text.as_bytes()).is_err() {
        return NOT_WRITTEN;
    }
    BAD
}
