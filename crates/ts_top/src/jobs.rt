//! The jobs of lines.
ghost use Rattle.std.specs.Prelude.{◌≡◌, ℕ, Bool, IsTrue};
ghost use Rattle.ts_law.specs.Fresh.{IsStampOf, ends_at, id_of, job_from, seeded};
ghost use Rattle.ts_model.specs.Commands.{fits};
ghost use Rattle.ts_model.specs.Jobs.{IsFit, IsFitLine};

use ts_model::{Command, Job, Line};

/// The stamp of a line's command that starts now: the line's own, or this number of the clock.
pub(crate) fn stamp_of(line: &Line, now: u64) -> u64
    ensures { (gives : ℕ → Bool) → IsTrue (gives now) → IsStampOf gives line.now result }
{
    match line.at {
        Some(at) => at,
        None => now,
    }
}

/// The job of a line at a stamp: its identifier is made of the seed, the lane and the number of the
/// command, and it is stopped where the line says. It takes no memory.
pub(crate) fn job_of(seed: u64, number: u32, line: Line, at: u64) -> Job
    requires fit { IsFitLine line }
    ensures is { result ≡ job_from (id_of seed line.lane number) line at }
    ensures fit { IsFit result }
{
    let id = (u128::from(seed) << 64) + (u128::from(line.lane) << 32) + u128::from(number);
    let (lane, stop) = (line.lane, line.stop);
    let command = ending_at(line.command, line.to_stamp, at);
    Job {
        command: in_run(command, seed, lane),
        at,
        id,
        stop,
    }
}

// The command, whose interval ends at the stamp where that is asked for, as it can be of a read and of
// a consolidation.
fn ending_at(command: Command, to_stamp: bool, at: u64) -> Command
    requires fit { IsTrue (fits command) }
    ensures is { result ≡ ends_at to_stamp at command }
    ensures fit { IsTrue (fits result) }
{
    match command {
        Command::Read { from, to: _, query } if to_stamp => Command::Read {
            from,
            to: at,
            query,
        },
        Command::Consolidate {
            from,
            to: _,
            limits,
        } if to_stamp => Command::Consolidate {
            from,
            to: at,
            limits,
        },
        command => command,
    }
}

// The command in a run of a seed and in a lane, both of which an unlock has from its start on.
fn in_run(command: Command, seed: u64, lane: u32) -> Command
    requires fit { IsTrue (fits command) }
    ensures is { result ≡ seeded seed lane command }
    ensures fit { IsTrue (fits result) }
{
    match command {
        Command::Unlock { .. } => Command::Unlock { seed, lane },
        command => command,
    }
}
