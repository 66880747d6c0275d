//! The lines of a script in queues, one for each lane.
ghost use Rattle.std.specs.Prelude.{◌≡◌, ◌<◌, ◌++◌, ◌∷◌, [], All, IfOk, List, MatchOption, OnOk, length, replicate};
ghost use Rattle.ts_model.specs.Jobs.{IsFitLine};
ghost use Rattle.ts_model.specs.declared.commands.Line.{Line as A_line};
ghost use Rattle.ts_top.specs.Items.{lanes_in};
ghost use Rattle.ts_top.specs.Queues.{AreLaid};

use std::alloc::Global;
use std::collections::VecDeque;
use std::marker::Model;
use ts_base::OutOfMemory;
use ts_model::{Line, LineList};

/// The lines of a lane that are still to be done, the next one first. Contracts see them as a list.
#[derive(Drop)]
pub(crate) struct Queue {
    lines: VecDeque<Line>,
}

impl Model for Queue {
    ghost use Rattle.std.specs.Prelude.{List};
    ghost use Rattle.ts_model.specs.declared.commands.Line.{Line};

    ghost Value = { List Line };

    ghost view = { λ queue. queue.lines.items };
}

impl Queue {
    // No lines. It takes no memory.
    fn new(alloc: Global) -> Queue
        ensures { result ≡ [] }
    {
        Queue {
            lines: VecDeque::new(alloc),
        }
    }

    // Puts a line behind the others.
    fn push(&mut self, line: Line) -> Result<(), OutOfMemory>
        ensures { OnOk result (self.new ≡ self.old ++ line ∷ []) }
    {
        self.lines.push_back(line)?;
        Ok(())
    }

    /// How many lines there are.
    pub(crate) fn len(&self) -> usize
        ensures { result ≡ length self.now }
    {
        self.lines.len()
    }

    /// Takes the next line.
    pub(crate) fn take(&mut self) -> Option<Line>
        ensures { MatchOption result ((self.old ≡ []) × (self.new ≡ [])) (λ line. self.old ≡ line ∷ self.new) }
    {
        self.lines.pop_front()
    }
}

/// The lines of a script in queues, one for each lane up to the highest that has a line.
pub(crate) fn queues_of(alloc: Global, lines: LineList) -> Result<Vec<Queue>, OutOfMemory>
    requires { All IsFitLine lines }
    ensures { IfOk result (λ queues. AreLaid (lanes_in lines) lines queues.items) }
{
    let mut queues = no_lines(alloc, lanes_in(lines.as_slice()))?;
    for line in lines.into_vec() {
        push_line(&mut queues, line)?;
    }
    Ok(queues)
}

// Puts a line behind those of its lane.
fn push_line(queues: &mut Vec<Queue>, line: Line) -> Result<(), OutOfMemory>
    requires { line.lane < length queues.old.items }
    ensures { (before : List A_line) → AreLaid (length queues.old.items) before queues.old.items → OnOk result (AreLaid (length queues.old.items) (before ++ line ∷ []) queues.new.items) }
{
    let lane = line.lane as usize;
    queues[lane].push(line)
}

// So many queues without a line.
fn no_lines(alloc: Global, lanes: u32) -> Result<Vec<Queue>, OutOfMemory>
    ensures { IfOk result (λ queues. queues.items ≡ replicate lanes []) }
{
    let mut queues = Vec::with_capacity(alloc, lanes as usize)?;
    for _lane in 0..lanes {
        queues.push(Queue::new(alloc))?;
    }
    Ok(queues)
}

// The highest lane that has a line, and one more.
fn lanes_in(lines: &[Line]) -> u32
    requires { All IsFitLine lines.now }
    ensures { result ≡ lanes_in lines.now }
{
    let mut lanes = 0;
    for line in lines {
        lanes = lanes.max(line.lane + 1);
    }
    lanes
}
