//! What is printed of a line.
ghost use Rattle.std.specs.Prelude.{◌≡◌};
ghost use Rattle.ts_query.specs.Ends.{command_name};

use ts_model::Line;
use ts_turnstile::Told;

/// What is printed of a line in front of how its command came out: its lane, its number there, and the name of
/// its command. The line itself went to its queue, and is gone when this is printed.
#[derive(Drop)]
pub(crate) struct Item {
    /// The lane of the line.
    pub(crate) lane: u32,
    /// The number of the line in its lane, counted from 1.
    pub(crate) number: u32,
    /// The name of its command.
    pub(crate) name: &'static str,
    /// The line, which clauses alone see.
    pub(crate) line: Told<Line>,
    ghost lane_is: { lane ≡ line.value.lane },
    ghost name_is: { name.now ≡ command_name line.value.command },
}
