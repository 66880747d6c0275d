//! The results of all lanes in one list.
ghost use Rattle.std.specs.Prelude.{◌≡◌, ◌+◌, ◌≤◌, ◌++◌, [], length, vec_capacity};
ghost use Rattle.ts_top.specs.Crews.{all_ends};

use ts_lanes::EndList;

/// Moves how the commands of each lane came out into a list with room for all, lane after lane.
pub(crate) fn in_one(room: EndList, ends: Vec<EndList>) -> EndList
    requires empty { room.items ≡ [] }
    requires room { length (all_ends ends.items) ≤ vec_capacity room }
    ensures { result.items ≡ all_ends ends.items }
{
    let mut all = room;
    for own in ends {
        push_all(&mut all, own);
    }
    all
}

// Appends a list to one that has room for it.
fn push_all(all: &mut EndList, own: EndList)
    requires room { length all.old.items + length own.items ≤ vec_capacity all.old }
    ensures items { all.new.items ≡ all.old.items ++ own.items }
    ensures room { vec_capacity all.new ≡ vec_capacity all.old }
{
    for end in own {
        all.push_reserved(end);
    }
}
