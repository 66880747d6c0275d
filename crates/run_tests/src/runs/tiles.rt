//! Tiles: which of them a read gets, and how many calls that takes.

use super::{Shown, play_over, play_well, said};
use std::alloc::Global;
use std::sync::Wait;
use std::test::Fail;
use std::thread::Threads;
use ts_base::{ByteList, Name, OutOfMemory, Part};
use ts_store::{Call, Journal};

/// An array whose tiles have two cells, and a write of three cells: the first tile has the box from 1 to
/// 5, the second one is the cell 9.
const WRITTEN: &str = "{'cmd':'create','at':0,'kind':'sparse','capacity':2,\
    'dims':[{'name':'x','type':'int64','domain':[0,9],'extent':10}],\
    'attrs':[{'name':'v','type':'int16'}]}\n\
    {'cmd':'write','at':1,'cols':{'x':[1,5,9],'v':[10,50,90]}}\n";

/// A read of a box, what is printed of it, and which ranges it gets of the coordinates and of the values:
/// from a byte on, so many bytes.
#[derive(Clone, Copy)]
struct Wanted {
    low: u64,
    high: u64,
    text: &'static str,
    coords: &'static str,
    values: &'static str,
}

/// Boxes that meet the first tile, the second one, both and none. A tile whose box is met is got, also
/// where the read wants none of its cells.
const BOXES: [Wanted; 6] = [
    Wanted {
        low: 0,
        high: 5,
        text: "0.1|read|ok|2|0\n1|10\n5|50\n",
        coords: "14+16 ",
        values: "14+4 ",
    },
    Wanted {
        low: 9,
        high: 9,
        text: "0.1|read|ok|1|0\n9|90\n",
        coords: "30+8 ",
        values: "18+2 ",
    },
    Wanted {
        low: 5,
        high: 9,
        text: "0.1|read|ok|2|0\n5|50\n9|90\n",
        coords: "14+16 30+8 ",
        values: "14+4 18+2 ",
    },
    Wanted {
        low: 2,
        high: 4,
        text: "0.1|read|ok|0|0\n",
        coords: "14+16 ",
        values: "14+4 ",
    },
    Wanted {
        low: 6,
        high: 8,
        text: "0.1|read|ok|0|0\n",
        coords: "",
        values: "",
    },
    Wanted {
        low: 0,
        high: 0,
        text: "0.1|read|ok|0|0\n",
        coords: "",
        values: "",
    },
];

// The ranges that were got of a part of a fragment, in the order of the calls.
fn ranges(alloc: Global, journal: &Journal, part: Part) -> Result<ByteList, OutOfMemory> {
    let mut text = ByteList::new(alloc);
    for entry in journal.as_slice() {
        if let Call::Get(Name::Part(_, of), from, len) = &entry.call {
            if *of == part {
                let range = format!(in alloc; "{from}+{len} ")?;
                text.append(range.as_bytes())?;
            }
        }
    }
    Ok(text)
}

// How many gets a journal has.
fn gets(journal: &Journal) -> usize {
    let mut count: usize = 0;
    for entry in journal.as_slice() {
        if let Call::Get(_, _, _) = &entry.call {
            count = count.saturating_add(1);
        }
    }
    count
}

// What a read of a run of its own prints, and its calls.
fn read_of<R: Threads + Wait + Sync + AllocGlobal>(
    rt: &R,
    written: &str,
    low: u64,
    high: u64,
) -> Result<Shown, Fail> {
    let alloc = rt.alloc();
    let Shown {
        status: _,
        printed: _,
        journal: _,
        store,
    } = play_well(rt, written)?;
    let read = format!(in alloc; "{{'cmd':'read','at':9,'box':{{'x':[{low},{high}]}}}}\n")?;
    play_over(rt, 1, read.as_str(), store)
}

#[test]
fn a_read_gets_the_tiles_that_meet_its_box(rt: HostRuntime) -> Result<(), Fail> {
    let alloc = rt.alloc();
    for (at, row) in BOXES.iter().enumerate() {
        let shown = read_of(&rt, WRITTEN, row.low, row.high)?;
        let coords = ranges(alloc, &shown.journal, Part::Dim(0))?;
        let values = ranges(alloc, &shown.journal, Part::Attr(0))?;
        assert_eq!(rt; shown.status, 0);
        assert_eq!(rt; shown.printed, said(alloc, row.text)?, "{at}");
        assert_eq!(rt; coords.as_slice(), row.coords.as_bytes(), "{at}");
        assert_eq!(rt; values.as_slice(), row.values.as_bytes(), "{at}");
    }
    Ok(())
}

/// Behind `WRITTEN`: a second write, a consolidation of the two, a delete, another schema, and a write in
/// that one.
const MORE: &str = "{'cmd':'write','at':1,'cols':{'x':[1],'v':[11]}}\n\
    {'cmd':'consolidate','at':1}\n\
    {'cmd':'delete','at':2,'where':'v = 50'}\n\
    {'cmd':'evolve','at':3,'add':[{'name':'w','type':'int8'}]}\n\
    {'cmd':'write','at':4,'cols':{'x':[9],'v':[91],'w':[1]}}\n";

/// Tiles of three cells and of one.
const FOUR: &str = "{'cmd':'create','at':0,'kind':'sparse','capacity':3,\
    'dims':[{'name':'x','type':'int64','domain':[0,9],'extent':10}],\
    'attrs':[{'name':'v','type':'int64'}]}\n\
    {'cmd':'write','at':1,'cols':{'x':[0,1,2,3],'v':[10,11,12,13]}}\n";

#[test]
fn a_read_of_one_cell_makes_five_gets(rt: HostRuntime) -> Result<(), Fail> {
    let alloc = rt.alloc();
    for (cell, text) in [
        (3, "0.1|read|ok|1|0\n3|13\n"),
        (2, "0.1|read|ok|1|0\n2|12\n"),
    ] {
        let shown = read_of(&rt, FOUR, cell, cell)?;
        assert_eq!(rt; shown.status, 0);
        assert_eq!(rt; shown.printed, said(alloc, text)?, "{cell}");
        // The schema, the frame, the metadata, and a tile of two columns.
        assert_eq!(rt; gets(&shown.journal), 5, "{cell}");
    }
    Ok(())
}

#[test]
fn gets_of_a_read_are_bounded_by_what_it_listed(rt: HostRuntime) -> Result<(), Fail> {
    let alloc = rt.alloc();
    let script = format!(in alloc; "{WRITTEN}{MORE}")?;
    let shown = read_of(&rt, script.as_str(), 9, 9)?;
    assert_eq!(rt; shown.status, 0);
    assert_eq!(rt; shown.printed, said(alloc, "0.1|read|ok|1|0\n9|91|1\n")?);
    // The frame, two schemas, one list of sources, one delete, the metadata of four fragments; three
    // columns of one tile of the merged fragment, and three of the one tile of the last.
    assert_eq!(rt; gets(&shown.journal), 15);
    Ok(())
}
