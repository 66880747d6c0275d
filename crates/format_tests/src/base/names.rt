//! The order of names, and the prefixes that they stand under.
use ts_base::{
    ByteList, CommitKind, Duplicate, FragKey, Key, LeaseMode, Name, OutOfMemory, Part, PartBytes,
    Prefix,
};

const FIRST: FragKey = FragKey {
    t1: 1,
    t2: 1,
    id: 2,
    v: 1,
};

const OTHER: FragKey = FragKey {
    t1: 1,
    t2: 1,
    id: 3,
    v: 1,
};

#[test]
fn names_are_ordered_by_kind_and_then_by_content(rt: HostRuntime) {
    let ascending = [
        Name::Domain,
        Name::Schema(Key { t: 7, id: 1 }),
        Name::Schema(Key { t: 10, id: 0 }),
        Name::Commit(FIRST, CommitKind::Wrt),
        Name::Commit(FIRST, CommitKind::Vac),
        Name::Commit(OTHER, CommitKind::Wrt),
        Name::Part(FIRST, Part::Meta),
        Name::Part(FIRST, Part::Attr(9)),
        Name::Part(FIRST, Part::Attr(10)),
        Name::Part(FIRST, Part::Dim(0)),
        Name::Lease(Key { t: 0, id: 0 }, LeaseMode::Shr),
        Name::Lease(Key { t: 0, id: 0 }, LeaseMode::Exc),
    ];
    for pair in ascending.windows(2) {
        assert!(rt; pair[0] < pair[1]);
    }
}

#[test]
fn a_name_stands_under_the_prefix_of_its_folder(rt: HostRuntime) {
    let part = Name::Part(FIRST, Part::Plain);
    assert!(rt; part.under(Prefix::Fragment(FIRST)));
    assert!(rt; !part.under(Prefix::Fragment(OTHER)));
    assert!(rt; !part.under(Prefix::Commits));
    assert!(rt; Name::Commit(FIRST, CommitKind::Del).under(Prefix::Commits));
    assert!(rt; Name::Schema(Key { t: 0, id: 1 }).under(Prefix::Schemas));
    assert!(rt; Name::Lease(Key { t: 0, id: 1 }, LeaseMode::Exc).under(Prefix::Leases));
    assert!(rt; !Name::Domain.under(Prefix::Schemas));
}

#[test]
fn parts_are_copied_with_their_bytes(rt: HostRuntime) -> Result<(), OutOfMemory> {
    let bytes = ByteList::of_bytes(rt.alloc(), &[5, 6])?;
    let part = PartBytes {
        part: Part::Attr(1),
        bytes,
    };
    let twin = part.copy(rt.alloc())?;
    assert!(rt; twin == part);
    assert!(rt; twin.part.copy(rt.alloc())? == Part::Attr(1));
    assert!(rt; Name::Domain.copy(rt.alloc())? == Name::Domain);
    Ok(())
}
