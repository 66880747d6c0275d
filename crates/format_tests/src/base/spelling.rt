//! The spelling of names, prefixes and keys.
use ts_base::{CommitKind, FragKey, Key, LeaseMode, Name, Part, Prefix};

const FRAG: FragKey = FragKey {
    t1: 1,
    t2: 2,
    id: 4,
    v: 1,
};

const KEY: Key = Key { t: 9, id: 0x2a };

#[test]
fn each_kind_of_name_is_spelled_by_its_folder(rt: HostRuntime) {
    let table = [
        (Name::Domain, "__domain.tdb"),
        (
            Name::Schema(KEY),
            "__schema/__9_9_0000000000000000000000000000002a",
        ),
        (
            Name::Commit(FRAG, CommitKind::Wrt),
            "__commits/__1_2_00000000000000000000000000000004_1.wrt",
        ),
        (
            Name::Commit(FRAG, CommitKind::Vac),
            "__commits/__1_2_00000000000000000000000000000004_1.vac",
        ),
        (
            Name::Lease(KEY, LeaseMode::Shr),
            "__leases/__9_9_0000000000000000000000000000002a.shr",
        ),
        (
            Name::Lease(KEY, LeaseMode::Exc),
            "__leases/__9_9_0000000000000000000000000000002a.exc",
        ),
    ];
    for (name, text) in table {
        assert_eq!(rt; name.spell().text(), text);
    }
}

#[test]
fn each_part_is_spelled_in_the_folder_of_its_fragment(rt: HostRuntime) {
    let table = [
        (Part::Meta, "__fragment_metadata.tdb"),
        (Part::Attr(0), "a0.tdb"),
        (Part::Var(63), "a63_var.tdb"),
        (Part::Validity(10), "a10_validity.tdb"),
        (Part::Dim(7), "d7.tdb"),
        (Part::Origin, "o.tdb"),
        (Part::Plain, "plain.tdb"),
    ];
    let folder = Prefix::Fragment(FRAG).spell();
    assert_eq!(rt;
        folder.text(),
        "__fragments/__1_2_00000000000000000000000000000004_1/"
    );
    for (part, file) in table {
        let name = Name::Part(FRAG, part).spell();
        assert_eq!(rt; name.text().strip_prefix(folder.text()), Some(file));
    }
}

#[test]
fn the_greatest_numbers_are_spelled_whole(rt: HostRuntime) {
    let last = FragKey {
        t1: u64::MAX,
        t2: u64::MAX,
        id: u128::MAX,
        v: 1,
    };
    let name = Name::Commit(last, CommitKind::Del).spell();
    let text =
        "__commits/__18446744073709551615_18446744073709551615_ffffffffffffffffffffffffffffffff_1.del";
    assert_eq!(rt; name.text(), text);
}

#[test]
fn prefixes_and_keys_are_spelled_alone(rt: HostRuntime) {
    assert_eq!(rt; Prefix::Schemas.spell().text(), "__schema/");
    assert_eq!(rt; Prefix::Commits.spell().text(), "__commits/");
    assert_eq!(rt; Prefix::Leases.spell().text(), "__leases/");
    assert_eq!(rt;
        FRAG.spell().text(),
        "__1_2_00000000000000000000000000000004_1"
    );
    assert_eq!(rt;
        KEY.spell_stamp().text(),
        "__9_9_0000000000000000000000000000002a"
    );
}
