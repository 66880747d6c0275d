//! Which texts are names.
use ts_base::{CommitKind, FragKey, Key, LeaseMode, Name, Part};

const FRAG: FragKey = FragKey {
    t1: 1,
    t2: 2,
    id: 4,
    v: 1,
};

const LAST: FragKey = FragKey {
    t1: u64::MAX,
    t2: u64::MAX,
    id: u128::MAX,
    v: 1,
};

const KEY: Key = Key { t: 0, id: 0x2a };

#[test]
fn each_kind_of_name_is_read(rt: HostRuntime) {
    let table = [
        ("__domain.tdb", Name::Domain),
        (
            "__schema/__0_0_0000000000000000000000000000002a",
            Name::Schema(KEY),
        ),
        (
            "__commits/__1_2_00000000000000000000000000000004_1.wrt",
            Name::Commit(FRAG, CommitKind::Wrt),
        ),
        (
            "__commits/__1_2_00000000000000000000000000000004_1.vac",
            Name::Commit(FRAG, CommitKind::Vac),
        ),
        (
            "__commits/__18446744073709551615_18446744073709551615_ffffffffffffffffffffffffffffffff_1.del",
            Name::Commit(LAST, CommitKind::Del),
        ),
        (
            "__leases/__0_0_0000000000000000000000000000002a.shr",
            Name::Lease(KEY, LeaseMode::Shr),
        ),
        (
            "__leases/__0_0_0000000000000000000000000000002a.exc",
            Name::Lease(KEY, LeaseMode::Exc),
        ),
    ];
    for (text, name) in table {
        assert_eq!(rt; Name::parse(text), Some(name), "{text}");
    }
}

#[test]
fn each_part_is_read(rt: HostRuntime) {
    let table = [
        (
            "__fragments/__1_2_00000000000000000000000000000004_1/__fragment_metadata.tdb",
            Part::Meta,
        ),
        (
            "__fragments/__1_2_00000000000000000000000000000004_1/a0.tdb",
            Part::Attr(0),
        ),
        (
            "__fragments/__1_2_00000000000000000000000000000004_1/a63.tdb",
            Part::Attr(63),
        ),
        (
            "__fragments/__1_2_00000000000000000000000000000004_1/a63_var.tdb",
            Part::Var(63),
        ),
        (
            "__fragments/__1_2_00000000000000000000000000000004_1/a10_validity.tdb",
            Part::Validity(10),
        ),
        (
            "__fragments/__1_2_00000000000000000000000000000004_1/d0.tdb",
            Part::Dim(0),
        ),
        (
            "__fragments/__1_2_00000000000000000000000000000004_1/d7.tdb",
            Part::Dim(7),
        ),
        (
            "__fragments/__1_2_00000000000000000000000000000004_1/o.tdb",
            Part::Origin,
        ),
        (
            "__fragments/__1_2_00000000000000000000000000000004_1/plain.tdb",
            Part::Plain,
        ),
    ];
    for (text, part) in table {
        assert_eq!(rt; Name::parse(text), Some(Name::Part(FRAG, part)), "{text}");
    }
}

#[test]
fn no_other_text_is_a_name(rt: HostRuntime) {
    let table = [
        "",
        "__domain",
        "__domain.tdb ",
        "__domain.tdb/",
        "domain.tdb",
        "__schema/",
        "__schema/__05_05_00000000000000000000000000000003",
        "__schema/__5_6_00000000000000000000000000000003",
        "__schema/__5_5_0000000000000000000000000000000A",
        "__schema/__5_5_0000000000000000000000000000003",
        "__schema/__5_5_000000000000000000000000000000003",
        "__schema/__5_5_0000000000000000000000000000000g",
        "__schema/__5_5_00000000000000000000000000000003_1",
        "__schema/__5_5_00000000-0000-0000-0000-000000000003",
        "__schema/__+5_5_00000000000000000000000000000003",
        "__schema/__-5_-5_00000000000000000000000000000003",
        "__schema/__18446744073709551616_18446744073709551616_00000000000000000000000000000003",
        "__schema//__5_5_00000000000000000000000000000003",
        "__commits/__2_1_00000000000000000000000000000003_1.wrt",
        "__commits/__1_2_00000000000000000000000000000003_1.del",
        "__commits/__1_2_00000000000000000000000000000003_2.wrt",
        "__commits/__1_2_00000000000000000000000000000003_01.wrt",
        "__commits/__1_2_00000000000000000000000000000003_257.wrt",
        "__commits/__1_2_00000000000000000000000000000003.wrt",
        "__commits/__1_2_00000000000000000000000000000003_1.WRT",
        "__commits/__1_2_00000000000000000000000000000003_1.wrt.wrt",
        "__commits/__1_2_00000000000000000000000000000003_1",
        "__commits/__1__2_00000000000000000000000000000003_1.wrt",
        "__fragments/__1_2_00000000000000000000000000000004_1/",
        "__fragments/__1_2_00000000000000000000000000000004_1/a64.tdb",
        "__fragments/__1_2_00000000000000000000000000000004_1/a64_var.tdb",
        "__fragments/__1_2_00000000000000000000000000000004_1/a64_validity.tdb",
        "__fragments/__1_2_00000000000000000000000000000004_1/a00.tdb",
        "__fragments/__1_2_00000000000000000000000000000004_1/a256.tdb",
        "__fragments/__1_2_00000000000000000000000000000004_1/a.tdb",
        "__fragments/__1_2_00000000000000000000000000000004_1/d8.tdb",
        "__fragments/__1_2_00000000000000000000000000000004_1/d0_var.tdb",
        "__fragments/__1_2_00000000000000000000000000000004_1/plain.tdb.tdb",
        "__fragments/__1_2_00000000000000000000000000000004_1/o",
        "__leases/__5_5_00000000000000000000000000000003",
        "__leases/__5_5_00000000000000000000000000000003.all",
        "__leases/__5_5_00000000000000000000000000000003.shr\n",
        "é/__5_5_00000000000000000000000000000003.shr",
    ];
    for text in table {
        assert!(rt; Name::parse(text).is_none(), "{text}");
    }
}
