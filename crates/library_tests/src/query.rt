//! Ends that no script shows; those that one shows stand in tests/cases.
use std::alloc::Global;
use std::test::Fail;
use ts_base::{CommitKind, FragKey, Key, LabelList, LeaseMode, Name, OutOfMemory, Place, Prefix};
use ts_commit::Limits;
use ts_cond::{CondFault, NamedBoxList, Query};
use ts_domain::Layout;
use ts_model::{Command, Outcome, Refusal};
use ts_query::{Printed, command_name, print_outcome};
use ts_schema::SchemaFault;

fn read(alloc: Global) -> Command {
    let query = Query {
        sub: NamedBoxList::new(alloc),
        fields: LabelList::new(alloc),
        filter: None,
        layout: Layout::Row,
    };
    Command::Read {
        from: 0,
        to: 9,
        query,
    }
}

fn text_of(
    alloc: Global,
    lane: u32,
    number: u32,
    command: &Command,
    outcome: Option<&Outcome>,
) -> Result<Vec<u8>, OutOfMemory> {
    let mut text = Printed::new(alloc);
    let name = command_name(command);
    print_outcome(alloc, &mut text, lane, number, name, outcome)?;
    let parts = text.parts();
    let mut bytes = Vec::new(alloc);
    for piece in parts.full {
        bytes.extend_from_slice(piece.as_slice())?;
    }
    bytes.extend_from_slice(parts.last)?;
    Ok(bytes)
}

#[test]
fn prints_the_lane_and_how_a_command_broke_off(rt: HostRuntime) -> Result<(), Fail> {
    let alloc = rt.alloc();
    let stopped = text_of(alloc, 0, 1, &read(alloc), None)?;
    assert_eq!(rt; stopped.as_slice(), b"0.1\tread\tstopped\n".as_slice());
    let short = text_of(
        alloc,
        7,
        u32::MAX,
        &read(alloc),
        Some(&Outcome::OutOfMemory),
    )?;
    assert_eq!(rt;
        short.as_slice(),
        b"7.4294967295\tread\tmemory\n".as_slice()
    );
    Ok(())
}

#[test]
fn prints_how_many_leases_or_fragments_are_gone(rt: HostRuntime) -> Result<(), Fail> {
    let alloc = rt.alloc();
    let unlock = Command::Unlock { seed: 0, lane: 7 };
    let end = Outcome::Unlocked(u64::MAX);
    let printed = text_of(alloc, 7, 1, &unlock, Some(&end))?;
    assert_eq!(rt;
        printed.as_slice(),
        b"7.1\tunlock\tok\t18446744073709551615\n".as_slice()
    );
    let end = Outcome::Vacuumed(u64::MAX);
    let printed = text_of(alloc, 0, 2, &Command::Vacuum, Some(&end))?;
    assert_eq!(rt;
        printed.as_slice(),
        b"0.2\tvacuum\tok\t18446744073709551615\n".as_slice()
    );
    Ok(())
}

#[test]
fn prints_where_the_store_failed(rt: HostRuntime) -> Result<(), Fail> {
    let alloc = rt.alloc();
    let frag = FragKey {
        t1: 1,
        t2: 2,
        id: 0xab,
        v: 1,
    };
    let erasure = Name::Commit(frag, CommitKind::Del);
    let schema = Name::Schema(Key { t: 5, id: 2 });
    let lease = Name::Lease(Key { t: 9, id: 7 }, LeaseMode::Exc);
    for (refusal, why) in [
        (
            Refusal::Leased(lease),
            "Leased\t__leases/__9_9_00000000000000000000000000000007.exc",
        ),
        (
            Refusal::Taken(schema),
            "Taken\t__schema/__5_5_00000000000000000000000000000002",
        ),
        (
            Refusal::StoreFault(Place::Name(erasure)),
            "StoreFault\t__commits/__1_2_000000000000000000000000000000ab_1.del",
        ),
        (
            Refusal::StoreFault(Place::Prefix(Prefix::Commits)),
            "StoreFault\t__commits/",
        ),
        (
            Refusal::Damaged {
                name: erasure,
                at: 14,
            },
            "Damaged\t__commits/__1_2_000000000000000000000000000000ab_1.del\t14",
        ),
        (Refusal::Missing(Name::Domain), "Missing\t__domain.tdb"),
        (
            Refusal::Condition(CondFault::OutOfMemory),
            "Condition\tOutOfMemory",
        ),
        (Refusal::SchemaBad(SchemaFault::OutOfMemory), "OutOfMemory"),
    ] {
        let end = Outcome::Refused(refusal);
        let wanted = format!(in alloc; "0.1\tread\trefused\t{why}\n")?;
        let printed = text_of(alloc, 0, 1, &read(alloc), Some(&end))?;
        assert_eq!(rt; printed.as_slice(), wanted.as_bytes(), "{why}");
    }
    Ok(())
}

#[test]
fn prints_what_a_consolidation_merged(rt: HostRuntime) -> Result<(), Fail> {
    let alloc = rt.alloc();
    let merge = Command::Consolidate {
        from: 0,
        to: 9,
        limits: Limits { min: 2, max: 64 },
    };
    let frag = FragKey {
        t1: 1,
        t2: u64::MAX,
        id: 0xab,
        v: 1,
    };
    for (end, how) in [
        (
            Outcome::Consolidated(frag, 4096),
            "ok\t__1_18446744073709551615_000000000000000000000000000000ab_1\t4096",
        ),
        (
            Outcome::Refused(Refusal::NothingToDo { eligible: u64::MAX }),
            "refused\tNothingToDo\t18446744073709551615",
        ),
    ] {
        let wanted = format!(in alloc; "0.3\tconsolidate\t{how}\n")?;
        let printed = text_of(alloc, 0, 3, &merge, Some(&end))?;
        assert_eq!(rt; printed.as_slice(), wanted.as_bytes(), "{how}");
    }
    Ok(())
}
