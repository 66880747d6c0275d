//! The first lease of a listing that opposes a holder's own one, over worked listings.
use std::test::Fail;
use ts_base::{Key, LeaseMode, Name, NameList};
use ts_lease::{Verdict, decide};

// The lease of a job stamped at t, whose identifier is t too.
fn lease(t: u64, mode: LeaseMode) -> Name {
    let key = Key { t, id: t as u128 };
    Name::Lease(key, mode)
}

#[test]
fn the_first_opposing_lease_is_named(rt: HostRuntime) -> Result<(), Fail> {
    let (reader, other) = (lease(1, LeaseMode::Shr), lease(2, LeaseMode::Shr));
    let (vacuum, second) = (lease(3, LeaseMode::Exc), lease(4, LeaseMode::Exc));
    let mut leases = NameList::new(rt.alloc());
    leases.push(reader)?;
    leases.push(other)?;
    assert_eq!(rt; decide(&leases, reader), Verdict::Granted);
    assert_eq!(rt; decide(&leases, vacuum), Verdict::Held(reader));
    leases.push(vacuum)?;
    leases.push(second)?;
    assert_eq!(rt; decide(&leases, other), Verdict::Held(vacuum));
    Ok(())
}

#[test]
fn the_own_lease_opposes_nothing(rt: HostRuntime) -> Result<(), Fail> {
    let vacuum = lease(3, LeaseMode::Exc);
    let mut leases = NameList::new(rt.alloc());
    assert_eq!(rt; decide(&leases, vacuum), Verdict::Granted);
    leases.push(vacuum)?;
    assert_eq!(rt; decide(&leases, vacuum), Verdict::Granted);
    Ok(())
}
