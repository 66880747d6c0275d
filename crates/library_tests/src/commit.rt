//! Worked rows: what reads load, what consolidations take, and what is named and removed.
ghost use Rattle.std.specs.Prelude.{◌≡◌, ◌++◌, ◌∷◌, [], IfOk, OnOk, map as list_map};
ghost use Rattle.ts_commit.specs.Asked.{AreOfKind};

use std::alloc::Global;
use std::test::Fail;
use ts_base::{Coords, CountList, FragKey, FragList, Head, HeadList, Key, KeyList, OutOfMemory};
use ts_commit::{
    Limits, Planned, Selection, VacList, VacOf, names_merged, plan, removal_set, select,
};

// Two writes, stamped 1 and 5, and what a consolidation merged them into.
const FIRST: FragKey = FragKey {
    t1: 1,
    t2: 1,
    id: 2,
    v: 1,
};

const SECOND: FragKey = FragKey {
    t1: 5,
    t2: 5,
    id: 3,
    v: 1,
};

const BOTH: FragKey = FragKey {
    t1: 1,
    t2: 5,
    id: 4,
    v: 1,
};

// A later write, and what a consolidation merged with it.
const THIRD: FragKey = FragKey {
    t1: 6,
    t2: 6,
    id: 7,
    v: 1,
};

const LATER: FragKey = FragKey {
    t1: 1,
    t2: 6,
    id: 9,
    v: 1,
};

const FIRST_WRITE: Key = Key { t: 1, id: 2 };

const SECOND_WRITE: Key = Key { t: 5, id: 3 };

fn keys_of(alloc: Global, keys: &[Key]) -> Result<KeyList, OutOfMemory> {
    let mut list = KeyList::new(alloc);
    for key in keys {
        list.push(*key)?;
    }
    Ok(list)
}

// Adds the head of a fragment that these writes went into.
#[tactic(auto, using(crate::proofs::WorkedHeads::heads_more, crate::proofs::WorkedHeads::own_kind))]
fn add_head(
    alloc: Global,
    heads: &mut HeadList,
    dense: bool,
    frag: FragKey,
    writes: &[Key],
) -> Result<(), OutOfMemory>
    requires { AreOfKind dense heads.old }
    ensures frags { OnOk result (list_map (λ head. head.frag) heads.new ≡ list_map (λ head. head.frag) heads.old ++ frag ∷ []) }
    ensures kind { OnOk result (AreOfKind dense heads.new) }
{
    let origins = keys_of(alloc, writes)?;
    let head = Head {
        frag,
        schema: Key { t: 0, id: 1 },
        dense,
        consolidated: false,
        low: Coords::new(&[0]),
        high: Coords::new(&[2]),
        cells: 2,
        origins,
    };
    heads.push(head)
}

// The `.vac` of the fragment that the two writes were merged into.
fn merged(alloc: Global) -> Result<VacOf, OutOfMemory>
    ensures { IfOk result (λ vac. vac.frag ≡ BOTH) }
{
    let names = FragList::from_vec(vec![in alloc; FIRST, SECOND]?);
    Ok(VacOf { frag: BOTH, names })
}

// The list with the `.vac` of that fragment alone.
fn one_vac(alloc: Global) -> Result<VacList, OutOfMemory>
    ensures { IfOk result (λ vacs. list_map (λ vac. vac.frag) vacs ≡ BOTH ∷ []) }
{
    let mut vacs = VacList::new(alloc);
    vacs.push(merged(alloc)?)?;
    Ok(vacs)
}

// A dense read that ends within the span.
fn cut_read(alloc: Global) -> Result<Selection, OutOfMemory> {
    let all = FragList::from_vec(vec![in alloc; FIRST, BOTH, SECOND]?);
    let vacs = one_vac(alloc)?;
    let mut heads = HeadList::new(alloc);
    add_head(alloc, &mut heads, true, FIRST, &[FIRST_WRITE])?;
    add_head(alloc, &mut heads, true, BOTH, &[FIRST_WRITE, SECOND_WRITE])?;
    select(alloc, true, &all, &heads, &vacs, 0, 3)
}

// A dense read of the whole span.
fn whole_read(alloc: Global) -> Result<Selection, OutOfMemory> {
    let all = FragList::from_vec(vec![in alloc; FIRST, BOTH, SECOND]?);
    let vacs = one_vac(alloc)?;
    let mut heads = HeadList::new(alloc);
    add_head(alloc, &mut heads, true, FIRST, &[FIRST_WRITE])?;
    add_head(alloc, &mut heads, true, BOTH, &[FIRST_WRITE, SECOND_WRITE])?;
    add_head(alloc, &mut heads, true, SECOND, &[SECOND_WRITE])?;
    select(alloc, true, &all, &heads, &vacs, 0, 9)
}

// A read that ends within the span, once both writes are removed.
fn late_read(alloc: Global, dense: bool) -> Result<Selection, OutOfMemory> {
    let left = FragList::from_vec(vec![in alloc; BOTH]?);
    let vacs = one_vac(alloc)?;
    let mut heads = HeadList::new(alloc);
    add_head(alloc, &mut heads, dense, BOTH, &[FIRST_WRITE, SECOND_WRITE])?;
    select(alloc, dense, &left, &heads, &vacs, 0, 3)
}

// Whether just these fragments are loaded, and just those clipped.
fn selects(selection: &Selection, loaded: &[FragKey], clipped: &[FragKey]) -> bool {
    selection.loaded.as_slice() == loaded && selection.clipped.as_slice() == clipped
}

#[test]
fn a_read_loads_what_it_can_use(rt: HostRuntime) -> Result<(), Fail> {
    let alloc = rt.alloc();
    assert!(rt; selects(&cut_read(alloc)?, &[FIRST], &[]));
    assert!(rt; selects(&whole_read(alloc)?, &[BOTH], &[]));
    assert!(rt; selects(&late_read(alloc, true)?, &[], &[BOTH]));
    assert!(rt; selects(&late_read(alloc, false)?, &[BOTH], &[]));
    Ok(())
}

#[test]
fn each_name_is_given_once(rt: HostRuntime) -> Result<(), Fail> {
    let alloc = rt.alloc();
    let mut vacs = VacList::new(alloc);
    let names = FragList::from_vec(vec![in alloc; SECOND, THIRD]?);
    vacs.push(VacOf { frag: LATER, names })?;
    vacs.push(merged(alloc)?)?;
    let removed = removal_set(alloc, &vacs)?;
    assert_eq!(rt; removed.as_slice(), [FIRST, SECOND, THIRD].as_slice());
    let sources = FragList::from_vec(vec![in alloc; BOTH, THIRD]?);
    let names = names_merged(alloc, &vacs, &sources)?;
    assert_eq!(rt; names.as_slice(), [FIRST, BOTH, SECOND, THIRD].as_slice());
    Ok(())
}

// The head of a write to a sparse array: so many cells stamped t, in the schema of that identifier.
fn write_of(alloc: Global, t: u64, schema: u128, cells: u64) -> Result<Head, OutOfMemory> {
    let key = Key { t, id: t as u128 };
    Ok(Head {
        frag: FragKey {
            t1: t,
            t2: t,
            id: t as u128,
            v: 1,
        },
        schema: Key { t: 0, id: schema },
        dense: false,
        consolidated: false,
        low: Coords::new(&[0]),
        high: Coords::new(&[9]),
        cells,
        origins: keys_of(alloc, &[key])?,
    })
}

// What a consolidation takes of writes in these schemas, stamped 1, 2 and so on, each of so many cells
// of one attribute.
fn planned(
    alloc: Global,
    schemas: &[u128],
    cells: u64,
    vacs: &VacList,
    limits: Limits,
) -> Result<Planned, OutOfMemory> {
    let mut heads = HeadList::new(alloc);
    let mut attrs = CountList::new(alloc);
    for (place, schema) in schemas.iter().enumerate() {
        heads.push(write_of(alloc, place as u64 + 1, *schema, cells)?)?;
        attrs.push(1)?;
    }
    plan(alloc, &heads, vacs, &attrs, 0, 9, limits)
}

// The plan that takes the writes with these stamps.
fn takes(alloc: Global, stamps: &[u64]) -> Result<Planned, OutOfMemory> {
    let mut frags = FragList::new(alloc);
    for t in stamps {
        frags.push(FragKey {
            t1: *t,
            t2: *t,
            id: *t as u128,
            v: 1,
        })?;
    }
    Ok(Planned::Take(frags))
}

#[test]
fn a_plan_takes_what_one_schema_shares(rt: HostRuntime) -> Result<(), Fail> {
    let alloc = rt.alloc();
    let none = VacList::new(alloc);
    let mut vacs = VacList::new(alloc);
    let names = FragList::from_vec(vec![in alloc; write_of(alloc, 1, 7, 1)?.frag]?);
    vacs.push(VacOf { frag: BOTH, names })?;
    let (usual, two) = (Limits { min: 2, max: 64 }, Limits { min: 2, max: 2 });
    let found = planned(alloc, &[7, 7], 1, &none, usual)?;
    assert_eq!(rt; found, takes(alloc, &[1, 2])?);
    let found = planned(alloc, &[7], 1, &none, usual)?;
    assert_eq!(rt; found, Planned::Nothing { eligible: 1 });
    let found = planned(alloc, &[7, 7, 7], 1, &vacs, usual)?;
    assert_eq!(rt; found, takes(alloc, &[2, 3])?);
    let found = planned(alloc, &[7, 8, 9, 9, 8, 8], 1, &none, two)?;
    assert_eq!(rt; found, takes(alloc, &[2, 5])?);

    // Cells of one attribute weigh two each: here of two writes more than 2^24 together.
    let found = planned(alloc, &[7, 7, 7], 4194305, &none, usual)?;
    assert_eq!(rt; found, Planned::Nothing { eligible: 3 });
    Ok(())
}
