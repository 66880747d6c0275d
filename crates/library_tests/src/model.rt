//! How reads end, by a plain look through worked histories.
ghost use Rattle.std.specs.Prelude.{◌≡◌, false, None, [], ◌∷◌, pos, IfOk, IsTrue};
ghost use Rattle.ts_base.specs.declared.values.Val.TheVariants.{Int};
ghost use Rattle.ts_cond.specs.CondTexts.{IsCond};
ghost use Rattle.ts_domain.specs.Domains.{is_in_domain};
ghost use Rattle.ts_domain.specs.Dims.{IsDim};
ghost use Rattle.ts_schema.specs.FrameTexts.{IsFrame};
ghost use Rattle.ts_schema.specs.SchemaTexts.{AreAttrs};
ghost use Rattle.ts_model.specs.declared.deeds.Deed.TheVariants.{Framed, Declared, Wrote};
ghost use Rattle.ts_model.specs.Deeds.{IsHistory, RowFits};

use std::alloc::Global;
use std::process::Abort;
use std::test::Fail;
use ts_base::{
    ByteList, Cell, CellList, Coords, Key, Label, LabelList, Row, RowList, Val, ValType,
};
use ts_batch::RowBatch;
use ts_cond::{Cond, NamedBoxList, Query};
use ts_domain::{Dim, Domain, Layout, Order};
use ts_model::{Deed, Deletion, History, Outcome, Written, check_delete, fills_of, reference};
use ts_schema::{Attr, AttrList, Frame, Schema};

fn label(rt: &impl Abort, name: &str) -> Label {
    Label::new(name).expect(rt, "a label")
}

// The dimension x of the numbers from 0 to 9 in one tile.
fn dim(rt: &impl Abort) -> Dim
    ensures { IsDim result }
{
    Dim {
        name: label(rt, "x"),
        ty: ValType::I64,
        low: 0,
        high: 9,
        extent: 10,
    }
}

// The frame of an array with the dimension x.
fn frame(rt: &impl Abort, alloc: Global, dense: bool) -> Result<Frame, Fail>
    ensures { IfOk result (λ frame. IsFrame frame) }
{
    let made = Frame {
        dense,
        domain: Domain::new(&[dim(rt)])?,
        cell: Order::Row,
        tile: Order::Row,
        capacity: 4,
    };
    Ok(Frame::decode(made.encode(alloc)?.as_slice())?)
}

// The key of the create.
const FIRST: Key = Key { t: 0, id: 1 };

// The schema of the create, with the attribute v of integers.
fn schema(rt: &impl Abort, alloc: Global) -> Result<Schema, Fail>
    ensures { IfOk result (λ schema. AreAttrs schema.attrs) }
{
    let mut attrs = AttrList::new(alloc);
    attrs.push(Attr {
        name: label(rt, "v"),
        ty: ValType::I64,
        nullable: false,
        fill: Val::Int(3),
    })?;
    let made = Schema { key: FIRST, attrs };
    Ok(Schema::decode(alloc, FIRST, made.encode(alloc)?.as_slice())?)
}

// The history of an array that was made, and nothing more.
#[tactic(auto, using(crate::proofs::WorkedHistories::made_is_history))]
fn made(alloc: Global, frame: &Frame, attrs: AttrList) -> Result<History, Fail>
    requires frame { IsFrame frame.now }
    requires attrs { AreAttrs attrs }
    ensures made { IfOk result (λ deeds. deeds ≡ Framed frame.now ∷ Declared (record { key = record { t = 0; id = 1 }; attrs = attrs }) ∷ []) }
    ensures history { IfOk result (λ deeds. IsHistory deeds) }
{
    let schema = Schema::new(alloc, frame, Key { t: 0, id: 1 }, attrs)?;
    let mut deeds = History::new(alloc);
    deeds.push(Deed::Framed(*frame))?;
    deeds.push(Deed::Declared(schema))?;
    Ok(deeds)
}

// A write of v at 5.
fn wrote(alloc: Global, t: u64, id: u128, v: i128) -> Result<Deed, Fail>
    ensures { IfOk result (λ deed. deed ≡ Wrote (record { key = record { t = t; id = id }; schema = record { t = 0; id = 1 }; cells = record { coords = pos 5 ∷ []; row = Int v ∷ [] } ∷ [] })) }
{
    let mut row = Row::new(alloc);
    row.push(Val::Int(v))?;
    let mut cells = CellList::new(alloc);
    cells.push(Cell {
        coords: Coords::new(&[5]),
        row,
    })?;
    Ok(Deed::Wrote(Written {
        key: Key { t, id },
        schema: Key { t: 0, id: 1 },
        cells,
    }))
}

// The history of a create, a write of 7 and then one of 10 at 5, and a delete of the stamp of the
// second.
#[tactic(auto, using(crate::proofs::WorkedHistories::worked_is_history))]
fn worked(alloc: Global, frame: &Frame, attrs: AttrList, cond: Cond) -> Result<History, Fail>
    requires frame { IsFrame frame.now }
    requires sparse { frame.now.dense ≡ false }
    requires inside { IsTrue (is_in_domain frame.now.domain (pos 5 ∷ [])) }
    requires attrs { AreAttrs attrs }
    requires seven { RowFits attrs (Int (pos 7) ∷ []) }
    requires ten { RowFits attrs (Int (pos 10) ∷ []) }
    requires cond { IsCond cond }
    ensures { IfOk result (λ deeds. IsHistory deeds) }
{
    let mut deeds = made(alloc, frame, attrs)?;
    deeds.push(wrote(alloc, 1, 2, 7)?)?;
    deeds.push(wrote(alloc, 2, 3, 10)?)?;
    deeds.push(Deed::Erased(Deletion {
        key: Key { t: 2, id: 4 },
        cond,
    }))?;
    Ok(deeds)
}

// Whether there is one attribute, of integers.
#[tactic(auto, using(crate::proofs::WorkedHistories::integer_rows))]
fn is_integer(attrs: &[Attr]) -> bool
    ensures seven { IsTrue result → RowFits attrs.now (Int (pos 7) ∷ []) }
    ensures ten { IsTrue result → RowFits attrs.now (Int (pos 10) ∷ []) }
{
    match attrs {
        [attr] => matches!(attr.ty, ValType::I64) && !attr.nullable,
        _ => false,
    }
}

// Whether an array is sparse, and has the cell 5.
fn has_five(frame: &Frame) -> bool
    ensures sparse { IsTrue result → frame.now.dense ≡ false }
    ensures inside { IsTrue result → IsTrue (is_in_domain frame.now.domain (pos 5 ∷ [])) }
{
    if frame.dense || frame.domain.count() != 1 {
        return false;
    }
    frame.domain.check(&Coords::new(&[5])).is_ok()
}

// The worked history of a sparse array, whose delete is where v is 10.
fn history(rt: &impl Abort, alloc: Global) -> Result<History, Fail>
    ensures { IfOk result (λ deeds. IsHistory deeds) }
{
    let frame = frame(rt, alloc, false)?;
    let schema = schema(rt, alloc)?;
    let text = ByteList::of_bytes(alloc, b"v = 10")?;
    let Ok(found) = check_delete(alloc, &frame, &schema, &text) else {
        return Err(Fail::from("a condition"));
    };
    let cond = Cond::decode(alloc, found.encode(alloc)?.as_slice())?;
    if !has_five(&frame) || !is_integer(schema.attrs.as_slice()) {
        return Err(Fail::from("an array of integers"));
    }
    worked(alloc, &frame, schema.attrs, cond)
}

// Asks for everything.
fn everything(alloc: Global) -> Query
    ensures { result.sub ≡ [] }
{
    Query {
        sub: NamedBoxList::new(alloc),
        fields: LabelList::new(alloc),
        filter: None,
        layout: Layout::Row,
    }
}

// Whether a read ended with these rows.
fn has_read(alloc: Global, end: &Outcome, wanted: &[[i128; 2]]) -> Result<bool, Fail> {
    let mut rows = RowList::new(alloc);
    for [x, v] in wanted {
        let mut row = Row::new(alloc);
        row.push(Val::Int(*x))?;
        row.push(Val::Int(*v))?;
        rows.push(row)?;
    }
    match end {
        Outcome::Read(answer) => Ok(answer.rows == RowBatch::of_rows(rows)),
        _ => Ok(false),
    }
}

// The history that a read sees which lists the commits before the last deeds.
fn without_last(rt: &impl Abort, alloc: Global, count: u32) -> Result<History, Fail> {
    let mut seen = history(rt, alloc)?;
    for _ in 0..count {
        drop(seen.pop());
    }
    Ok(seen)
}

#[test]
fn a_delete_erases_what_was_written_last(rt: HostRuntime) -> Result<(), Fail> {
    let alloc = rt.alloc();
    let later = history(&rt, alloc)?;
    let query = everything(alloc);
    let cases: [(u32, u64, u64, &[[i128; 2]]); 6] = [
        (0, 0, 9, &[]),
        (0, 0, 1, &[[5, 7]]),
        (0, 2, 2, &[]),
        (1, 0, 9, &[[5, 10]]),
        (2, 0, 9, &[[5, 7]]),
        (3, 0, 9, &[]),
    ];
    for (unseen, from, to, wanted) in cases {
        let seen = without_last(&rt, alloc, unseen)?;
        let end = reference(alloc, &seen, &later, from, to, &query)?;
        assert!(rt;
            has_read(alloc, &end, wanted)?,
            "without {unseen}, from {from} to {to}"
        );
    }
    Ok(())
}

#[test]
fn a_dense_array_shows_the_fill_where_nothing_was_written(rt: HostRuntime) -> Result<(), Fail> {
    let alloc = rt.alloc();
    let (frame, schema) = (frame(&rt, alloc, true)?, schema(&rt, alloc)?);
    let mut fill = Row::new(alloc);
    fill.push(Val::Int(3))?;
    assert_eq!(rt; fills_of(alloc, &schema)?, fill);
    let deeds = made(alloc, &frame, schema.attrs)?;
    let end = reference(alloc, &deeds, &deeds, 0, 9, &everything(alloc))?;
    let wanted = [
        [0, 3],
        [1, 3],
        [2, 3],
        [3, 3],
        [4, 3],
        [5, 3],
        [6, 3],
        [7, 3],
        [8, 3],
        [9, 3],
    ];
    assert!(rt; has_read(alloc, &end, &wanted)?);
    Ok(())
}
