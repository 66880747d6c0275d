//! Worked rows: each type beside the plain list that it stands for.
ghost use Rattle.ts_domain.specs.Dims.{IsDim};

use std::alloc::Global;
use std::process::Abort;
use std::test::Fail;
use ts_base::{
    ByteList, Coords, Duplicate, Key, Label, OutOfMemory, Row, Val, ValType, Version, VersionList,
};
use ts_domain::{Dim, Domain, Order, SubBox};
use ts_table::{
    BoxTable, Cell, CellOrder, Column, Integers, Numbers, Origin, Picked, Seen, Table, Texts,
    are_versions_in_order, is_inside, is_table, merge_tables, ordered_places, stamped,
};

const LIMIT: i128 = 18_446_744_073_709_551_616;

fn dim(rt: &impl Abort, name: &str, high: i128, extent: i128) -> Dim
    ensures { IsDim result }
{
    assert!(rt; 0 <= high && high <= LIMIT);
    assert!(rt; 0 <= extent && extent <= LIMIT);
    let name = Label::new(name).expect(rt, "a label");
    Dim {
        name,
        ty: ValType::U64,
        low: 0,
        high,
        extent,
    }
}

// A key of this timestamp.
fn key(t: u64) -> Key {
    Key { t, id: 1 }
}

// The versions of two writes, each named by its write, 0 or 1, with two coordinates. The value of a
// cell is its first coordinate.
fn table(
    rt: &impl Abort,
    alloc: Global,
    stamps: [u64; 2],
    rows: &[(u32, i128, i128)],
) -> Result<Table, OutOfMemory> {
    let mut origins = Vec::new(alloc);
    for t in stamps {
        origins.push(Origin {
            key: key(t),
            schema: key(1),
        })?;
    }
    let (mut first, mut second) = (Numbers::new(alloc), Numbers::new(alloc));
    let (mut values, mut cells) = (Column::new(alloc), Vec::new(alloc));
    for (write, row, column) in rows {
        first.push(*row)?;
        second.push(*column)?;
        values.push_number(*row)?;
        cells.push(*write)?;
    }
    let mut dims = Vec::new(alloc);
    dims.push(first)?;
    dims.push(second)?;
    let mut attrs = Vec::new(alloc);
    attrs.push(values)?;
    assert!(rt;
        is_table(
            origins.as_slice(),
            dims.as_slice(),
            attrs.as_slice(),
            cells.as_slice()
        )
    );
    Ok(Table::of(origins, dims, attrs, cells))
}

// The same versions as rows.
fn rows_of(alloc: Global, versions: &[(u64, i128, i128)]) -> Result<VersionList, OutOfMemory> {
    let mut list = VersionList::new(alloc);
    for (t, row, column) in versions {
        let mut values = Row::new(alloc);
        values.push(Val::Int(*row))?;
        list.push(Version {
            key: key(*t),
            schema: key(1),
            coords: Coords::new(&[*row, *column]),
            row: values,
        })?;
    }
    Ok(list)
}

// These integers.
fn numbers_of(alloc: Global, list: &[i128]) -> Result<Numbers, OutOfMemory> {
    let mut numbers = Numbers::new(alloc);
    for number in list {
        numbers.push(*number)?;
    }
    Ok(numbers)
}

// In how many bits each integer lies, if all lie in as many.
fn bits(numbers: &Numbers) -> Option<u32> {
    match numbers.as_slice() {
        Some(Integers::Short(_)) => Some(32),
        Some(Integers::Long(_)) => Some(64),
        None => None,
    }
}

#[test]
fn numbers_are_a_list_of_integers(rt: HostRuntime) -> Result<(), Fail> {
    let alloc = rt.alloc();
    for (list, wanted) in [
        ([5, -2_147_483_648, 2_147_483_647, 7], Some(32)),
        ([5, -2_147_483_649, 7, 7], Some(64)),
        ([2_147_483_648, 5, 7, 7], Some(64)),
        ([5, 7, 9_223_372_036_854_775_808, 7], None),
    ] {
        let numbers = numbers_of(alloc, &list)?;
        assert_eq!(rt; numbers.len(), 4);
        for (place, number) in list.iter().enumerate() {
            assert_eq!(rt; numbers.at_or_zero(place as u64), *number);
        }
        assert_eq!(rt; numbers.at_or_zero(4), 0);
        assert_eq!(rt; bits(&numbers), wanted);
        let back = numbers.gathered(alloc, &[1, 0])?;
        assert_eq!(rt;
            (back.at_or_zero(0), back.at_or_zero(1)),
            (list[1], list[0])
        );
    }
    Ok(())
}

#[test]
fn texts_are_a_list_of_byte_lists(rt: HostRuntime) -> Result<(), Fail> {
    let alloc = rt.alloc();
    let mut texts = Texts::new(alloc);
    texts.push(b"ab")?;
    texts.push(b"")?;
    texts.push(b"cde")?;
    assert_eq!(rt; texts.starts(), [0, 2, 2].as_slice());
    assert_eq!(rt; texts.bytes(), b"abcde".as_slice());
    assert_eq!(rt; texts.at(1), b"".as_slice());
    assert_eq!(rt; texts.at_or_none(2), b"cde".as_slice());
    assert_eq!(rt; texts.at_or_none(3), b"".as_slice());
    Ok(())
}

#[test]
fn columns_are_lists_of_values(rt: HostRuntime) -> Result<(), Fail> {
    let alloc = rt.alloc();
    let mut row = Row::new(alloc);
    row.push(Val::Null)?;
    row.push(Val::Bytes(ByteList::of_bytes(alloc, b"seven")?))?;
    row.push(Val::Int(-7))?;
    let mut column = Column::new(alloc);
    for val in row.as_slice() {
        column.push(val)?;
    }
    assert!(rt; column.len() == 3);
    let again = column.gathered(alloc, &[0, 1, 2])?;
    for (place, val) in row.as_slice().iter().enumerate() {
        let place = place as u64;
        assert!(rt; place < column.len() && place < again.len());
        assert_eq!(rt; column.at(place).to_val(alloc)?, *val);
        assert_eq!(rt; again.at(place).to_val(alloc)?, *val);
    }
    Ok(())
}

// The column of these integers, and of a null where there is none.
fn column_of(alloc: Global, list: &[Option<i128>]) -> Result<Column, OutOfMemory> {
    let mut column = Column::new(alloc);
    for value in list {
        match value {
            Some(number) => column.push_number(*number)?,
            None => column.push_null()?,
        }
    }
    Ok(column)
}

// Whether the value at a place is this integer, or null where there is none.
fn is_at(column: &Column, place: u64, value: Option<i128>) -> bool {
    place < column.len()
        && match column.at(place) {
            Seen::Int(number) => value == Some(number),
            Seen::Null => value.is_none(),
            Seen::Bytes(_) => false,
        }
}

// Whether the column is that of these.
fn is_column_of(column: &Column, list: &[Option<i128>]) -> bool {
    for (place, value) in list.iter().enumerate() {
        if !is_at(column, place as u64, *value) {
            return false;
        }
    }
    column.len() == list.len() as u64
}

#[test]
fn columns_of_integers_and_nulls_are_copied_and_gathered(rt: HostRuntime) -> Result<(), Fail> {
    let alloc = rt.alloc();
    for [a, b, c] in [
        [Some(1), Some(-2), Some(3)],
        [Some(1), Some(4_294_967_296), Some(3)],
        [Some(9_223_372_036_854_775_808), Some(1), Some(3)],
        [None, None, None],
        [Some(1), None, Some(3)],
        [None, Some(1), Some(4_294_967_296)],
        [Some(1), Some(2), None],
    ] {
        let column = column_of(alloc, &[a, b, c])?;
        assert!(rt; column.len() == 3);
        assert!(rt; is_column_of(&column, &[a, b, c]));
        let mut more = column.copy(alloc)?;
        assert!(rt; is_column_of(&more, &[a, b, c]));
        more.append_part(&column, 1, 2)?;
        assert!(rt; is_column_of(&more, &[a, b, c, b, c]));
        let back = column.gathered(alloc, &[2, 0])?;
        assert!(rt; is_column_of(&back, &[c, a]));
    }
    let nulls = Column::nulls(alloc, 2)?;
    assert!(rt; is_column_of(&nulls, &[None, None]));
    let column = Column::of_integers(alloc, numbers_of(alloc, &[3, 4])?)?;
    assert!(rt; is_column_of(&column, &[Some(3), Some(4)]));
    assert!(rt; matches!(column.as_integers(), Some(Integers::Short([3, 4]))));
    Ok(())
}

#[test]
fn a_table_is_a_list_of_versions(rt: HostRuntime) -> Result<(), Fail> {
    let alloc = rt.alloc();
    let table = table(&rt, alloc, [20, 10], &[(0, 1, 2), (1, 1, 4), (0, 3, 0)])?;
    let rows = rows_of(alloc, &[(20, 1, 2), (10, 1, 4), (20, 3, 0)])?;
    assert_eq!(rt; table.to_rows(alloc)?, rows);
    assert!(rt; table.is_in_row_order());
    assert!(rt; table.len() == 3);
    assert_eq!(rt; table.coord(1, 1), Some(4));
    assert_eq!(rt; table.coord(1, 2), None);
    let cell = Cell::of(&table, 2);
    assert_eq!(rt; cell.to_version(alloc)?, *rows.at(2));
    assert_eq!(rt; (cell.key(), cell.schema()), (key(20), key(1)));
    assert!(rt; matches!(cell.val(0), Some(Seen::Int(3))) && cell.val(1).is_none());
    let late = Picked::of(&table, stamped(alloc, &table, 11, 30)?);
    assert_eq!(rt;
        late.to_rows(alloc)?,
        rows_of(alloc, &[(20, 1, 2), (20, 3, 0)])?
    );
    Ok(())
}

#[test]
fn a_box_has_the_versions_of_its_cells(rt: HostRuntime) -> Result<(), Fail> {
    let alloc = rt.alloc();
    let sub = SubBox {
        low: Coords::new(&[0, 4]),
        high: Coords::new(&[1, 5]),
    };
    let mut values = Column::new(alloc);
    for value in [0, 1, 0, 1] {
        values.push_number(value)?;
    }
    assert!(rt; values.len() == 4);
    let mut attrs = Vec::new(alloc);
    attrs.push(values)?;
    let origin = Origin {
        key: key(9),
        schema: key(1),
    };
    let table = BoxTable::of(sub, Order::Col, origin, attrs);
    let rows = rows_of(alloc, &[(9, 0, 4), (9, 1, 4), (9, 0, 5), (9, 1, 5)])?;
    assert!(rt; table.len() == rows.len());
    for place in 0..table.len() {
        assert_eq!(rt; table.version(alloc, place)?, *rows.at(place));
    }
    Ok(())
}

// A domain of two dimensions from 0 on, in tiles of 2 by 2.
fn domain(rt: &impl Abort, rows: i128, columns: i128) -> Result<Domain, Fail> {
    Ok(Domain::new(&[dim(rt, "r", rows, 2), dim(rt, "c", columns, 2)])?)
}

// Two tables as one, as rows.
fn merge(
    rt: &impl Abort,
    alloc: Global,
    domain: &Domain,
    order: CellOrder,
    tables: &[Table; 2],
) -> Result<VersionList, OutOfMemory> {
    let (first, second) = (&tables[0], &tables[1]);
    assert!(rt; is_inside(domain, first));
    assert!(rt; is_inside(domain, second));
    assert!(rt; are_versions_in_order(domain, order, first));
    assert!(rt; are_versions_in_order(domain, order, second));
    let merged = merge_tables(alloc, domain, order, tables)?;
    let mut rows = VersionList::new(alloc);
    for cell in merged.as_slice() {
        rows.push(cell.to_version(alloc)?)?;
    }
    Ok(rows)
}

#[test]
fn tables_are_merged_to_the_newest_of_each_cell(rt: HostRuntime) -> Result<(), Fail> {
    let alloc = rt.alloc();
    let domain = domain(&rt, 9, 9)?;
    let first = table(&rt, alloc, [10, 20], &[(0, 0, 1), (1, 0, 1), (0, 1, 1)])?;
    let second = table(&rt, alloc, [15, 15], &[(0, 0, 0), (1, 0, 1), (1, 1, 1)])?;
    let rows = merge(
        &rt,
        alloc,
        &domain,
        CellOrder::Plain(Order::Row),
        &[first, second],
    )?;
    assert_eq!(rt;
        rows,
        rows_of(alloc, &[(15, 0, 0), (20, 0, 1), (15, 1, 1)])?
    );
    Ok(())
}

// The places of the versions of a table, in an order, are these.
fn order_places(
    rt: &impl Abort,
    alloc: Global,
    domain: &Domain,
    order: CellOrder,
    table: &Table,
    places: &[u32],
) -> Result<(), OutOfMemory> {
    assert!(rt; table.len() < 4294967296);
    assert!(rt; is_inside(domain, table));
    let ordered = ordered_places(alloc, domain, order, table)?;
    assert!(rt; ordered.as_slice() == places);
    Ok(())
}

// Cells in no order, one of them twice.
fn scattered(rt: &impl Abort, alloc: Global) -> Result<Table, OutOfMemory> {
    table(
        rt,
        alloc,
        [1, 2],
        &[
            (0, 0, 0),
            (1, 0, 1),
            (0, 1, 0),
            (1, 1, 1),
            (0, 2, 1),
            (1, 2, 0),
            (1, 0, 0),
        ],
    )
}

// Global order, whose tiles stand in row order and whose cells in column order.
const GLOBAL: CellOrder = CellOrder::Global {
    tile: Order::Row,
    cell: Order::Col,
};

#[test]
fn places_are_ordered_by_ranks(rt: HostRuntime) -> Result<(), Fail> {
    let alloc = rt.alloc();
    let domain = domain(&rt, 2, 1)?;
    let table = scattered(&rt, alloc)?;
    let col = CellOrder::Plain(Order::Col);
    order_places(&rt, alloc, &domain, col, &table, &[0, 6, 2, 5, 1, 3, 4])?;
    order_places(&rt, alloc, &domain, GLOBAL, &table, &[0, 6, 2, 1, 3, 5, 4])?;
    Ok(())
}

#[test]
fn places_of_a_large_domain_are_ordered_by_cells(rt: HostRuntime) -> Result<(), Fail> {
    let alloc = rt.alloc();
    let domain = domain(&rt, LIMIT - 1, LIMIT - 1)?;
    let table = scattered(&rt, alloc)?;
    order_places(&rt, alloc, &domain, GLOBAL, &table, &[0, 6, 2, 1, 3, 5, 4])?;
    Ok(())
}
