//! Worked rows of orders, places and tiles.
ghost use Rattle.ts_domain.specs.Dims.{IsDim};

use std::cmp::Ordering;
use std::process::Abort;
use std::test::Fail;
use ts_base::{Coords, Label, ValType};
use ts_domain::{Dim, Domain, Order, SubBox};
use ts_order::{cmp_global, cmp_plain, coords_at, position_of, tiles_of};

const LIMIT: i128 = 18_446_744_073_709_551_616;

fn dim(rt: &impl Abort, name: &str, low: i128, high: i128, extent: i128) -> Dim
    ensures { IsDim result }
{
    assert!(rt; -LIMIT <= low && low <= LIMIT);
    assert!(rt; -LIMIT <= high && high <= LIMIT);
    assert!(rt; -LIMIT <= extent && extent <= LIMIT);
    let name = Label::new(name).expect(rt, "a label");
    Dim {
        name,
        ty: ValType::I16,
        low,
        high,
        extent,
    }
}

fn between(low: [i128; 2], high: [i128; 2]) -> SubBox {
    SubBox {
        low: Coords::new(&low),
        high: Coords::new(&high),
    }
}

#[test]
fn compares_by_the_first_or_the_last_dimension(rt: HostRuntime) {
    let (a, b) = (Coords::new(&[0, 5, -3]), Coords::new(&[0, 4, -2]));
    assert_eq!(rt; cmp_plain(Order::Row, &a, &b), Ordering::Greater);
    assert_eq!(rt; cmp_plain(Order::Col, &a, &b), Ordering::Less);
    assert_eq!(rt; cmp_plain(Order::Col, &a, &a), Ordering::Equal);
}

#[test]
fn compares_tiles_before_cells(rt: HostRuntime) -> Result<(), Fail> {
    let dims = [dim(&rt, "r", 1, 3, 2), dim(&rt, "c", 1, 2, 2)];
    let domain = Domain::new(&dims)?;
    // The cells in global order: the rows of tiles first, and in a tile column by column.
    let cells = [[1, 1], [2, 1], [1, 2], [2, 2], [3, 1], [3, 2]];
    for i in 0..6 {
        for j in 0..6 {
            let (a, b) = (Coords::new(&cells[i]), Coords::new(&cells[j]));
            assert!(rt; domain.check(&a).is_ok());
            assert!(rt; domain.check(&b).is_ok());
            let order = cmp_global(&domain, Order::Row, Order::Col, &a, &b);
            assert_eq!(rt; order, i.cmp(&j), "{i} {j}");
        }
    }
    Ok(())
}

#[test]
fn finds_cells_by_place_and_places_by_cell(rt: HostRuntime) {
    let sub = SubBox {
        low: Coords::new(&[0, 0]),
        high: Coords::new(&[1, 2]),
    };
    assert_eq!(rt; coords_at(&sub, Order::Row, 3), Coords::new(&[1, 0]));
    assert_eq!(rt; coords_at(&sub, Order::Col, 3), Coords::new(&[1, 1]));
    for place in 0..6 {
        for order in [Order::Row, Order::Col] {
            let at = coords_at(&sub, order, place);
            assert_eq!(rt; position_of(&sub, order, &at), place);
        }
    }
    let cube = SubBox {
        low: Coords::new(&[-2, 10, 7, 0]),
        high: Coords::new(&[0, 11, 7, 4]),
    };
    let last = Coords::new(&[0, 11, 7, 4]);
    assert_eq!(rt;
        coords_at(&cube, Order::Row, 7),
        Coords::new(&[-2, 11, 7, 2])
    );
    assert_eq!(rt;
        coords_at(&cube, Order::Col, 7),
        Coords::new(&[-1, 10, 7, 1])
    );
    assert_eq!(rt; position_of(&cube, Order::Row, &last), 29);
    assert_eq!(rt; position_of(&cube, Order::Col, &last), 29);
}

#[test]
fn cuts_a_box_to_its_tiles(rt: HostRuntime) -> Result<(), Fail> {
    let dims = [dim(&rt, "r", 1, 3, 2), dim(&rt, "c", 1, 2, 2)];
    let domain = Domain::new(&dims)?;
    let whole = SubBox {
        low: Coords::new(&[1, 1]),
        high: Coords::new(&[3, 2]),
    };
    assert!(rt; domain.check_box(&whole).is_ok());
    let tiles = tiles_of(rt.alloc(), &domain, Order::Row, &whole)?;
    let first = SubBox {
        low: Coords::new(&[1, 1]),
        high: Coords::new(&[2, 2]),
    };
    let second = SubBox {
        low: Coords::new(&[3, 1]),
        high: Coords::new(&[3, 2]),
    };
    assert_eq!(rt; tiles.as_slice(), [first, second].as_slice());
    Ok(())
}

#[test]
fn orders_tiles_by_row_or_by_column(rt: HostRuntime) -> Result<(), Fail> {
    // Tiles of 4 by 3: the rows -4 to -1 and 0 to 3, the columns 0 to 2, 3 to 5 and 6 to 8.
    let dims = [dim(&rt, "r", -4, 5, 4), dim(&rt, "c", 0, 7, 3)];
    let domain = Domain::new(&dims)?;
    let sub = SubBox {
        low: Coords::new(&[-1, 2]),
        high: Coords::new(&[3, 3]),
    };
    assert!(rt; domain.check_box(&sub).is_ok());
    let by_rows = [
        between([-1, 2], [-1, 2]),
        between([-1, 3], [-1, 3]),
        between([0, 2], [3, 2]),
        between([0, 3], [3, 3]),
    ];
    let tiles = tiles_of(rt.alloc(), &domain, Order::Row, &sub)?;
    assert_eq!(rt; tiles.as_slice(), by_rows.as_slice());
    let by_columns = [
        between([-1, 2], [-1, 2]),
        between([0, 2], [3, 2]),
        between([-1, 3], [-1, 3]),
        between([0, 3], [3, 3]),
    ];
    let tiles = tiles_of(rt.alloc(), &domain, Order::Col, &sub)?;
    assert_eq!(rt; tiles.as_slice(), by_columns.as_slice());
    Ok(())
}
