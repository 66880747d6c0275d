//! Worked rows of domains and boxes.
ghost use Rattle.std.specs.Prelude.{◌≡◌, ◌≤ℤ◌, length};
ghost use Rattle.ts_domain.specs.Boxes.{IsBox};
ghost use Rattle.ts_domain.specs.Dims.{IsDim};

use std::process::Abort;
use std::test::Fail;
use ts_base::{Coords, Label, ValType};
use ts_domain::{Dim, Domain, DomainFault, Outside, SubBox};

const LIMIT: i128 = 18_446_744_073_709_551_616;

fn dim(rt: &impl Abort, name: &str, ty: ValType, low: i128, high: i128, extent: i128) -> Dim
    ensures { IsDim result }
{
    assert!(rt; ty.is_integer());
    assert!(rt; -LIMIT <= low && low <= LIMIT);
    assert!(rt; -LIMIT <= high && high <= LIMIT);
    assert!(rt; -LIMIT <= extent && extent <= LIMIT);
    let name = Label::new(name).expect(rt, "a label");
    Dim {
        name,
        ty,
        low,
        high,
        extent,
    }
}

fn square(low: i128, high: i128) -> SubBox
    requires { low ≤ℤ high }
    ensures valid { IsBox result }
    ensures dims { length result.low ≡ 2 }
{
    SubBox {
        low: Coords::new(&[low, low]),
        high: Coords::new(&[high, high]),
    }
}

#[test]
fn names_the_fault_of_one_dimension(rt: HostRuntime) {
    let table = [
        (
            ValType::I64,
            1,
            10,
            11,
            Some(DomainFault::BadExtent { dim: 0 }),
        ),
        (
            ValType::I64,
            1,
            10,
            0,
            Some(DomainFault::BadExtent { dim: 0 }),
        ),
        (ValType::I64, 1, 10, 10, None),
        (
            ValType::I64,
            5,
            4,
            1,
            Some(DomainFault::EmptyDim { dim: 0 }),
        ),
        (ValType::I64, 7, 7, 1, None),
        (
            ValType::U8,
            250,
            255,
            4,
            Some(DomainFault::PastType { dim: 0 }),
        ),
        (ValType::U8, 250, 255, 3, None),
        (
            ValType::U8,
            -1,
            5,
            1,
            Some(DomainFault::PastType { dim: 0 }),
        ),
        (ValType::U8, 0, 255, 256, None),
        (ValType::I8, -128, 127, 256, None),
        (
            ValType::I8,
            -128,
            127,
            3,
            Some(DomainFault::PastType { dim: 0 }),
        ),
        (
            ValType::I8,
            -128,
            126,
            256,
            Some(DomainFault::BadExtent { dim: 0 }),
        ),
        (ValType::I16, -32_768, 32_767, 2, None),
        (
            ValType::U16,
            0,
            65_536,
            1,
            Some(DomainFault::PastType { dim: 0 }),
        ),
        (
            ValType::I32,
            -2_147_483_649,
            0,
            1,
            Some(DomainFault::PastType { dim: 0 }),
        ),
        (ValType::U32, 4_294_967_295, 4_294_967_295, 1, None),
        (
            ValType::I64,
            -9_223_372_036_854_775_808,
            9_223_372_036_854_775_807,
            LIMIT,
            None,
        ),
        (ValType::U64, 0, LIMIT - 1, 4, None),
        (
            ValType::U64,
            0,
            LIMIT - 1,
            7,
            Some(DomainFault::PastType { dim: 0 }),
        ),
    ];
    for (ty, low, high, extent, want) in table {
        let dims = [dim(&rt, "x", ty, low, high, extent)];
        assert_eq!(rt;
            Domain::new(&dims).err(),
            want,
            "{ty:?} {low} {high} {extent}"
        );
    }
}

fn tens(rt: &impl Abort, name: &str) -> Dim
    ensures { IsDim result }
{
    dim(rt, name, ValType::I32, 0, 9, 10)
}

#[test]
fn names_the_first_fault_of_several_dimensions(rt: HostRuntime) {
    let nine = [tens(&rt, "x"); 9];
    assert_eq!(rt;
        Domain::new(&nine).err(),
        Some(DomainFault::TooManyDims { count: 9 })
    );
    let twice = [tens(&rt, "x"), tens(&rt, "x")];
    assert_eq!(rt;
        Domain::new(&twice).err(),
        Some(DomainFault::DuplicateName { dim: 1 })
    );
    let wide = dim(&rt, "y", ValType::I32, 0, 9, 11);
    let between = [tens(&rt, "x"), wide, tens(&rt, "x")];
    assert_eq!(rt;
        Domain::new(&between).err(),
        Some(DomainFault::BadExtent { dim: 1 })
    );
}

#[test]
fn finds_the_first_coordinate_outside(rt: HostRuntime) -> Result<(), Fail> {
    let rows = dim(&rt, "r", ValType::U8, 1, 3, 2);
    let columns = dim(&rt, "c", ValType::I8, -4, 4, 3);
    let domain = Domain::new(&[rows, columns])?;
    assert_eq!(rt; domain.count(), 2);
    assert_eq!(rt; *domain.dim(1), columns);
    assert_eq!(rt; domain.check(&Coords::new(&[1, -4])), Ok(()));
    assert_eq!(rt; domain.check(&Coords::new(&[3, 4])), Ok(()));
    assert_eq!(rt;
        domain.check(&Coords::new(&[3, 5])),
        Err(Outside { dim: 1, value: 5 })
    );
    assert_eq!(rt;
        domain.check(&Coords::new(&[0, 5])),
        Err(Outside { dim: 0, value: 0 })
    );
    assert_eq!(rt; domain.check_box(&square(1, 3)), Ok(()));
    assert_eq!(rt;
        domain.check_box(&square(0, 4)),
        Err(Outside { dim: 0, value: 0 })
    );
    assert_eq!(rt;
        domain.check_box(&square(1, 5)),
        Err(Outside { dim: 0, value: 5 })
    );
    Ok(())
}

#[test]
fn measures_and_joins_boxes(rt: HostRuntime) {
    assert_eq!(rt; square(3, 3).cells(), 1);
    assert_eq!(rt; square(-1, 8).cells(), 100);
    assert_eq!(rt;
        square(0, 4_294_967_294).cells(),
        18_446_744_065_119_617_025
    );
    assert_eq!(rt; square(0, 4_294_967_295).cells(), u64::MAX);
    assert_eq!(rt; square(0, LIMIT).cells(), u64::MAX);
    assert!(rt; square(1, 2).meets(&square(2, 5)));
    assert!(rt; !square(1, 2).meets(&square(3, 5)));
    assert_eq!(rt; square(1, 2).hull(&square(4, 5)), square(1, 5));
}
