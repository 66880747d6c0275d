//! Coordinates, and their order.
use ts_base::Coords;

#[test]
fn coordinates_stand_in_the_order_of_the_dimensions(rt: HostRuntime) {
    let coords = Coords::new(&[-5, 18446744073709551615, 0]);
    assert_eq!(rt; coords.len(), 3);
    assert_eq!(rt; coords.as_slice(), [-5, 18446744073709551615, 0].as_slice());
    assert_eq!(rt; Coords::new(&[1, 2]).at(1), 2);
    assert!(rt; Coords::new(&[1]) != Coords::new(&[1, 0]));
    assert!(rt; Coords::new(&[-2, 9]) < Coords::new(&[-1, 0]));
}
