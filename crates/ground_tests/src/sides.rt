use geo_rect::Rect;
use plane_core::{Side, Strip, Strips};
use std::test::Fail;

#[test]
fn more_strips_than_have_places(rt: HostRuntime) -> Result<(), Fail> {
    let mut list = Strips::new(rt.alloc());
    assert!(rt; list.is_empty());
    for _ in 0..9 {
        list.push(Strip::default())?;
    }
    assert_eq!(rt; list.len(), 9);
    assert_eq!(rt; list.as_slice().len(), 9);
    Ok(())
}

#[test]
fn each_side_turns_to_the_left(rt: HostRuntime) {
    let r = Rect::new(1, 2, 4, 8);
    assert_eq!(rt; Side::Left.turn(r), r);
    assert_eq!(rt; Side::Below.turn(r), Rect::new(2, 1, 8, 4));
    assert_eq!(rt; Side::Right.turn(r), Rect::new(-4, -8, -1, -2));
    assert_eq!(rt; Side::Above.turn(r), Rect::new(-8, -4, -2, -1));
    assert!(rt; !Side::Above.is_beside(r, Rect::new(5, 9, 6, 9)));
    assert!(rt; Side::Above.is_beside(r, Rect::new(4, 9, 6, 9)));
}
