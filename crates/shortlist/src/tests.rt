// A list that is filled, and one that is copied.
use crate::*;

#[test]
fn filled(rt: HostRuntime) {
    let mut list = ShortList::<u8, 2>::new();
    assert_eq!(rt; list.push(7), Ok(()));
    assert_eq!(rt; list.push(9), Ok(()));
    assert_eq!(rt; list.push(11), Err(NoRoom));
    assert_eq!(rt; list.as_slice(), [7, 9].as_slice());
    assert_eq!(rt; list.len(), 2);
}

#[test]
fn of_a_slice(rt: HostRuntime) {
    let two = ShortList::<i32, 3>::from_slice(&[-2, 1]).unwrap();
    let mut three = two;
    assert_eq!(rt; three.push(5), Ok(()));
    assert_eq!(rt; two.as_slice(), [-2, 1].as_slice());
    assert_eq!(rt; three.as_slice(), [-2, 1, 5].as_slice());
    assert!(rt; ShortList::<u32, 2>::from_slice(&[1, 2, 3]).is_none());
}
