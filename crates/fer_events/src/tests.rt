use super::*;
use std::test::Fail;

#[test]
fn pairs_are_kept(rt: HostRuntime) -> Result<(), Fail> {
    let mut pairs = Pairs::new(128);
    pairs.set(1, 128);
    pairs.set(127, 2);
    assert!(rt; pairs.has(1, 128));
    assert!(rt; pairs.has(127, 2));
    assert!(rt; !pairs.has(128, 1));
    assert!(rt; !pairs.has(1, 127));
    assert_eq!(rt; pairs.n(), 128);
    Ok(())
}

#[test]
fn pairs_are_lifted(rt: HostRuntime) -> Result<(), Fail> {
    let mut small = Pairs::new(3);
    small.set(1, 3);
    small.set(2, 3);
    let large = lift(&small, &[1, 4, 6], 7);
    assert_eq!(rt; large.n(), 7);
    assert!(rt; large.has(1, 6));
    assert!(rt; large.has(4, 6));
    assert!(rt; !large.has(1, 4));
    assert!(rt; !large.has(1, 3));
    assert!(rt; !large.has(2, 3));
    assert!(rt; !large.has(6, 1));
    Ok(())
}
