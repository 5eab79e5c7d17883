use super::*;
use std::test::Fail;

#[test]
fn grows_and_shrinks(rt: HostRuntime) -> Result<(), Fail> {
    let mut list: Seq<u32> = Seq::new(rt.alloc());
    for item in [3, 1, 4, 1, 5] {
        list.push(item)?;
    }
    assert_eq!(rt; list.len(), 5);
    list.set(1, 9);
    list.truncate(3);
    assert_eq!(rt; list.len(), 3);
    assert_eq!(rt; *list.get(1), 9);
    assert_eq!(rt; list.as_slice(), [3, 9, 4].as_slice());
    let copy = Seq::from_slice(rt.alloc(), list.as_slice())?;
    assert!(rt; copy == list);
    let kept = Seq::from_vec(list.into_vec());
    assert!(rt; copy == kept);
    Ok(())
}
