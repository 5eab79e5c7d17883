ghost use Rattle.std.specs.Prelude.{◌≡◌};

use super::*;
use std::test::Fail;

fn lit(var: u32, positive: bool) -> Lit
    ensures { result ≡ record { var = var; positive = positive } }
{
    Lit { var, positive }
}

#[test]
fn keeps_the_trail_of_a_search(rt: HostRuntime) -> Result<(), Fail> {
    let mut trail = Trail::new(rt.alloc(), 4)?;
    assert_eq!(rt; trail.level(), 0);
    trail.imply(lit(3, true), 7);
    trail.see();
    trail.decide(lit(1, false));
    trail.imply(lit(4, true), 2);
    trail.see();
    trail.see();
    assert!(rt; trail.lits() == [lit(3, true), lit(1, false), lit(4, true)].as_slice());
    assert!(rt; trail.values() == [Some(false), None, Some(true), Some(true)].as_slice());
    assert_eq!(rt; trail.level_of(3), 0);
    assert_eq!(rt; trail.level_of(4), 1);
    assert_eq!(rt; trail.reason_of(1), None);
    assert_eq!(rt; trail.reason_of(4), Some(2));
    trail.decide(lit(2, true));
    assert_eq!(rt; trail.level(), 2);
    assert_eq!(rt; trail.seen(), 3);
    trail.back_to(1);
    assert_eq!(rt; trail.seen(), 3);
    trail.back_to(0);
    assert_eq!(rt; trail.seen(), 1);
    assert!(rt; trail.lits() == [lit(3, true)].as_slice());
    assert!(rt; trail.values() == [None, None, Some(true), None].as_slice());
    trail.decide(lit(4, false));
    assert_eq!(rt; trail.level_of(4), 1);
    assert_eq!(rt; trail.reason_of(4), None);
    let large = Trail::new(rt.alloc(), 1000000)?;
    assert_eq!(rt; large.lits().len(), 0);
    Ok(())
}
