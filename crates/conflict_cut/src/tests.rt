ghost use Rattle.std.specs.Prelude.{◌≡◌, IfOk};
ghost use Rattle.conflict_cut.specs.Example.{example_clauses, example_trail};

use super::*;
use std::test::Fail;

fn lit(var: u32, positive: bool) -> Lit
    ensures { result ≡ record { var = var; positive = positive } }
{
    Lit { var, positive }
}

fn example_store(alloc: Global) -> Result<Store, AllocError>
    ensures { IfOk result (λ s. s ≡ record { vars = 4; clauses = example_clauses }) }
{
    let mut store = Store::new(alloc, 4);
    store.add(&[lit(2, false), lit(3, true)])?;
    store.add(&[lit(3, false), lit(1, false), lit(4, true)])?;
    store.add(&[lit(3, false), lit(4, false)])?;
    Ok(store)
}

fn example_course(alloc: Global) -> Result<Trail, AllocError>
    ensures { IfOk result (λ t. t ≡ example_trail) }
{
    let mut trail = Trail::new(alloc, 4)?;
    trail.decide(lit(1, true));
    trail.decide(lit(2, true));
    trail.imply(lit(3, true), 0);
    trail.imply(lit(4, true), 1);
    Ok(trail)
}

// The decision of 2 makes 3 true, and 3 alone with 1 makes the third clause false: so 3 is the point, and not 2.
#[test]
fn cuts_at_the_first_point(rt: HostRuntime) -> Result<(), Fail> {
    let store = example_store(rt.alloc())?;
    let trail = example_course(rt.alloc())?;
    let mut scratch = Scratch::new(rt.alloc(), 4)?;
    assert_eq!(rt; scratch.lits().len(), 0);
    assert_eq!(rt; cut(&store, &trail, 2, &mut scratch), 1);
    assert!(rt; scratch.lits() == [lit(1, false), lit(3, false)].as_slice());
    assert_eq!(rt; cut(&store, &trail, 2, &mut scratch), 1);
    assert!(rt; scratch.lits() == [lit(1, false), lit(3, false)].as_slice());
    let large = Scratch::new(rt.alloc(), 1000000)?;
    assert_eq!(rt; large.lits().len(), 0);
    Ok(())
}
