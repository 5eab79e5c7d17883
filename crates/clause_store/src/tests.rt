ghost use Rattle.std.specs.Prelude.{◌≡◌};

use super::*;
use std::test::Fail;

fn lit(var: u32, positive: bool) -> Lit
    ensures { result ≡ record { var = var; positive = positive } }
{
    Lit { var, positive }
}

#[test]
fn keeps_clauses(rt: HostRuntime) -> Result<(), Fail> {
    let one = lit(1, true);
    let not_two = lit(2, false);
    assert!(rt; one.negated() == lit(1, false));
    assert!(rt; not_two.negated() == lit(2, true));
    let mut store = Store::new(rt.alloc(), 1);
    store.raise_vars(2);
    assert_eq!(rt; store.vars(), 2);
    assert_eq!(rt; store.add(&[one])?, 0);
    assert_eq!(rt; store.add(&[])?, 1);
    assert_eq!(rt; store.add(&[one.negated(), not_two])?, 2);
    assert_eq!(rt; store.len(), 3);
    assert!(rt; store.clause(2) == [one.negated(), not_two].as_slice());
    store.truncate(2);
    assert_eq!(rt; store.len(), 2);
    assert!(rt; store.clause(0) == [one].as_slice());
    assert_eq!(rt; store.clause(1).len(), 0);
    store.reserve(5000, 10000)?;
    for _ in 0..5000 {
        store.add(&[one, not_two])?;
    }
    assert_eq!(rt; store.len(), 5002);
    Ok(())
}
