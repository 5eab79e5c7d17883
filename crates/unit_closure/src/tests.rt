ghost use Rattle.std.specs.Prelude.{◌≡◌};

use super::*;
use arrivals::{admit_all, include};
use clause_store::{Lit, Store};
use standing::{holds, is_open};
use std::test::Fail;
use steps::spread;
use trail_core::Trail;
use watch_lists::Watches;

fn lit(var: u32, positive: bool) -> Lit
    ensures { result ≡ record { var = var; positive = positive } }
{
    Lit { var, positive }
}

#[test]
fn reads_how_literals_stand(rt: HostRuntime) -> Result<(), Fail> {
    let mut trail = Trail::new(rt.alloc(), 4)?;
    trail.imply(lit(1, true), 0);
    trail.imply(lit(2, false), 1);
    assert!(rt; holds(&trail, lit(2, false)));
    assert!(rt; !holds(&trail, lit(1, false)));
    assert!(rt; is_open(&trail, lit(3, false)));
    assert!(rt; !is_open(&trail, lit(1, false)));
    Ok(())
}

#[test]
fn takes_clauses_in(rt: HostRuntime) -> Result<(), Fail> {
    let mut store = Store::new(rt.alloc(), 4);
    store.add(&[lit(1, true)])?;
    store.add(&[lit(1, false), lit(2, true)])?;
    store.add(&[lit(2, false), lit(3, true), lit(4, true)])?;
    let mut watches = Watches::new(rt.alloc(), 4)?;
    let mut trail = Trail::new(rt.alloc(), 4)?;
    let begun = admit_all(&store, &mut watches, &mut trail)?;
    assert!(rt; begun);
    assert!(rt; trail.lits() == [lit(1, true), lit(2, true)].as_slice());
    let more = include(&mut store, &mut watches, &mut trail, &[lit(3, false)])?;
    assert!(rt; more);
    let found = spread(&store, &mut watches, &mut trail);
    assert!(rt; found.is_none());
    assert!(rt;
        trail.lits() == [lit(1, true), lit(2, true), lit(3, false), lit(4, true)].as_slice()
    );
    let last = include(
        &mut store,
        &mut watches,
        &mut trail,
        &[lit(4, false), lit(1, false)],
    )?;
    assert!(rt; !last);
    assert_eq!(rt; store.len(), 5);
    Ok(())
}
