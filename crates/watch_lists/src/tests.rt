ghost use Rattle.std.specs.Prelude.{◌≡◌, ◌≢◌, ◌<◌, ◌≤◌, [], length, IfOk, IfNone, IfSome, MatchBool};
ghost use Rattle.std.specs.List.{Contains};
ghost use Rattle.clause_store.specs.declared.Lit.{Lit};
ghost use Rattle.clause_store.specs.Clauses.{InVars};
ghost use Rattle.trail_core.specs.Course.{HasNoValue};
ghost use Rattle.watch_lists.specs.Watching.{numbers, AreWatches, AreInStep};
ghost use Rattle.watch_lists.specs.Propagated.{IsConflict, AreSafe};

use super::*;
use std::test::Fail;

fn lit(var: u32, positive: bool) -> Lit
    ensures { result ≡ record { var = var; positive = positive } }
{
    Lit { var, positive }
}

fn has_two(clause: &[Lit]) -> bool
    ensures { MatchBool result ((l : Lit) × (m : Lit) × Contains clause.now l × Contains clause.now m × (l ≢ m)) (Unit {0}) }
{
    for l in clause {
        let first = clause[0];
        if *l != first {
            return true;
        }
    }
    false
}

// Attaches each clause that has two different literals, before any literal has a value.
fn watch_all(alloc: Global, store: &Store, trail: &Trail) -> Result<Watches, AllocError>
    requires over { trail.now.vars ≡ store.now.vars }
    requires begins { trail.now.entries ≡ [] }
    ensures vars { IfOk result (λ w. w.vars ≡ store.now.vars) }
    ensures watches { IfOk result (λ w. AreWatches store.now.clauses w.list) }
    ensures in_step { IfOk result (λ w. AreInStep w.list trail.now) }
{
    let mut watches = Watches::new(alloc, store.vars())?;
    watches.reserve(store.len())?;
    for id in 0..store.len() {
        if has_two(store.clause(id)) {
            watches.attach(store, trail, id)?;
        }
    }
    Ok(watches)
}

// Decides a literal and propagates.
fn go_on(watches: &mut Watches, store: &Store, trail: &mut Trail, l: Lit) -> Option<usize>
    requires over { watches.old.vars ≡ store.now.vars }
    requires over_trail { trail.old.vars ≡ store.now.vars }
    requires watches { AreWatches store.now.clauses watches.old.list }
    requires in_step { AreInStep watches.old.list trail.old }
    requires seen { trail.old.seen ≡ length trail.old.entries }
    requires there { InVars trail.old.vars l }
    requires free { HasNoValue trail.old.entries l.var }
    ensures watches { AreWatches store.now.clauses watches.new.list }
    ensures in_step { AreInStep watches.new.list trail.new }
    ensures safe { IfNone result (AreSafe store.now.clauses (numbers watches.old.list) trail.new.entries) }
    ensures conflict { IfSome result (λ id. IsConflict store.now.clauses (numbers watches.old.list) trail.new.entries id) }
{
    trail.decide(l);
    watches.propagate(store, trail)
}

#[test]
fn closes_a_trail(rt: HostRuntime) -> Result<(), Fail> {
    let mut store = Store::new(rt.alloc(), 3);
    assert_eq!(rt; store.add(&[lit(1, true), lit(2, true)])?, 0);
    assert_eq!(rt; store.add(&[lit(2, false), lit(3, true)])?, 1);
    let mut trail = Trail::new(rt.alloc(), 3)?;
    let mut watches = watch_all(rt.alloc(), &store, &trail)?;
    let found = go_on(&mut watches, &store, &mut trail, lit(1, false));
    assert!(rt; found.is_none());
    assert!(rt; trail.lits() == [lit(1, false), lit(2, true), lit(3, true)].as_slice());
    assert_eq!(rt; trail.seen(), 3);
    assert!(rt; trail.values() == [Some(false), Some(true), Some(true)].as_slice());
    let large = Watches::new(rt.alloc(), 1000000);
    assert!(rt; large.is_ok());
    Ok(())
}

#[test]
fn finds_the_false_clause(rt: HostRuntime) -> Result<(), Fail> {
    let mut store = Store::new(rt.alloc(), 3);
    assert_eq!(rt; store.add(&[lit(1, true), lit(2, true)])?, 0);
    assert_eq!(rt; store.add(&[lit(1, true), lit(3, true)])?, 1);
    assert_eq!(rt; store.add(&[lit(2, false), lit(3, false)])?, 2);
    let mut trail = Trail::new(rt.alloc(), 3)?;
    let mut watches = watch_all(rt.alloc(), &store, &trail)?;
    let found = go_on(&mut watches, &store, &mut trail, lit(1, false));
    assert_eq!(rt; found, Some(2));
    assert_eq!(rt; trail.lits().len(), 3);
    Ok(())
}

#[test]
fn clauses_stand_as_their_literals_do(rt: HostRuntime) -> Result<(), Fail> {
    let mut trail = Trail::new(rt.alloc(), 4)?;
    trail.imply(lit(1, true), 0);
    trail.imply(lit(2, false), 1);
    let (open, other) = (lit(3, true), lit(4, false));
    assert!(rt; standing_of(&trail, &[]) == Standing::False);
    assert!(rt; standing_of(&trail, &[lit(1, false), lit(2, true)]) == Standing::False);
    assert!(rt; standing_of(&trail, &[open, lit(1, false), open]) == Standing::Unit(open));
    assert!(rt; standing_of(&trail, &[lit(1, false), open, other]) == Standing::Open(open, other));
    assert!(rt; standing_of(&trail, &[open, other, lit(2, false)]) == Standing::True);
    assert!(rt; standing_of(&trail, &[lit(1, true), open, lit(2, true)]) == Standing::True);
    Ok(())
}
