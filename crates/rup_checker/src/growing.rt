//! Taking in the first clauses, and one more.

ghost use Rattle.std.specs.Prelude.{◌≡◌, [], IfOk, OnOk, OnErr, MatchBool};
ghost use Rattle.std.specs.List.{All};
ghost use Rattle.clause_store.specs.Clauses.{InVars};
ghost use Rattle.clause_store.specs.Propagation.{Follows};
ghost use Rattle.unit_closure.specs.Search.{IsReadyAt, with_clause};
ghost use Rattle.rup_checker.specs.Trying.{IsReady};

use clause_store::{Lit, Store};
use std::alloc::AllocError;
use trail_core::Trail;
use unit_closure::arrivals::{admit_all, include};
use unit_closure::steps::spread;
use watch_lists::Watches;

/// Takes in all clauses of a store, none of which is taken in yet, and propagates. It answers whether no clause is false.
pub fn begin(store: &Store, watches: &mut Watches, trail: &mut Trail) -> Result<bool, AllocError>
    requires { IsReadyAt store.now watches.old trail.old 0 }
    ensures { IfOk result (λ b. MatchBool b (IsReady store.now watches.new trail.new) (Follows store.now.clauses [])) }
{
    if !admit_all(store, watches, trail)? {
        return Ok(false);
    }
    Ok(spread(store, watches, trail).is_none())
}

/// Adds a clause and propagates. It answers whether no clause is false. Where memory is refused, the clauses stay as they
/// were.
pub fn grow(
    store: &mut Store,
    watches: &mut Watches,
    trail: &mut Trail,
    lits: &[Lit],
) -> Result<bool, AllocError>
    requires ready { IsReady store.old watches.old trail.old }
    requires named { All (InVars store.old.vars) lits.now }
    ensures added { OnOk result (store.new ≡ with_clause store.old lits.now) }
    ensures ok { IfOk result (λ b. MatchBool b (IsReady store.new watches.new trail.new) (Follows store.new.clauses [])) }
    ensures err { OnErr result (store.new ≡ store.old) }
    ensures err_ready { OnErr result (IsReady store.new watches.new trail.new) }
{
    if !include(store, watches, trail, lits)? {
        return Ok(false);
    }
    Ok(spread(store, watches, trail).is_none())
}
