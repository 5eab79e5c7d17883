//! How clauses are taken in at level 0: attached, made use of at once, or found false.

ghost use Rattle.std.specs.Prelude.{◌≡◌, ◌+◌, ◌<◌, [], length, IfOk, OnOk, OnErr, MatchBool};
ghost use Rattle.std.specs.List.{All};
ghost use Rattle.clause_store.specs.Clauses.{InVars};
ghost use Rattle.clause_store.specs.Propagation.{Follows};
ghost use Rattle.conflict_cut.specs.Cut.{IsConflict};
ghost use Rattle.unit_closure.specs.Search.{IsSound, IsReadyAt, with_clause};

use clause_store::{Lit, Store};
use std::alloc::AllocError;
use trail_core::Trail;
use watch_lists::{Standing, Watches, standing_of};

/// Takes in the clause `id`, where all before it are taken in, and answers whether it is not false at level 0. A clause
/// that is true there is left as it is, of one with but one literal without a value that literal is implied, and any
/// other is attached. It propagates nothing.
pub fn admit(
    store: &Store,
    watches: &mut Watches,
    trail: &mut Trail,
    id: usize,
) -> Result<bool, AllocError>
    requires ready { IsReadyAt store.now watches.old trail.old id }
    requires there { id < length store.now.clauses }
    ensures ok { IfOk result (λ b. MatchBool b (IsReadyAt store.now watches.new trail.new (id + 1)) (IsReadyAt store.now watches.new trail.new id × IsConflict store.now.clauses trail.new.entries id)) }
    ensures err { OnErr result (IsReadyAt store.now watches.new trail.new id) }
    ensures err_trail { OnErr result (trail.new ≡ trail.old) }
{
    let clause = store.clause(id);
    match standing_of(trail, clause) {
        Standing::True => {}
        Standing::False => return Ok(false),
        Standing::Unit(lit) => trail.imply(lit, id),
        Standing::Open(first, second) => watches.watch(id, first, second)?,
    }
    Ok(true)
}

/// Takes in all clauses of a store, none of which is taken in yet, and answers whether none was found false at level 0.
/// Where one was, the empty clause follows.
pub fn admit_all(
    store: &Store,
    watches: &mut Watches,
    trail: &mut Trail,
) -> Result<bool, AllocError>
    requires { IsReadyAt store.now watches.old trail.old 0 }
    ensures { IfOk result (λ b. MatchBool b (IsSound store.now watches.new trail.new × (trail.new.level ≡ 0)) (Follows store.now.clauses [])) }
{
    watches.reserve(store.len())?;
    for id in 0..store.len() {
        if !admit(store, watches, trail, id)? {
            return Ok(false);
        }
    }
    Ok(true)
}

/// Adds a clause at level 0, takes it in, and answers whether it is not false there. Where it is, the empty clause follows.
/// Where memory is refused, the clauses stay as they were.
pub fn include(
    store: &mut Store,
    watches: &mut Watches,
    trail: &mut Trail,
    lits: &[Lit],
) -> Result<bool, AllocError>
    requires sound { IsSound store.old watches.old trail.old }
    requires level { trail.old.level ≡ 0 }
    requires named { All (InVars store.old.vars) lits.now }
    ensures added { OnOk result (store.new ≡ with_clause store.old lits.now) }
    ensures level { OnOk result (trail.new.level ≡ 0) }
    ensures ok { IfOk result (λ b. MatchBool b (IsSound store.new watches.new trail.new) (Follows store.new.clauses [])) }
    ensures err { OnErr result (store.new ≡ store.old) }
    ensures err_sound { OnErr result (IsSound store.new watches.new trail.new) }
    ensures err_trail { OnErr result (trail.new ≡ trail.old) }
{
    let id = store.add(lits)?;
    match admit(store, watches, trail, id) {
        Ok(alive) => Ok(alive),
        Err(e) => {
            store.truncate(id);
            Err(e)
        }
    }
}
