//! How clauses are taken in at level 0: attached, made use of at once, or found false.

ghost use Rattle.std.specs.Prelude.{◌≡◌, ◌+◌, ◌<◌, ◌++◌, ◌∷◌, [], length, take, slice_get, IfOk, OnOk, OnErr, MatchBool, List, Some};
ghost use Rattle.std.specs.List.{All, Contains};
ghost use Rattle.clause_store.specs.declared.Lit.{Lit};
ghost use Rattle.clause_store.specs.Clauses.{InVars};
ghost use Rattle.clause_store.specs.Propagation.{Follows};
ghost use Rattle.conflict_cut.specs.Cut.{IsConflict};
ghost use Rattle.cdcl_core.specs.Search.{IsSound, with_clause, IsReadyAt};

use crate::parts::Engine;
use clause_store::Lit;
use std::alloc::AllocError;
use watch_lists::{Standing, standing_of};

// Takes in the clause `id`, where all before it are taken in, and answers whether it is not false at level 0.
fn admit(engine: &mut Engine, id: usize) -> Result<bool, AllocError>
    requires ready { IsReadyAt engine.old id }
    requires there { id < length engine.old.store.clauses }
    ensures store { engine.new.store ≡ engine.old.store }
    ensures learned { engine.new.learned ≡ engine.old.learned }
    ensures ok { IfOk result (λ b. MatchBool b (IsReadyAt engine.new (id + 1)) (IsReadyAt engine.new id × IsConflict engine.new.store.clauses engine.new.trail.entries id)) }
    ensures err { OnErr result (IsReadyAt engine.new id) }
{
    let clause = engine.store.clause(id);
    match standing_of(&engine.trail, clause) {
        Standing::True => {}
        Standing::False => return Ok(false),
        Standing::Unit(lit) => engine.trail.imply(lit, id),
        Standing::Open(first, second) => engine.watches.watch(id, first, second)?,
    }
    Ok(true)
}

/// Takes in all clauses of a store that was taken over, and answers whether none was found false at level 0.
pub fn admit_all(engine: &mut Engine) -> Result<bool, AllocError>
    requires { IsReadyAt engine.old 0 }
    ensures store { engine.new.store ≡ engine.old.store }
    ensures learned { engine.new.learned ≡ engine.old.learned }
    ensures ok { IfOk result (λ b. MatchBool b (IsReadyAt engine.new (length engine.new.store.clauses)) (Follows engine.new.store.clauses [])) }
{
    engine.watches.reserve(engine.store.len())?;
    for id in 0..engine.store.len() {
        if !admit(engine, id)? {
            return Ok(false);
        }
    }
    Ok(true)
}

/// Adds a clause at level 0, and answers whether it is not false there. Where memory is refused, the clauses stay as they
/// were.
pub fn include(engine: &mut Engine, lits: &[Lit]) -> Result<bool, AllocError>
    requires sound { IsSound engine.old }
    requires level { engine.old.trail.level ≡ 0 }
    requires named { All (InVars engine.old.store.vars) lits.now }
    ensures store { OnOk result (engine.new.store ≡ with_clause engine.old.store lits.now) }
    ensures learned { engine.new.learned ≡ engine.old.learned }
    ensures ok { IfOk result (λ b. MatchBool b (IsSound engine.new) (Follows engine.new.store.clauses [])) }
    ensures err { OnErr result (IsSound engine.new) }
    ensures err_store { OnErr result (engine.new.store ≡ engine.old.store) }
{
    let id = engine.store.add(lits)?;
    match admit(engine, id) {
        Ok(alive) => Ok(alive),
        Err(e) => {
            engine.store.truncate(id);
            Err(e)
        }
    }
}
