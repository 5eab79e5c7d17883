//! How literals and clauses stand on a trail.

ghost use Rattle.std.specs.Prelude.{◌≡◌, ℕ, ◌<◌, ◌≤◌, length, slice_get, MatchBool, IfSome, IfNone, Some};
ghost use Rattle.std.specs.List.{All, Contains};
ghost use Rattle.clause_store.specs.declared.Lit.{Lit};
ghost use Rattle.clause_store.specs.Clauses.{InVars};
ghost use Rattle.trail_core.specs.Course.{HasNoValue, Holds};

use clause_store::Lit;
use trail_core::Trail;

/// Whether the literal's variable has no value.
pub fn is_open(trail: &Trail, lit: Lit) -> bool
    requires { InVars trail.now.vars lit }
    ensures { MatchBool result (HasNoValue trail.now.entries lit.var) (HasNoValue trail.now.entries lit.var → ⊥) }
{
    let value = trail.values()[lit.var as usize - 1];
    match value {
        None => true,
        Some(_) => false,
    }
}

/// Whether the literal is true.
pub fn holds(trail: &Trail, lit: Lit) -> bool
    requires { InVars trail.now.vars lit }
    ensures { MatchBool result (Holds trail.now.entries lit) (Holds trail.now.entries lit → ⊥) }
{
    let value = trail.values()[lit.var as usize - 1];
    match value {
        None => false,
        Some(b) => b == lit.positive,
    }
}

/// A literal of the clause without a value, if it has one.
pub fn some_open(trail: &Trail, clause: &[Lit]) -> Option<Lit>
    requires { All (InVars trail.now.vars) clause.now }
    ensures some { IfSome result (λ l. Contains clause.now l × HasNoValue trail.now.entries l.var) }
    ensures none { IfNone result ((l : Lit) → Contains clause.now l → HasNoValue trail.now.entries l.var → ⊥) }
{
    for lit in clause {
        if is_open(trail, *lit) {
            return Some(*lit);
        }
    }
    None
}

/// The place of the first literal of the list that isn't true, from a place on, and the list's length where there is none.
pub fn first_untrue(trail: &Trail, lits: &[Lit], from: usize) -> usize
    requires named { All (InVars trail.now.vars) lits.now }
    requires within { from ≤ length lits.now }
    ensures within { result ≤ length lits.now }
    ensures passed { (k : ℕ) (l : Lit) → from ≤ k → k < result → slice_get lits.now k ≡ Some l → Holds trail.now.entries l }
    ensures stopped { (l : Lit) → slice_get lits.now result ≡ Some l → Holds trail.now.entries l → ⊥ }
{
    let mut place = from;
    'next: while place < lits.len() {
        if !holds(trail, lits[place]) {
            return place;
        }
        place += 1;
    }
    place
}
