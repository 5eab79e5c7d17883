//! How literals stand on a trail.

ghost use Rattle.std.specs.Prelude.{MatchBool};
ghost use Rattle.clause_store.specs.declared.Lit.{Lit};
ghost use Rattle.clause_store.specs.Clauses.{InVars};
ghost use Rattle.trail_core.specs.Course.{HasNoValue, Holds};

use clause_store::Lit;
use trail_core::Trail;

/// Whether the literal's variable has no value.
pub fn is_open(trail: &Trail, lit: Lit) -> bool
    requires { InVars trail.now.vars lit }
    ensures { MatchBool result (HasNoValue trail.now.entries lit.var) (HasNoValue trail.now.entries lit.var → ⊥) }
{
    let value = trail.values()[lit.var as usize - 1];
    match value {
        None => true,
        Some(_) => false,
    }
}

/// Whether the literal is true.
pub fn holds(trail: &Trail, lit: Lit) -> bool
    requires { InVars trail.now.vars lit }
    ensures { MatchBool result (Holds trail.now.entries lit) (Holds trail.now.entries lit → ⊥) }
{
    let value = trail.values()[lit.var as usize - 1];
    match value {
        None => false,
        Some(b) => b == lit.positive,
    }
}
