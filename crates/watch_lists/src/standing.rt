//! How a clause stands on a trail.

ghost use Rattle.std.specs.Prelude.{◌∷◌, ◌++◌, [], List};
ghost use Rattle.std.specs.List.{All};
ghost use Rattle.clause_store.specs.declared.Lit.{Lit};
ghost use Rattle.clause_store.specs.Clauses.{InVars};
ghost use Rattle.trail_core.specs.Course.{Entry, HasNoValue};
ghost use Rattle.watch_lists.specs.Standing.{IsStanding};

use crate::truth;
use clause_store::Lit;
use trail_core::Trail;

/// How a clause stands on a trail, on which all clauses are looked at where they are taken in.
#[derive(Clone, Copy, Debug, PartialEq, Eq)]
pub enum Standing {
    /// One of its literals is true.
    True,
    /// All its literals are false.
    False,
    /// All its literals are false but this one, which has no value.
    Unit(Lit),
    /// These two of its literals differ and have no value.
    Open(Lit, Lit),
}

// How a clause stands with one literal more that has no value.
fn with_open(found: Standing, lit: Lit) -> Standing
    ensures { (entries : List Entry) (lits : List Lit) → HasNoValue entries lit.var → IsStanding entries lits found → IsStanding entries (lits ++ lit ∷ []) result }
{
    match found {
        Standing::True => Standing::True,
        Standing::False => Standing::Unit(lit),
        Standing::Unit(first) => {
            if first == lit {
                Standing::Unit(first)
            } else {
                Standing::Open(first, lit)
            }
        }
        Standing::Open(first, second) => Standing::Open(first, second),
    }
}

// How a clause stands with one literal more.
fn with_lit(trail: &Trail, found: Standing, lit: Lit) -> Standing
    requires { InVars trail.now.vars lit }
    ensures { (lits : List Lit) → IsStanding trail.now.entries lits found → IsStanding trail.now.entries (lits ++ lit ∷ []) result }
{
    match truth(trail, lit) {
        Some(true) => Standing::True,
        Some(false) => found,
        None => with_open(found, lit),
    }
}

/// How the clause stands on the trail, by one look at each of its literals up to one that is true.
pub fn standing_of(trail: &Trail, clause: &[Lit]) -> Standing
    requires { All (InVars trail.now.vars) clause.now }
    ensures { IsStanding trail.now.entries clause.now result }
{
    let mut found = Standing::False;
    for lit in clause {
        found = with_lit(trail, found, *lit);
        if let Standing::True = found {
            return Standing::True;
        }
    }
    found
}
