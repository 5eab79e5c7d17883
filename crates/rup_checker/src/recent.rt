//! Which clauses came lately, so that one that comes again is found without a trial.

ghost use Rattle.std.specs.Prelude.{◌≡◌, length, MatchBool};
ghost use Rattle.rup_checker.specs.Trying.{IsPart, HasPart};

use clause_store::{Lit, Store};

// The first of the two places for clauses with these literals, in whatever order they stand.
fn place_of(lits: &[Lit], places: usize) -> usize {
    let mut sum = 0usize;
    for lit in lits {
        let code = (lit.var as usize)
            .wrapping_mul(2)
            .wrapping_add(lit.positive as usize);
        sum = sum.wrapping_add(code.wrapping_mul(11400714819323198485) >> 24);
    }
    let pairs = places / 2;
    if pairs == 0 { 0 } else { sum % pairs * 2 }
}

// Whether each literal of the one clause is in the other.
fn is_part(part: &[Lit], whole: &[Lit]) -> bool
    ensures { MatchBool result (IsPart part.now whole.now) (Unit {0}) }
{
    for lit in part {
        if !whole.contains(lit) {
            return false;
        }
    }
    true
}

/// Notes that the clause of this number has these literals, and forgets the last but one that was noted at the same place.
pub fn note(recent: &mut [usize], lits: &[Lit], id: usize)
    ensures { length recent.new ≡ length recent.old }
{
    let place = place_of(lits, recent.len());
    if place < recent.len().saturating_sub(1) {
        recent[place + 1] = recent[place];
        recent[place] = id;
    }
}

/// Whether the clause of this number is in the store and has no literals but these.
pub fn is_here(store: &Store, id: usize, lits: &[Lit]) -> bool
    ensures { MatchBool result (HasPart store.now.clauses lits.now) (Unit {0}) }
{
    if id >= store.len() {
        return false;
    }
    is_part(store.clause(id), lits)
}

/// Whether a clause that is noted for these literals is in the store and has no others. Where none is, another one may.
pub fn is_noted(recent: &[usize], store: &Store, lits: &[Lit]) -> bool
    ensures { MatchBool result (HasPart store.now.clauses lits.now) (Unit {0}) }
{
    let place = place_of(lits, recent.len());
    if place >= recent.len().saturating_sub(1) {
        return false;
    }
    if is_here(store, recent[place], lits) {
        return true;
    }
    is_here(store, recent[place + 1], lits)
}
