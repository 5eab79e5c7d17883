//! Whether a clause follows, by going through all clauses again and again. It judges any clause, also one that has a
//! literal beside its negation, and takes time by the number of all clauses: the checker asks it about such clauses alone.

ghost use Rattle.std.specs.Prelude.{◌≡◌, ℕ, ◌+◌, ◌*◌, ◌<◌, ◌⊎◌, List, length, true, false, IfOk, MatchBool, vec_len};
ghost use Rattle.std.specs.List.{All, Contains};
ghost use Rattle.clause_store.specs.declared.Lit.{Lit};
ghost use Rattle.clause_store.specs.Clauses.{InVars, negated};
ghost use Rattle.clause_store.specs.Propagation.{Follows};
ghost use Rattle.rup_checker.specs.Marks.{code, has, HaveRoom, IsReading, IsRound, AllImplied, lacking};

use clause_store::{Lit, Store};
use std::alloc::{AllocError, Global};

// The place of a literal's mark.
fn code_of(l: Lit) -> usize
    ensures { result ≡ code l }
{
    2 * l.var as usize + if l.positive { 1 } else { 0 }
}

// Whether the set has the literal.
fn is_marked(set: &[bool], l: Lit) -> bool
    requires { code l < length set.now }
    ensures { result ≡ has set.now l }
{
    set[code_of(l)]
}

// What a clause says where the literals of a set are true: all its literals are false, it forces one, or neither.
enum Reading {
    Conflict,
    Forced(Lit),
    Nothing,
}

// What the clause says where the literals of the set are true.
fn look(clause: &[Lit], set: &[bool]) -> Reading
    requires { HaveRoom clause.now (length set.now) }
    ensures { IsReading clause.now (has set.now) result }
{
    let mut open: Option<Lit> = None;
    for l in clause {
        if !is_marked(set, l.negated()) {
            match open {
                None => open = Some(*l),
                Some(o) => {
                    if o != *l {
                        return Reading::Nothing;
                    }
                }
            }
        }
    }
    match open {
        None => Reading::Conflict,
        Some(l) => {
            if is_marked(set, l) {
                Reading::Nothing
            } else {
                Reading::Forced(l)
            }
        }
    }
}

// What a round over all clauses came to.
enum Round {
    Conflict,
    Changed,
    Still,
}

// Marks the literal.
fn mark(set: &mut [bool], l: Lit)
    requires room { code l < length set.old }
    requires unset { has set.old l ≡ false }
    ensures marked { (m : Lit) → has set.new m ≡ true → (has set.old m ≡ true) ⊎ (m ≡ l) }
    ensures kept { (m : Lit) → has set.old m ≡ true → has set.new m ≡ true }
    ensures fewer { lacking set.new + 1 ≡ lacking set.old }
{
    set[code_of(l)] = true;
}

// Goes through the clauses once.
fn go_through(store: &Store, set: &mut [bool]) -> Round
    requires { 2 * store.now.vars + 1 < length set.old }
    ensures sound { (start : List Lit) → AllImplied store.now.clauses start (has set.old) → AllImplied store.now.clauses start (has set.new) }
    ensures kept { (m : Lit) → has set.old m ≡ true → has set.new m ≡ true }
    ensures is { IsRound store.now.clauses set.old set.new result }
{
    let mut changed = false;
    for id in 0..store.len() {
        match look(store.clause(id), set) {
            Reading::Conflict => return Round::Conflict,
            Reading::Forced(l) => {
                mark(set, l);
                changed = true;
            }
            Reading::Nothing => {}
        }
    }
    if changed {
        Round::Changed
    } else {
        Round::Still
    }
}

// The set of the negations of the clause's literals.
fn denials(alloc: Global, vars: u32, clause: &[Lit]) -> Result<Vec<bool>, AllocError>
    requires { All (InVars vars) clause.now }
    ensures len { IfOk result (λ v. vec_len v ≡ 2 * vars + 2) }
    ensures only { IfOk result (λ v. (l : Lit) → has v.items l ≡ true → Contains clause.now (negated l)) }
    ensures each { IfOk result (λ v. (l : Lit) → Contains clause.now (negated l) → has v.items l ≡ true) }
{
    let mut set = vec![in alloc; false; 2 * vars as usize + 2]?;
    for l in clause {
        set[code_of(l.negated())] = true;
    }
    Ok(set)
}

/// Whether the clause follows, whose variables have to be there.
pub fn follows_by_rounds(alloc: Global, store: &Store, clause: &[Lit]) -> Result<bool, AllocError>
    requires { All (InVars store.now.vars) clause.now }
    ensures { IfOk result (λ yes. MatchBool yes (Follows store.now.clauses clause.now) (Follows store.now.clauses clause.now → ⊥)) }
{
    let mut set = denials(alloc, store.vars(), clause)?;
    loop {
        match go_through(store, &mut set) {
            Round::Conflict => return Ok(true),
            Round::Still => return Ok(false),
            Round::Changed => {}
        }
    }
}
