//! The search itself: descents, lessons and restarts until there is an answer.

ghost use Rattle.std.specs.Prelude.{ℕ, ◌≡◌, ◌≤◌, ◌<◌, ◌⊎◌, ◌++◌, length, IfOk, List, Bool, true, false};
ghost use Rattle.std.specs.List.{All, Contains};
ghost use Rattle.clause_store.specs.declared.Lit.{Lit};
ghost use Rattle.clause_store.specs.Clauses.{InVars, negated};
ghost use Rattle.clause_store.specs.Truth.{is_true};
ghost use Rattle.trail_core.specs.Course.{Holds, Fails};
ghost use Rattle.conflict_cut.specs.Cut.{IsConflict};
ghost use Rattle.cdcl_core.specs.Answering.{IsVerdict, AreLessons};
ghost use Rattle.cdcl_core.specs.Search.{IsSound, given_in, learned_in, solving_of};
ghost use Rattle.cdcl_core.specs.Steps.{HasSame, IsFooting, HaveValues, AreMet, written};

use crate::Verdict;
use crate::blame::decisions_behind;
use crate::descent::{Footing, Next, descend};
use crate::lessons::study;
use crate::luby::Pace;
use crate::parts::{Engine, restart};
use branch_rules::Brancher;
use clause_store::{Lit, Lits};
use fer_list::Seq;
use std::alloc::{AllocError, Global};
use trail_core::Trail;

// Counts a conflict, and goes back to level 0 if it is time.
fn breathe(engine: &mut Engine, _assumptions: &[Lit], footing: &mut Footing, pace: &mut Pace)
    requires sound { IsSound engine.old }
    requires footing { IsFooting _assumptions.now engine.old.trail footing.old }
    ensures sound { IsSound engine.new }
    ensures same { HasSame engine.old engine.new }
    ensures footing { IsFooting _assumptions.now engine.new.trail footing.new }
{
    if pace.tick() {
        restart(engine);
        *footing = Footing { level: 0, met: 0 };
    }
}

// Tells the rule the variables of a learned clause and the end of a conflict.
fn tell(brancher: &mut Option<Box<dyn Brancher>>, lits: &[Lit]) {
    if let Some(rule) = brancher {
        for lit in lits {
            rule.note(lit.var);
        }
        rule.settle();
    }
}

fn write(value: Option<bool>) -> bool
    ensures { result ≡ written value }
{
    match value {
        None => false,
        Some(b) => b,
    }
}

// The values of the variables, which all have one.
fn values_of(alloc: Global, trail: &Trail) -> Result<Seq<bool>, AllocError>
    ensures count { IfOk result (λ values. length values ≡ trail.now.vars) }
    ensures each { IfOk result (λ values. (l : Lit) → Holds trail.now.entries l → is_true values l ≡ true) }
{
    let mut values = Seq::new(alloc);
    for value in trail.values() {
        values.push(write(*value))?;
    }
    Ok(values)
}

// The answer where all variables have values and no clause is false.
fn satisfied(alloc: Global, engine: &Engine, _assumptions: &[Lit]) -> Result<Verdict, AllocError>
    requires sound { IsSound engine.now }
    requires seen { engine.now.trail.seen ≡ length engine.now.trail.entries }
    requires set { HaveValues engine.now.trail }
    requires met { AreMet engine.now.trail.entries _assumptions.now engine.now.trail.level }
    ensures { IfOk result (λ v. (limit : ℕ) → IsVerdict (solving_of engine.now) _assumptions.now limit v) }
{
    let _vars = engine.store.vars();
    let values = values_of(alloc, &engine.trail)?;
    Ok(Verdict::Satisfied(values))
}

// The answer where a clause is false and nothing but assumptions is decided.
fn refuted(
    alloc: Global,
    engine: &Engine,
    _assumptions: &[Lit],
    _footing: &Footing,
    conflict: usize,
) -> Result<Verdict, AllocError>
    requires sound { IsSound engine.now }
    requires footing { IsFooting _assumptions.now engine.now.trail _footing.now }
    requires low { engine.now.trail.level ≤ _footing.now.level }
    requires false_clause { IsConflict engine.now.store.clauses engine.now.trail.entries conflict }
    ensures { IfOk result (λ v. (limit : ℕ) → IsVerdict (solving_of engine.now) _assumptions.now limit v) }
{
    let part = decisions_behind(alloc, &engine.store, &engine.trail, conflict)?;
    Ok(Verdict::Refuted(part))
}

// The answer where an assumption is false and nothing but assumptions is decided.
fn denied(
    alloc: Global,
    engine: &Engine,
    _assumptions: &[Lit],
    _footing: &Footing,
    lit: Lit,
) -> Result<Verdict, AllocError>
    requires sound { IsSound engine.now }
    requires footing { IsFooting _assumptions.now engine.now.trail _footing.now }
    requires low { engine.now.trail.level ≤ _footing.now.level }
    requires apart { (a : Lit) → Contains _assumptions.now a → Contains _assumptions.now (negated a) → ⊥ }
    requires assumed { Contains _assumptions.now lit }
    requires false_lit { Fails engine.now.trail.entries lit }
    ensures { IfOk result (λ v. (limit : ℕ) → IsVerdict (solving_of engine.now) _assumptions.now limit v) }
{
    match engine.trail.reason_of(lit.var) {
        None => unreachable!(),
        Some(id) => {
            let mut part = decisions_behind(alloc, &engine.store, &engine.trail, id)?;
            part.push(lit)?;
            Ok(Verdict::Refuted(part))
        }
    }
}

/// Tells the rule that a search over so many variables begins.
pub fn begin(
    alloc: Global,
    vars: u32,
    brancher: &mut Option<Box<dyn Brancher>>,
) -> Result<(), AllocError> {
    match brancher {
        None => Ok(()),
        Some(rule) => rule.start(alloc, vars),
    }
}

// Whether as many clauses are learned as is allowed. The greatest limit allows all that memory holds.
fn is_spent(learned: usize, limit: u64) -> bool
    ensures spent { result ≡ true → (limit ≤ learned) × (limit < 18446744073709551615) }
    ensures allowed { result ≡ false → (learned < limit) ⊎ (limit ≡ 18446744073709551615) }
{
    limit < u64::MAX && learned as u64 >= limit
}

// How many numbers there are. No list is longer than the greatest limit.
fn count(numbers: &[usize]) -> usize
    ensures count { result ≡ length numbers.now }
    ensures fits { length numbers.now ≤ 18446744073709551615 }
{
    numbers.len()
}

/// Searches from level 0 on.
pub fn find_answer(
    alloc: Global,
    engine: &mut Engine,
    assumptions: &[Lit],
    limit: u64,
    brancher: &mut Option<Box<dyn Brancher>>,
) -> Result<Verdict, AllocError>
    requires sound { IsSound engine.old }
    requires start { engine.old.trail.level ≡ 0 }
    requires named { All (InVars engine.old.store.vars) assumptions.now }
    requires apart { (a : Lit) → Contains assumptions.now a → Contains assumptions.now (negated a) → ⊥ }
    requires room { length (learned_in engine.old) ≤ limit }
    ensures sound { IsSound engine.new }
    ensures vars { engine.new.store.vars ≡ engine.old.store.vars }
    ensures given { given_in engine.new ≡ given_in engine.old }
    ensures learned { (more : List (List Lit)) × (learned_in engine.new ≡ learned_in engine.old ++ more) × AreLessons (given_in engine.old ++ learned_in engine.old) more }
    ensures within { length (learned_in engine.new) ≤ limit }
    ensures verdict { IfOk result (λ v. IsVerdict (solving_of engine.new) assumptions.now limit v) }
{
    let mut footing = Footing { level: 0, met: 0 };
    let mut pace = Pace::new();
    'search: loop {
        match descend(engine, assumptions, &mut footing, brancher) {
            Next::On => unreachable!(),
            Next::Denied(lit) => return denied(alloc, engine, assumptions, &footing, lit),
            Next::Full => return satisfied(alloc, engine, assumptions),
            Next::Conflict(id) => {
                if engine.trail.level() <= footing.level {
                    return refuted(alloc, engine, assumptions, &footing, id);
                }
                if is_spent(engine.learned.len(), limit) {
                    return Ok(Verdict::Spent);
                }
                study(engine, assumptions, &mut footing, id)?;
                let _count = count(engine.learned.as_slice());
                tell(brancher, engine.scratch.lits());
                breathe(engine, assumptions, &mut footing, &mut pace);
            }
        }
    }
}
