//! Deciding and propagating until something comes of it.

ghost use Rattle.std.specs.Prelude.{◌≡◌, length};
ghost use Rattle.std.specs.List.{All};
ghost use Rattle.clause_store.specs.Clauses.{InVars};
ghost use Rattle.cdcl_core.specs.Search.{IsSound};
ghost use Rattle.cdcl_core.specs.Steps.{HasSame, IsFooting, IsOutcome, IsAssumed};

use crate::choosing::choose;
use crate::parts::{Engine, decide, spread};
use crate::standing::{first_untrue, is_open};
use branch_rules::Brancher;
use clause_store::Lit;

/// Up to which level only assumptions are decided, and how many assumptions from the front are known to be true.
#[derive(Clone, Copy)]
pub struct Footing {
    pub level: u32,
    pub met: usize,
}

/// What comes of deciding: a clause that is false, an assumption that is false, values for all variables, or nothing yet.
pub enum Next {
    Conflict(usize),
    Denied(Lit),
    Full,
    On,
}

// What became of the assumptions: all are true, one is false, or one was decided.
enum Assumed {
    Met,
    Wrong(Lit),
    More,
}

// Decides the first assumption that isn't true, if it has no value.
fn assume(engine: &mut Engine, assumptions: &[Lit], footing: &mut Footing) -> Assumed
    requires sound { IsSound engine.old }
    requires seen { engine.old.trail.seen ≡ length engine.old.trail.entries }
    requires named { All (InVars engine.old.store.vars) assumptions.now }
    requires footing { IsFooting assumptions.now engine.old.trail footing.old }
    ensures sound { IsSound engine.new }
    ensures same { HasSame engine.old engine.new }
    ensures footing { IsFooting assumptions.now engine.new.trail footing.new }
    ensures came { IsAssumed engine.old.trail engine.new.trail assumptions.now footing.new result }
{
    if footing.level < engine.trail.level() {
        return Assumed::Met;
    }
    let place = first_untrue(&engine.trail, assumptions, footing.met);
    footing.met = place;
    if place == assumptions.len() {
        return Assumed::Met;
    }
    let lit = assumptions[place];
    if !is_open(&engine.trail, lit) {
        return Assumed::Wrong(lit);
    }
    decide(engine, lit);
    footing.level = engine.trail.level();
    Assumed::More
}

// One round: propagates, and decides a literal.
fn round(
    engine: &mut Engine,
    assumptions: &[Lit],
    footing: &mut Footing,
    brancher: &mut Option<Box<dyn Brancher>>,
) -> Next
    requires sound { IsSound engine.old }
    requires named { All (InVars engine.old.store.vars) assumptions.now }
    requires footing { IsFooting assumptions.now engine.old.trail footing.old }
    ensures sound { IsSound engine.new }
    ensures same { HasSame engine.old engine.new }
    ensures footing { IsFooting assumptions.now engine.new.trail footing.new }
    ensures outcome { IsOutcome engine.old.trail engine.new assumptions.now footing.new result }
{
    if let Some(id) = spread(engine) {
        return Next::Conflict(id);
    }
    let vars = engine.store.vars();
    match assume(engine, assumptions, footing) {
        Assumed::Wrong(lit) => Next::Denied(lit),
        Assumed::More => Next::On,
        Assumed::Met => match choose(&engine.trail, vars, brancher) {
            None => Next::Full,
            Some(lit) => {
                decide(engine, lit);
                Next::On
            }
        },
    }
}

/// Goes on until a clause is false, an assumption is false, or all variables have values.
pub fn descend(
    engine: &mut Engine,
    assumptions: &[Lit],
    footing: &mut Footing,
    brancher: &mut Option<Box<dyn Brancher>>,
) -> Next
    requires sound { IsSound engine.old }
    requires named { All (InVars engine.old.store.vars) assumptions.now }
    requires footing { IsFooting assumptions.now engine.old.trail footing.old }
    ensures sound { IsSound engine.new }
    ensures same { HasSame engine.old engine.new }
    ensures footing { IsFooting assumptions.now engine.new.trail footing.new }
    ensures ended { IsOutcome engine.new.trail engine.new assumptions.now footing.new result }
{
    'deeper: loop {
        match round(engine, assumptions, footing, brancher) {
            Next::Conflict(id) => return Next::Conflict(id),
            Next::Denied(lit) => return Next::Denied(lit),
            Next::Full => return Next::Full,
            Next::On => {}
        }
    }
}
