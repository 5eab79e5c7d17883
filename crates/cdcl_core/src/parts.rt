//! The parts of a search, and those of its steps that learn nothing.

ghost use Rattle.std.specs.Prelude.{◌≡◌, [], ◌<◌, ◌≤◌, length, IfOk, IfSome, IfNone};
ghost use Rattle.clause_store.specs.Clauses.{InVars};
ghost use Rattle.trail_core.specs.Course.{HasNoValue, decided};
ghost use Rattle.conflict_cut.specs.Cut.{IsConflict};
ghost use Rattle.cdcl_core.specs.Search.{IsSearch, AreOver, IsSound};
ghost use Rattle.cdcl_core.specs.Steps.{HasSame, Spreads};

use clause_store::{Lit, Store};
use conflict_cut::Scratch;
use fer_list::Seq;
use std::alloc::{AllocError, Global};
use trail_core::Trail;
use watch_lists::Watches;

/// All clauses in the order of their arrival, which of them were learned, and where a search among them stands.
#[derive(Drop)]
pub struct Engine {
    pub store: Store,
    /// The numbers of the learned clauses, in the order of learning.
    pub learned: Seq<usize>,
    pub watches: Watches,
    pub trail: Trail,
    pub scratch: Scratch,
}

/// The parts of a search that takes over a store. No clause of it is attached yet.
pub fn assemble(alloc: Global, store: Store) -> Result<Engine, AllocError>
    ensures store { IfOk result (λ e. e.store ≡ store) }
    ensures learned { IfOk result (λ e. e.learned ≡ []) }
    ensures over { IfOk result (λ e. AreOver e.store.vars e.watches.vars e.trail.vars e.scratch.vars) }
    ensures search { IfOk result (λ e. IsSearch [] e.watches.list e.trail) }
    ensures level { IfOk result (λ e. e.trail.level ≡ 0) }
{
    let watches = Watches::new(alloc, store.vars())?;
    let trail = Trail::new(alloc, store.vars())?;
    let scratch = Scratch::new(alloc, store.vars())?;
    let engine = Engine {
        store,
        learned: Seq::new(alloc),
        watches,
        trail,
        scratch,
    };
    Ok(engine)
}

/// Propagates, and answers the number of a clause that is false, if there is one.
pub fn spread(engine: &mut Engine) -> Option<usize>
    requires { IsSound engine.old }
    ensures sound { IsSound engine.new }
    ensures same { HasSame engine.old engine.new }
    ensures spreads { Spreads engine.old.trail engine.new.trail }
    ensures conflict { IfSome result (λ id. IsConflict engine.new.store.clauses engine.new.trail.entries id) }
    ensures seen { IfNone result (engine.new.trail.seen ≡ length engine.new.trail.entries) }
{
    let found = engine.watches.propagate(&engine.store, &mut engine.trail);
    let _values = engine.trail.values();
    found
}

/// Decides a literal at a level of its own.
pub fn decide(engine: &mut Engine, lit: Lit)
    requires sound { IsSound engine.old }
    requires seen { engine.old.trail.seen ≡ length engine.old.trail.entries }
    requires there { InVars engine.old.store.vars lit }
    requires free { HasNoValue engine.old.trail.entries lit.var }
    ensures sound { IsSound engine.new }
    ensures same { HasSame engine.old engine.new }
    ensures trail { engine.new.trail ≡ decided engine.old.trail lit }
    ensures longer { length engine.old.trail.entries < length engine.new.trail.entries }
    ensures within { length engine.new.trail.entries ≤ engine.new.trail.vars }
{
    engine.trail.decide(lit);
    let _lits = engine.trail.lits();
}

/// Goes back to level 0.
pub fn restart(engine: &mut Engine)
    requires { IsSound engine.old }
    ensures sound { IsSound engine.new }
    ensures same { HasSame engine.old engine.new }
    ensures level { engine.new.trail.level ≡ 0 }
{
    if engine.trail.level() > 0 {
        engine.trail.back_to(0);
    }
}
