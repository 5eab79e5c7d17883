//! Whether a clause follows, by making its literals false one after the other, each at a level of its own, and propagating.

ghost use Rattle.std.specs.Prelude.{◌≡◌, length, IfSome, IfNone};
ghost use Rattle.std.specs.List.{All, Contains};
ghost use Rattle.clause_store.specs.declared.Lit.{Lit};
ghost use Rattle.clause_store.specs.Clauses.{InVars};
ghost use Rattle.trail_core.specs.Course.{Fails};
ghost use Rattle.unit_closure.specs.Search.{IsSound};
ghost use Rattle.rup_checker.specs.Trying.{IsReady, IsTrying, IsTrial};

use clause_store::{Lit, Store};
use trail_core::Trail;
use unit_closure::standing::{holds, is_open};
use unit_closure::steps::spread;
use watch_lists::Watches;

/// What a trial shows of a clause: it follows, as the clause of this number ended the trial; it doesn't; or it has a literal
/// beside its negation, so that the trial can't tell.
pub enum Trial {
    Follows(usize),
    Open,
    Doubtful,
}

// Makes a literal of the clause false, if it has no value, and propagates. It answers what ends the trial: a clause that
// is false, or that the literal is true.
fn deny(
    store: &Store,
    watches: &mut Watches,
    trail: &mut Trail,
    clause: &[Lit],
    lit: Lit,
) -> Option<Trial>
    requires trying { IsTrying store.now watches.old trail.old clause.now }
    requires has { Contains clause.now lit }
    requires there { InVars store.now.vars lit }
    ensures sound { IsSound store.now watches.new trail.new }
    ensures low { trail.new.level ≡ 0 → trail.new.seen ≡ length trail.new.entries }
    ensures ended { IfSome result (λ trial. IsTrial store.now.clauses clause.now trial) }
    ensures on { IfNone result (IsTrying store.now watches.new trail.new clause.now) }
    ensures fails { IfNone result (Fails trail.new.entries lit) }
    ensures kept { (m : Lit) → Fails trail.old.entries m → Fails trail.new.entries m }
{
    if is_open(trail, lit) {
        trail.decide(lit.negated());
        return match spread(store, watches, trail) {
            Some(id) => Some(Trial::Follows(id)),
            None => None,
        };
    }
    if !holds(trail, lit) {
        return None;
    }
    match trail.reason_of(lit.var) {
        Some(id) => Some(Trial::Follows(id)),
        None => Some(Trial::Doubtful),
    }
}

// Makes the literals of the clause false, as far as nothing ends the trial.
fn deny_all(store: &Store, watches: &mut Watches, trail: &mut Trail, clause: &[Lit]) -> Trial
    requires ready { IsReady store.now watches.old trail.old }
    requires named { All (InVars store.now.vars) clause.now }
    ensures sound { IsSound store.now watches.new trail.new }
    ensures low { trail.new.level ≡ 0 → trail.new.seen ≡ length trail.new.entries }
    ensures trial { IsTrial store.now.clauses clause.now result }
{
    for lit in clause {
        if let Some(trial) = deny(store, watches, trail, clause, *lit) {
            return trial;
        }
    }
    Trial::Open
}

/// Whether the clause follows, whose variables have to be there, as far as a trial can tell. It takes no memory, and ends
/// at level 0, where it begins.
pub fn try_out(store: &Store, watches: &mut Watches, trail: &mut Trail, clause: &[Lit]) -> Trial
    requires ready { IsReady store.now watches.old trail.old }
    requires named { All (InVars store.now.vars) clause.now }
    ensures ready { IsReady store.now watches.new trail.new }
    ensures trial { IsTrial store.now.clauses clause.now result }
{
    let trial = deny_all(store, watches, trail, clause);
    if trail.level() > 0 {
        trail.back_to(0);
    }
    trial
}
