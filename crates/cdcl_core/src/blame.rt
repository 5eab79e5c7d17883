//! Which decisions are to blame for a clause that is false: the reasons are followed back from it along the trail.

ghost use Rattle.std.specs.Prelude.{◌≡◌, ◌≤◌, ◌<◌, ◌+◌, [], length, slice_get, IfOk, OnOk, Some};
ghost use Rattle.std.specs.List.{All, Contains};
ghost use Rattle.clause_store.specs.declared.Lit.{Lit};
ghost use Rattle.clause_store.specs.Clauses.{InVars};
ghost use Rattle.trail_core.specs.Course.{Entry, IsCourse};
ghost use Rattle.conflict_cut.specs.Cut.{AreReasons};
ghost use Rattle.conflict_cut.specs.Draft.{StayMarked};
ghost use Rattle.cdcl_core.specs.Blame.{AreMarked, IsBehind, AreDecided, Explains};

use clause_store::{Lit, Lits, Store};
use fer_list::Seq;
use std::alloc::{AllocError, Global};
use trail_core::Trail;

// Marks the variables of the clause. Variable v has its mark at place v - 1.
fn mark_all(marks: &mut [bool], clause: &[Lit])
    requires { All (InVars (length marks.old)) clause.now }
    ensures len { length marks.new ≡ length marks.old }
    ensures marked { AreMarked marks.new clause.now }
    ensures stay { StayMarked marks.old marks.new }
{
    for lit in clause {
        marks[lit.var as usize - 1] = true;
    }
}

// One step back along the trail: where its literal is marked, a decision is taken up, and of an implied literal the reason
// is marked.
fn step_back(
    store: &Store,
    trail: &Trail,
    marks: &mut [bool],
    part: &mut Lits,
    at: usize,
) -> Result<(), AllocError>
    requires over { trail.now.vars ≡ store.now.vars }
    requires course { IsCourse trail.now }
    requires reasons { AreReasons store.now.clauses trail.now.entries }
    requires len { length marks.old ≡ store.now.vars }
    requires there { at < length trail.now.entries }
    requires decided { AreDecided trail.now.entries part.old }
    ensures len { length marks.new ≡ length marks.old }
    ensures decided { OnOk result (AreDecided trail.now.entries part.new) }
    ensures stay { StayMarked marks.old marks.new }
    ensures explains { OnOk result (Explains store.now.clauses trail.now.entries at marks.old marks.new part.old part.new) }
{
    let lit = trail.lits()[at];
    if !marks[lit.var as usize - 1] {
        return Ok(());
    }
    match trail.reason_of(lit.var) {
        None => part.push(lit)?,
        Some(id) => mark_all(marks, store.clause(id)),
    }
    Ok(())
}

// Goes back along the trail to its beginning, and takes up the decisions behind the clause `id`.
fn go_back(
    store: &Store,
    trail: &Trail,
    marks: &mut [bool],
    part: &mut Lits,
    id: usize,
) -> Result<(), AllocError>
    requires over { trail.now.vars ≡ store.now.vars }
    requires course { IsCourse trail.now }
    requires reasons { AreReasons store.now.clauses trail.now.entries }
    requires len { length marks.old ≡ store.now.vars }
    requires there { id < length store.now.clauses }
    requires empty { part.old ≡ [] }
    ensures decided { OnOk result (AreDecided trail.now.entries part.new) }
    ensures behind { OnOk result (IsBehind store.now.clauses trail.now.entries id part.new) }
{
    mark_all(marks, store.clause(id));
    let mut at = trail.lits().len();
    'back: while at > 0 {
        at -= 1;
        step_back(store, trail, marks, part, at)?;
    }
    Ok(())
}

/// The decided literals that make the clause `id` false as far as it is false: from them propagation implies the negations
/// of its false literals.
pub fn decisions_behind(
    alloc: Global,
    store: &Store,
    trail: &Trail,
    id: usize,
) -> Result<Lits, AllocError>
    requires over { trail.now.vars ≡ store.now.vars }
    requires course { IsCourse trail.now }
    requires reasons { AreReasons store.now.clauses trail.now.entries }
    requires there { id < length store.now.clauses }
    ensures decided { IfOk result (λ part. AreDecided trail.now.entries part) }
    ensures behind { IfOk result (λ part. IsBehind store.now.clauses trail.now.entries id part) }
{
    let vars = store.vars() as usize;
    let mut marks = vec![in alloc; false; vars]?;
    let mut part = Seq::new(alloc);
    go_back(store, trail, marks.as_mut_slice(), &mut part, id)?;
    Ok(part)
}
