//! Laws of what holds between the calls of propagation. Each function does nothing: its contract is the law.

ghost use Rattle.std.specs.Prelude.{◌≡◌, ℕ, ◌<◌, ◌++◌, ◌∷◌, List, [], length, Some, slice_get};
ghost use Rattle.std.specs.List.{Contains};
ghost use Rattle.clause_store.specs.declared.Lit.{Lit};
ghost use Rattle.clause_store.specs.Clauses.{InVars};
ghost use Rattle.clause_store.specs.Propagation.{Follows, IsClosed, HasNoConflict};
ghost use Rattle.trail_core.specs.Course.{Course, HasNoValue, decided, taken_back};
ghost use Rattle.watch_lists.specs.Watching.{Watch};
ghost use Rattle.watch_lists.specs.Propagated.{truths};
ghost use Rattle.conflict_cut.specs.Cut.{IsConflict};
ghost use Rattle.unit_closure.specs.Search.{IsSearch};

/// Where all is gone through, a literal may be decided. A jump back to a lower level leaves all gone through.
pub fn steps_keep_a_search()
    ensures decided { (clauses : List (List Lit)) (list : List Watch) (t : Course) (l : Lit) → IsSearch clauses list t
        → t.seen ≡ length t.entries → InVars t.vars l → HasNoValue t.entries l.var
        → IsSearch clauses list (decided t l) }
    ensures back { (clauses : List (List Lit)) (list : List Watch) (t : Course) (level : ℕ) → IsSearch clauses list t
        → level < t.level → IsSearch clauses list (taken_back t level) }
    ensures back_seen { (clauses : List (List Lit)) (list : List Watch) (t : Course) (level : ℕ) → IsSearch clauses list t
        → level < t.level → (taken_back t level).seen ≡ length (taken_back t level).entries }
{}

/// A clause that has all literals of one that is there may be put behind the others without being attached.
pub fn wider_clauses_need_no_watch()
    ensures { (clauses : List (List Lit)) (wider clause : List Lit) (list : List Watch) (t : Course) (id : ℕ)
        → IsSearch clauses list t → slice_get clauses id ≡ Some clause
        → ((l : Lit) → Contains clause l → Contains wider l) → IsSearch (clauses ++ wider ∷ []) list t }
{}

/// Where all is gone through, propagation adds nothing to the true literals, and no clause is false.
pub fn a_search_is_closed()
    ensures closed { (clauses : List (List Lit)) (list : List Watch) (t : Course) → IsSearch clauses list t
        → t.seen ≡ length t.entries → IsClosed clauses (truths t.entries) }
    ensures no_conflict { (clauses : List (List Lit)) (list : List Watch) (t : Course) → IsSearch clauses list t
        → t.seen ≡ length t.entries → HasNoConflict clauses (truths t.entries) }
{}

/// A clause that is false at level 0 shows that the empty clause follows.
pub fn a_false_clause_refutes()
    ensures { (clauses : List (List Lit)) (list : List Watch) (t : Course) (id : ℕ) → IsSearch clauses list t
        → t.level ≡ 0 → IsConflict clauses t.entries id → Follows clauses [] }
{}
