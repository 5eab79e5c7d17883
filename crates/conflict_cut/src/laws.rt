//! Laws of reasons and of what a cut leaves. Each function does nothing: its contract is the law.

ghost use Rattle.std.specs.Prelude.{◌≡◌, ℕ, ◌-◌, ◌<◌, ◌++◌, Bool, true, false, List, [], ◌∷◌, Some, None};
ghost use Rattle.std.specs.List.{Contains};
ghost use Rattle.clause_store.specs.declared.Lit.{Lit};
ghost use Rattle.clause_store.specs.Propagation.{IsImplied, Conflicts, Follows, IsNew, IsClosed, HasNoConflict};
ghost use Rattle.trail_core.specs.Course.{Entry, Course, IsCourse, HasNoValue, Holds, up_to};
ghost use Rattle.conflict_cut.specs.Cut.{IsConflict, IsReason, AreReasons, IsAsserting, HasPresent};
ghost use Rattle.trail_core.specs.Standing.{IsUnit};

use clause_store::laws::what_makes_a_clause_new;

/// Reasons stay right where a trail grows by a decided literal, or by an implied one whose reason is right.
pub fn a_longer_trail_keeps_its_reasons()
    ensures none { (clauses : List (List Lit)) → AreReasons clauses [] }
    ensures decided { (clauses : List (List Lit)) (entries : List Entry) (e : Entry) → AreReasons clauses entries
        → e.reason ≡ None → AreReasons clauses (entries ++ e ∷ []) }
    ensures implied { (clauses : List (List Lit)) (entries : List Entry) (e : Entry) (id : ℕ) → AreReasons clauses entries
        → e.reason ≡ Some id → IsReason clauses entries e.lit id → AreReasons clauses (entries ++ e ∷ []) }
{}

/// Reasons stay right where what is above a level is taken back, and where a clause is added.
pub fn a_back_jump_keeps_its_reasons()
    ensures back { (clauses : List (List Lit)) (t : Course) (level : ℕ) → IsCourse t → AreReasons clauses t.entries
        → AreReasons clauses (up_to level t.entries) }
    ensures more { (clauses : List (List Lit)) (clause : List Lit) (entries : List Entry) → AreReasons clauses entries
        → AreReasons (clauses ++ clause ∷ []) entries }
{}

/// After the jump back to the level that a cut answers, all literals of its clause but one are false, and that one has
/// no value.
pub fn a_cut_is_unit_after_the_jump()
    ensures { (t : Course) (clause : List Lit) (level : ℕ) → IsCourse t → level < t.level → IsAsserting t clause level
        → IsUnit (up_to level t.entries) clause }
{}

/// A clause that is unit, where the literals that are true are closed under propagation and no clause is false, is new.
pub fn a_unit_clause_is_new()
    ensures { (clauses : List (List Lit)) (entries : List Entry) (clause : List Lit) (set : Lit → Bool)
        → ((l : Lit) → Holds entries l → set l ≡ true) → ((l : Lit) → HasNoValue entries l.var → set l ≡ false)
        → IsClosed clauses set → HasNoConflict clauses set → IsUnit entries clause → IsNew clauses clause }
{
    what_makes_a_clause_new();
}

/// Where the decided literals of a trail are implied, all its literals are, and a clause that is false on it is a
/// conflict. So a clause that is false at level 0 refutes the clauses.
pub fn decisions_imply_the_trail()
    ensures implied { (clauses : List (List Lit)) (entries : List Entry) (start : List Lit) → AreReasons clauses entries
        → ((e : Entry) → Contains entries e → e.reason ≡ None → IsImplied clauses start e.lit) → (e : Entry)
        → Contains entries e → IsImplied clauses start e.lit }
    ensures conflicts { (clauses : List (List Lit)) (entries : List Entry) (start : List Lit) → AreReasons clauses entries
        → ((e : Entry) → Contains entries e → e.reason ≡ None → IsImplied clauses start e.lit) → (id : ℕ)
        → IsConflict clauses entries id → Conflicts clauses start }
    ensures refuted { (clauses : List (List Lit)) (t : Course) (id : ℕ) → IsCourse t → t.level ≡ 0
        → AreReasons clauses t.entries → IsConflict clauses t.entries id → Follows clauses [] }
{}

/// A clause that is false, and wasn't below the present level, has a literal of the present level.
pub fn a_new_conflict_has_a_present_literal()
    ensures { (clauses : List (List Lit)) (t : Course) (id : ℕ) → IsCourse t → IsConflict clauses t.entries id
        → (IsConflict clauses (up_to (t.level - 1) t.entries) id → ⊥) → HasPresent clauses t id }
{}
