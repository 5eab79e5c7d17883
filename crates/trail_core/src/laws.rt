//! Laws of trails. Each function does nothing: its contract is the law.

ghost use Rattle.std.specs.Prelude.{◌≡◌, ◌↔◌, ◌⊎◌, ℕ, ◌<◌, ◌≤◌, List, length, take, Some, None, slice_get, ◌++◌, count_by, is_none};
ghost use Rattle.std.specs.List.{Contains};
ghost use Rattle.clause_store.specs.declared.Lit.{Lit};
ghost use Rattle.clause_store.specs.Clauses.{InVars};
ghost use Rattle.trail_core.specs.Course.{Entry, Course, IsCourse, Holds, Fails, HasNoValue, HaveOnce, decided, implied, up_to, taken_back};
ghost use Rattle.trail_core.specs.Standing.{AllFail, OthersFail, IsUnit};

/// Levels never fall along a trail, and none is above the present one. A decided literal is of a higher level than all
/// before it, and never of level 0. So the present level is the number of the decided literals.
pub fn levels_never_fall()
    ensures along { (t : Course) (i j : ℕ) (e f : Entry) → IsCourse t → i ≤ j → slice_get t.entries i ≡ Some e
        → slice_get t.entries j ≡ Some f → e.level ≤ f.level }
    ensures present { (t : Course) (e : Entry) → IsCourse t → Contains t.entries e → e.level ≤ t.level }
    ensures opened { (t : Course) (i j : ℕ) (e f : Entry) → IsCourse t → i < j → slice_get t.entries i ≡ Some e
        → slice_get t.entries j ≡ Some f → f.reason ≡ None → e.level < f.level }
    ensures above_zero { (t : Course) (e : Entry) → IsCourse t → Contains t.entries e → e.reason ≡ None → 1 ≤ e.level }
    ensures number { (t : Course) → IsCourse t → t.level ≡ count_by (λ (e : Entry). is_none e.reason) t.entries }
{}

/// A variable has at most one entry. So no literal is both true and false, neither is one whose variable has no value,
/// and each is one of the three.
pub fn each_variable_stands_once()
    ensures once { (entries : List Entry) (e f : Entry) → HaveOnce entries → Contains entries e → Contains entries f
        → e.lit.var ≡ f.lit.var → e ≡ f }
    ensures not_both { (entries : List Entry) (l : Lit) → HaveOnce entries → Holds entries l → Fails entries l → ⊥ }
    ensures neither { (entries : List Entry) (l : Lit) → HasNoValue entries l.var
        → (Holds entries l → ⊥) × (Fails entries l → ⊥) }
    ensures one_of_three { (entries : List Entry) (l : Lit) → Holds entries l ⊎ (Fails entries l ⊎ HasNoValue entries l.var) }
{}

/// A trail stays one where a literal is decided or implied whose variable is there and has no value. What was true or
/// false stays so.
pub fn longer_trails_are_trails()
    ensures decided { (t : Course) (l : Lit) → IsCourse t → InVars t.vars l → HasNoValue t.entries l.var
        → IsCourse (decided t l) }
    ensures implied { (t : Course) (l : Lit) (id : ℕ) → IsCourse t → InVars t.vars l → HasNoValue t.entries l.var
        → IsCourse (implied t l id) }
    ensures truth { (entries more : List Entry) (l : Lit) → Holds entries l → Holds (entries ++ more) l }
    ensures all_fail { (entries more : List Entry) (clause : List Lit) → AllFail entries clause
        → AllFail (entries ++ more) clause }
    ensures others_fail { (entries more : List Entry) (clause : List Lit) (l : Lit) → OthersFail entries clause l
        → OthersFail (entries ++ more) clause l }
{}

/// A jump back leaves a trail. What it leaves is a front of what there was: exactly the entries of at most that level. A
/// jump to the present level takes nothing.
pub fn a_back_jump_leaves_a_front()
    ensures course { (t : Course) (level : ℕ) → IsCourse t → level ≤ t.level → IsCourse (taken_back t level) }
    ensures front { (t : Course) (level : ℕ) → IsCourse t
        → up_to level t.entries ≡ take (length (up_to level t.entries)) t.entries }
    ensures left { (entries : List Entry) (level : ℕ) (e : Entry) → Contains (up_to level entries) e
        ↔ (Contains entries e × (e.level ≤ level)) }
    ensures nothing { (t : Course) → IsCourse t → taken_back t t.level ≡ t }
{}

/// No clause is both false and unit.
pub fn unit_clauses_are_not_false()
    ensures { (entries : List Entry) (clause : List Lit) → IsUnit entries clause → AllFail entries clause → ⊥ }
{}
