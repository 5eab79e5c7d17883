//! Laws of watches, over all trails. Each function does nothing: its contract is the law.

ghost use Rattle.std.specs.Prelude.{◌≡◌, ◌↔◌, ℕ, ◌<◌, ◌≤◌, ◌++◌, true, false, List, [], ◌∷◌, length};
ghost use Rattle.std.specs.List.{Contains};
ghost use Rattle.clause_store.specs.declared.Lit.{Lit};
ghost use Rattle.clause_store.specs.Clauses.{negated};
ghost use Rattle.clause_store.specs.Propagation.{IsConsistent, IsSafeAt};
ghost use Rattle.trail_core.specs.Course.{Entry, Course, IsCourse, Holds, HaveOnce, extended, taken_back};
ghost use Rattle.watch_lists.specs.Watching.{Watch};
ghost use Rattle.watch_lists.specs.Watching.{Watch, numbers, AreWatches, AreInStep, UnseenArePresent, IsGuarded, IsNotFalse, IsWellChosen};
ghost use Rattle.watch_lists.specs.Propagated.{AreSafe, IsSettled, IsSafe, truths};

/// A decided or implied literal keeps watches and trail in step.
pub fn a_longer_trail_stays_in_step()
    ensures { (list : List Watch) (t : Course) (level : ℕ) (e : Entry) → t.seen ≤ length t.entries
        → AreInStep list t → AreInStep list (extended t level e) }
{}

/// A trail without an entry is in step with all watches.
pub fn an_empty_trail_is_in_step()
    ensures { (list : List Watch) (t : Course) → t.entries ≡ [] → AreInStep list t }
{}

/// A back jump repairs nothing: watches and trail stay in step, and all stays seen.
/// Below the present level all is seen, also after a conflict.
pub fn a_back_jump_stays_in_step()
    ensures in_step { (list : List Watch) (t : Course) (level : ℕ) → IsCourse t → AreInStep list t
        → AreInStep list (taken_back t level) }
    ensures seen { (t : Course) (level : ℕ) → t.seen ≡ length t.entries
        → (taken_back t level).seen ≡ length (taken_back t level).entries }
    ensures seen_below { (t : Course) (level : ℕ) → UnseenArePresent t → level < t.level
        → (taken_back t level).seen ≡ length (taken_back t level).entries }
{}

/// Where all is seen and in step, each attached clause has a true literal or two different ones without a value.
pub fn in_step_and_seen_is_safe()
    ensures safe { (clauses : List (List Lit)) (t : Course) (list : List Watch) → AreWatches clauses list
        → AreInStep list t → t.seen ≡ length t.entries → AreSafe clauses (numbers list) t.entries }
    ensures settled { (clauses : List (List Lit)) (ns : List ℕ) (entries : List Entry) → HaveOnce entries
        → AreSafe clauses ns entries → IsSettled clauses ns entries }
{}

/// A new watch keeps the others in step. It is in step itself at once where neither literal is false, and else from
/// the moment on at which its first literal is true at a level no higher than that of the second.
pub fn a_new_watch_comes_into_step()
    ensures others { (list : List Watch) (w : Watch) (t : Course) → AreInStep list t → IsGuarded t w.first w.second
        → IsGuarded t w.second w.first → AreInStep (list ++ w ∷ []) t }
    ensures at_once { (t : Course) (w : Watch) → IsNotFalse t.entries w.first → IsNotFalse t.entries w.second
        → AreInStep (w ∷ []) t }
    ensures later { (t : Course) (w : Watch) (e f : Entry) → IsCourse t → Contains t.entries f → f.lit ≡ w.first
        → Contains t.entries e → e.lit ≡ negated w.second → f.level ≤ e.level
        → AreInStep (w ∷ []) t }
    ensures watches { (clauses : List (List Lit)) (entries : List Entry) (list : List Watch) (w : Watch)
        → AreWatches clauses list → IsWellChosen clauses entries w → AreWatches clauses (list ++ w ∷ []) }
    ensures more { (clauses : List (List Lit)) (clause : List Lit) (list : List Watch) → AreWatches clauses list
        → AreWatches (clauses ++ clause ∷ []) list }
{}

/// As a set, the true literals of a trail are those that hold. The set has no literal beside its negation, and a safe
/// clause is safe at it.
pub fn truths_are_what_holds()
    ensures holds { (entries : List Entry) (l : Lit) → Holds entries l ↔ (truths entries l ≡ true) }
    ensures lacks { (entries : List Entry) (l : Lit) → (Holds entries l → ⊥) → truths entries l ≡ false }
    ensures consistent { (entries : List Entry) → HaveOnce entries → IsConsistent (truths entries) }
    ensures safe { (entries : List Entry) (clause : List Lit) → IsSafe entries clause → IsSafeAt clause (truths entries) }
{}
