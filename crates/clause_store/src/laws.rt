//! Laws of unit propagation, over all lists of clauses. Each function does nothing: its contract is the law.

ghost use Rattle.std.specs.Prelude.{◌≡◌, ◌≢◌, ◌↔◌, ℕ, ◌<◌, ◌^◌, Bool, true, false, not, List, [], ◌∷◌, ◌++◌, length, Some, slice_get};
ghost use Rattle.std.specs.List.{All, Contains};
ghost use Rattle.clause_store.specs.declared.Lit.{Lit};
ghost use Rattle.clause_store.specs.Clauses.{InVars, negated};
ghost use Rattle.clause_store.specs.Propagation.{IsImplied, Conflicts, Follows, IsNew, HasAll, IsClosed, HasNoConflict, IsClosedAt, IsOpenAt, IsConsistent, IsSafeAt, negations, units};
ghost use Rattle.clause_store.specs.Truth.{is_true, MakesTrue, MakesAllTrue};
ghost use Rattle.clause_store.specs.Derivations.{EachFollows, EachIsNew};

/// A closed set that has the literals of the start has all that is implied. If no clause is false in it, propagation
/// meets no conflict.
pub fn closed_sets_bound_propagation()
    ensures implied { (clauses : List (List Lit)) (start : List Lit) (set : Lit → Bool) → HasAll set start
        → IsClosed clauses set → (l : Lit) → IsImplied clauses start l → set l ≡ true }
    ensures no_conflict { (clauses : List (List Lit)) (start : List Lit) (set : Lit → Bool) → HasAll set start
        → IsClosed clauses set → HasNoConflict clauses set → Conflicts clauses start → ⊥ }
{}

/// From more clauses and a larger start no less is implied, and a conflict stays one.
pub fn more_imply_more()
    ensures implied { (clauses more : List (List Lit)) (start larger : List Lit)
        → ((c : List Lit) → Contains clauses c → Contains more c)
        → ((l : Lit) → Contains start l → Contains larger l) → (l : Lit) → IsImplied clauses start l
        → IsImplied more larger l }
    ensures conflicts { (clauses more : List (List Lit)) (start larger : List Lit)
        → ((c : List Lit) → Contains clauses c → Contains more c)
        → ((l : Lit) → Contains start l → Contains larger l) → Conflicts clauses start
        → Conflicts more larger }
    ensures follows { (clauses more : List (List Lit)) (clause : List Lit)
        → ((c : List Lit) → Contains clauses c → Contains more c) → Follows clauses clause
        → Follows more clause }
{}

/// A start whose literals are all implied by another implies no more than that one.
pub fn implied_literals_add_nothing()
    ensures implied { (clauses : List (List Lit)) (start larger : List Lit)
        → ((l : Lit) → Contains larger l → IsImplied clauses start l) → (l : Lit)
        → IsImplied clauses larger l → IsImplied clauses start l }
    ensures conflicts { (clauses : List (List Lit)) (start larger : List Lit)
        → ((l : Lit) → Contains larger l → IsImplied clauses start l) → Conflicts clauses larger
        → Conflicts clauses start }
{}

/// Values that make the clauses true and the start true make true all that is implied, and there is no conflict. So a
/// clause that follows is true under all values that make the clauses true, and where the empty clause follows,
/// there are no such values.
pub fn what_follows_is_true()
    ensures implied { (clauses : List (List Lit)) (start : List Lit) (values : List Bool) → MakesAllTrue values clauses
        → HasAll (is_true values) start → (l : Lit) → IsImplied clauses start l → is_true values l ≡ true }
    ensures no_conflict { (clauses : List (List Lit)) (start : List Lit) (values : List Bool) → MakesAllTrue values clauses
        → HasAll (is_true values) start → Conflicts clauses start → ⊥ }
    ensures clause { (clauses : List (List Lit)) (clause : List Lit) (values : List Bool) → MakesAllTrue values clauses
        → Follows clauses clause → MakesTrue values clause }
    ensures refuted { (clauses : List (List Lit)) (values : List Bool) → Follows clauses [] → MakesAllTrue values clauses
        → ⊥ }
{}

/// A closed set without a conflict that lacks a literal of a clause and has the negations of the others shows that the
/// clause is new. No clause is a subset of one that is new to it.
pub fn what_makes_a_clause_new()
    ensures by_closed_set { (clauses : List (List Lit)) (clause : List Lit) (l : Lit) (set : Lit → Bool) → Contains clause l
        → set l ≡ false → ((m : Lit) → Contains clause m → m ≢ l → set (negated m) ≡ true)
        → IsClosed clauses set → HasNoConflict clauses set → IsNew clauses clause }
    ensures no_subset { (clauses : List (List Lit)) (clause smaller : List Lit) → IsNew clauses clause
        → Contains clauses smaller → ((l : Lit) → Contains smaller l → Contains clause l) → ⊥ }
{}

/// Negating twice gives a literal back, and the negations of a list's negations are the list. The negation of a literal
/// is true exactly where the literal isn't.
pub fn negations_turn_back()
    ensures literal { (l : Lit) → negated (negated l) ≡ l }
    ensures list { (lits : List Lit) → negations (negations lits) ≡ lits }
    ensures truth { (values : List Bool) (l : Lit) → is_true values (negated l) ≡ not (is_true values l) }
{}

/// Values for further variables change the truth of no clause over the first ones.
pub fn longer_values_change_nothing()
    ensures literal { (values more : List Bool) (l : Lit) → InVars (length values) l
        → is_true (values ++ more) l ≡ is_true values l }
    ensures clause { (values more : List Bool) (clause : List Lit) → All (InVars (length values)) clause
        → MakesTrue (values ++ more) clause ↔ MakesTrue values clause }
    ensures clauses { (values more : List Bool) (clauses : List (List Lit)) → All (All (InVars (length values))) clauses
        → MakesAllTrue (values ++ more) clauses ↔ MakesAllTrue values clauses }
{}

/// A conflict of a start is a conflict of the clauses with the start's literals as unit clauses. The other way round it
/// is one where the start has no literal beside its negation.
pub fn units_stand_for_a_start()
    ensures forth { (clauses : List (List Lit)) (start : List Lit) → Conflicts clauses start
        → Follows (clauses ++ units start) [] }
    ensures back { (clauses : List (List Lit)) (start : List Lit)
        → ((l : Lit) → Contains start l → Contains start (negated l) → ⊥) → Follows (clauses ++ units start) []
        → Conflicts clauses start }
{}

/// In a set without a literal beside its negation, a clause with a literal of the set, or with two different free ones,
/// gives propagation nothing to add and is not false.
pub fn safe_clauses_are_closed()
    ensures clause { (clause : List Lit) (set : Lit → Bool) → IsConsistent set → IsSafeAt clause set
        → IsClosedAt clause set × IsOpenAt clause set }
    ensures clauses { (clauses : List (List Lit)) (set : Lit → Bool) → IsConsistent set
        → ((c : List Lit) → Contains clauses c → IsSafeAt c set) → IsClosed clauses set × HasNoConflict clauses set }
{}

/// Clauses each of which follows from those before it stay so, and become so, where lists of them are joined or cut, and
/// with more given clauses.
pub fn derivations_grow()
    ensures clause { (given derived : List (List Lit)) (clause : List Lit) → EachFollows given derived
        → Follows (given ++ derived) clause → EachFollows given (derived ++ clause ∷ []) }
    ensures joined { (given first second : List (List Lit)) → EachFollows given first → EachFollows (given ++ first) second
        → EachFollows given (first ++ second) }
    ensures cut { (given first second : List (List Lit)) → EachFollows given (first ++ second)
        → EachFollows given first × EachFollows (given ++ first) second }
    ensures more_given { (given more derived : List (List Lit)) → ((c : List Lit) → Contains given c → Contains more c)
        → EachFollows given derived → EachFollows more derived }
{}

/// Values that make the given clauses true make true each clause that was derived from them one after the other. So there
/// are none where the empty clause follows in the end.
pub fn derived_clauses_are_true()
    ensures derived { (given derived : List (List Lit)) (values : List Bool) → EachFollows given derived
        → MakesAllTrue values given → MakesAllTrue values derived }
    ensures refuted { (given derived : List (List Lit)) (values : List Bool) → EachFollows given derived
        → Follows (given ++ derived) [] → MakesAllTrue values given → ⊥ }
{}

/// Clauses each of which is new to those before it stay so, and become so, where lists of them are joined or cut.
pub fn new_clauses_grow()
    ensures clause { (given added : List (List Lit)) (clause : List Lit) → EachIsNew given added
        → IsNew (given ++ added) clause → EachIsNew given (added ++ clause ∷ []) }
    ensures joined { (given first second : List (List Lit)) → EachIsNew given first → EachIsNew (given ++ first) second
        → EachIsNew given (first ++ second) }
    ensures cut { (given first second : List (List Lit)) → EachIsNew given (first ++ second)
        → EachIsNew given first × EachIsNew (given ++ first) second }
{}

/// Of clauses each of which is new to those before it none has all literals of an earlier one. So over V variables
/// there are fewer than 4 to the power of V of them, where none is empty.
pub fn new_clauses_are_few()
    ensures differ { (given added : List (List Lit)) → EachIsNew given added → (i j : ℕ) (earlier later : List Lit) → i < j
        → slice_get added i ≡ Some earlier → slice_get added j ≡ Some later
        → ((l : Lit) → Contains earlier l → Contains later l) → ⊥ }
    ensures few { (vars : ℕ) (given added : List (List Lit)) → EachIsNew given added → All (All (InVars vars)) added
        → (Contains added [] → ⊥) → length added < 4 ^ vars }
{}
