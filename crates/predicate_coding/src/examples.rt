//! Small questions, whose codings are computed. Each function does nothing: its contract is the example.

ghost use Rattle.std.specs.Prelude.{◌≡◌, ℕ, true, ◌∷◌, [], codes, length};
ghost use Rattle.litmus_syntax.specs.declared.pred.Pred.TheVariants.{True, False};
ghost use Rattle.value_coding.specs.Examples.{one_write, replaced, content_is};
ghost use Rattle.predicate_coding.specs.CellChoices.{yes_lit};
ghost use Rattle.predicate_coding.specs.Coding.{node_in, coding};
ghost use Rattle.predicate_coding.specs.Examples.{created, nothing, seen_but_gone, no_lit};

/// `create /f`, `mark done`: is it possible that `done` was seen and `/f` isn't there? Variables 1 to 3 are those of the
/// order, 4 and 5 those of the slot; 6 is `seen`, 7 and 8 are `exists`, 9 is `not`, 10 `and`.
pub fn a_mark_behind_a_creation()
    ensures vars { (coding created ((1, 2) ∷ []) seen_but_gone true).vars ≡ 10 }
    ensures clauses { length (coding created ((1, 2) ∷ []) seen_but_gone true).clauses ≡ 18 }
    ensures nodes { (node_in created seen_but_gone seen_but_gone).clauses 6
        ≡ (no_lit 6 ∷ yes_lit 2 ∷ []) ∷ (no_lit 2 ∷ yes_lit 6 ∷ [])
        ∷ (yes_lit 7 ∷ []) ∷ (no_lit 4 ∷ no_lit 8 ∷ []) ∷ (no_lit 5 ∷ no_lit 7 ∷ yes_lit 8 ∷ []) ∷ (no_lit 5 ∷ yes_lit 7 ∷ no_lit 8 ∷ [])
        ∷ (yes_lit 9 ∷ yes_lit 8 ∷ []) ∷ (no_lit 9 ∷ no_lit 8 ∷ [])
        ∷ (no_lit 10 ∷ yes_lit 6 ∷ []) ∷ (no_lit 10 ∷ yes_lit 9 ∷ []) ∷ (yes_lit 10 ∷ no_lit 6 ∷ no_lit 9 ∷ []) ∷ [] }
{}

/// The same with a question that is never true, and no calls with one that always is.
pub fn questions_without_atoms()
    ensures false_vars { (coding created ((1, 2) ∷ []) False true).vars ≡ 4 }
    ensures false_clauses { length (coding created ((1, 2) ∷ []) False true).clauses ≡ 5 }
    ensures true_vars { (coding nothing [] True true).vars ≡ 1 }
    ensures true_clauses { length (coding nothing [] True true).clauses ≡ 2 }
{}

/// A file that is replaced by another: is it possible that it is empty?
pub fn a_replaced_file()
    ensures vars { (coding replaced ((1, 3) ∷ (1, 4) ∷ (3, 4) ∷ []) (content_is (codes "")) true).vars ≡ 18 }
    ensures clauses { length (coding replaced ((1, 3) ∷ (1, 4) ∷ (3, 4) ∷ []) (content_is (codes "")) true).clauses ≡ 41 }
{}

/// Four bytes that are written at once are one segment.
pub fn a_content_of_one_segment()
    ensures vars { (coding one_write [] (content_is (codes "aaaa")) true).vars ≡ 7 }
    ensures clauses { length (coding one_write [] (content_is (codes "aaaa")) true).clauses ≡ 10 }
{}
