ghost use Rattle.std.specs.Prelude.{◌≡◌, ◌⊎◌, List, All, IsTrue};
ghost use Rattle.litmus_syntax.specs.declared.pred.Pred.{Pred};
ghost use Rattle.litmus_syntax.specs.Counts.{IsShortPred};
ghost use Rattle.litmus_syntax.specs.Forms.{is_formed_pred};
ghost use Rattle.lexeme_reader.specs.declared.reading.Lexeme.{Lexeme};
ghost use Rattle.lexeme_reader.specs.Lexemes.{is_formed};
ghost use Rattle.predicate_reader.specs.Counts.{IsShort};
ghost use Rattle.predicate_reader.specs.Predicates.{IsPredicate};

/// Tokens are one predicate at most.
pub fn one_predicate()
    ensures { (tokens : List Lexeme) (p q : Pred) → IsPredicate tokens p → IsPredicate tokens q → p ≡ q }
{}

/// Tokens are a predicate, or they are none.
pub fn predicate_or_none()
    ensures { (tokens : List Lexeme) → ((p : Pred) × IsPredicate tokens p) ⊎ ((p : Pred) → IsPredicate tokens p → ⊥) }
{}

/// What keeps to the forms and limits as it is written does so as a predicate: where each token has its form, the
/// predicate's parts have theirs, and where the question isn't too long, neither is the predicate's canonical text.
pub fn kept_limits()
    ensures formed { (tokens : List Lexeme) (p : Pred) → All (λ l. IsTrue (is_formed l)) tokens → IsPredicate tokens p → IsTrue (is_formed_pred p) }
    ensures short { (tokens : List Lexeme) (p : Pred) → IsShort tokens → IsPredicate tokens p → IsShortPred p }
{}
