ghost use Rattle.std.specs.Prelude.{◌≡◌, ◌⊎◌, ℕ, List, All, IsTrue};
ghost use Rattle.text_scan.specs.declared.scanning.ScanError.{ScanError};
ghost use Rattle.text_scan.specs.declared.scanning.ScanError.TheVariants.{BadByte, BadToken};
ghost use Rattle.text_scan.specs.Faults.{IsFault};
ghost use Rattle.lexeme_reader.specs.declared.reading.Lexeme.{Lexeme};
ghost use Rattle.lexeme_reader.specs.Lexemes.{AreLexemes, is_formed};

use text_scan::{one_answer, one_meaning};

/// What `lexemes` answers, where memory suffices, is the only answer: each line says one list of lexemes, or has a
/// bad byte, or no bad byte and a bad token. No line has two of these, nor says two lists.
pub fn one_saying()
    ensures some { (line : List ℕ) → ((lexemes : List Lexeme) × AreLexemes line lexemes) ⊎ IsFault line BadByte ⊎ IsFault line BadToken }
    ensures one_list { (line : List ℕ) (a b : List Lexeme) → AreLexemes line a → AreLexemes line b → a ≡ b }
    ensures no_bad_byte { (line : List ℕ) (a : List Lexeme) → AreLexemes line a → IsFault line BadByte → ⊥ }
    ensures no_bad_token { (line : List ℕ) (a : List Lexeme) → AreLexemes line a → IsFault line BadToken → ⊥ }
{
    one_answer();
    one_meaning();
}

/// Everything that a line says has the form of its kind.
pub fn what_is_said_is_formed()
    ensures { (line : List ℕ) (lexemes : List Lexeme) → AreLexemes line lexemes → All (λ l. IsTrue (is_formed l)) lexemes }
{}
