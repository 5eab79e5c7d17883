ghost use Rattle.std.specs.Prelude.{◌≡◌, ◌≤◌, ◌⊎◌, ℕ, List, ◌++◌, length};
ghost use Rattle.text_scan.specs.declared.scanning.Token.{Token};
ghost use Rattle.text_scan.specs.declared.scanning.ScanError.TheVariants.{BadByte, BadToken};
ghost use Rattle.text_scan.specs.Comments.{HasBadByte};
ghost use Rattle.text_scan.specs.Items.{IsText, IsTextOf};
ghost use Rattle.text_scan.specs.Kinds.{token_len};
ghost use Rattle.text_scan.specs.Lines.{lines_of};
ghost use Rattle.text_scan.specs.Faults.{HasBadToken, IsFault};
ghost use Rattle.text_scan.specs.Tokens.{IsTokens};

/// What `tokens` answers, where memory suffices, is the only answer: each line has tokens, or a bad byte, or
/// no bad byte and a bad token. No line has two of these, nor two lists of tokens.
pub fn one_answer()
    ensures some { (line : List ℕ) → ((tokens : List Token) × IsTokens line tokens) ⊎ IsFault line BadByte ⊎ IsFault line BadToken }
    ensures one_list { (line : List ℕ) (a b : List Token) → IsTokens line a → IsTokens line b → a ≡ b }
    ensures no_bad_byte { (line : List ℕ) (a : List Token) → IsTokens line a → HasBadByte line → ⊥ }
    ensures no_bad_token { (line : List ℕ) (a : List Token) → IsTokens line a → HasBadToken line → ⊥ }
{}

/// A text stands for one list of bytes.
pub fn one_meaning()
    ensures { (text a b : List ℕ) → IsTextOf text a → IsTextOf text b → a ≡ b }
{}

/// A text takes its own bytes alone, whatever stands behind it.
pub fn text_ends()
    ensures { (text behind : List ℕ) → IsText text → token_len (text ++ behind) ≡ length text }
{}

/// A file has no more lines than bytes.
pub fn few_lines()
    ensures { (bytes : List ℕ) → length (lines_of bytes) ≤ length bytes }
{}
