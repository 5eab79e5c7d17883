//! Laws of reading. Each function does nothing: its contract is the law.

ghost use Rattle.std.specs.Prelude.{◌≡◌, ◌⊎◌, ℕ, List};
ghost use Rattle.model_reader.specs.declared.model.Model.{Model};
ghost use Rattle.model_reader.specs.declared.fault.ModelKind.{ModelKind};
ghost use Rattle.model_reader.specs.ModelText.{IsModelText, IsModelRefused};

use lexeme_reader::{one_saying, what_is_said_is_formed};

/// What `read` answers, where memory suffices, is the only answer: each list of bytes is one model, or it is refused at one
/// line for one kind of fault, and not both.
pub fn one_reading()
    ensures one_model { (bytes : List ℕ) (a b : Model) → IsModelText bytes a → IsModelText bytes b → a ≡ b }
    ensures one_refusal { (bytes : List ℕ) (i j : ℕ) (k m : ModelKind)
        → IsModelRefused bytes i k → IsModelRefused bytes j m → (i ≡ j) × (k ≡ m) }
    ensures text_or_refused { (bytes : List ℕ) (a : Model) (i : ℕ) (k : ModelKind) → IsModelText bytes a → IsModelRefused bytes i k → ⊥ }
    ensures one_of_them { (bytes : List ℕ) → ((model : Model) × IsModelText bytes model)
        ⊎ ((line : ℕ) × (kind : ModelKind) × IsModelRefused bytes line kind) }
{
    one_saying();
    what_is_said_is_formed();
}
