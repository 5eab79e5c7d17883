ghost use Rattle.std.specs.Prelude.{◌≡◌, ℕ, ◌≤◌, [], Err, List, length, IfOk, MatchOption};
ghost use Rattle.model_reader.specs.declared.fault.ModelKind.{ModelKind};
ghost use Rattle.model_reader.specs.Faults.{Means, MeansNothing};
ghost use Rattle.model_reader.specs.Drafts.{IsValue, IsValueFault};
ghost use Rattle.line_files.specs.declared.fault.LineFault.TheVariants.{Bad};

use crate::expr::Expr;
use crate::fault::ModelKind;
use crate::reading::expression;
use crate::words::Vocabulary;
use lexeme_reader::Lexeme;
use line_files::LineFault;
use litmus_syntax::Text;
use sqlite_items::Boxed;
use std::alloc::{AllocError, Global};

/// The expression that the tokens are over these words and names, if they are one.
#[tactic(auto, using(crate::proofs::Meanings::meaning_told))]
fn meaning(
    alloc: Global,
    words: Vocabulary,
    names: &[Text],
    value: &[Lexeme],
) -> Result<Option<Boxed<Expr>>, AllocError>
    requires { length names.now ≤ 256 }
    ensures { IfOk result (λ o. MatchOption o (MeansNothing words names.now value.now) (λ e. Means words names.now value.now e)) }
{
    let found = expression(alloc, words, names, value)?;
    Ok(found)
}

/// The expression that the tokens are over these names, or what is wrong with them.
pub fn value_of(
    alloc: Global,
    names: &[Text],
    value: &[Lexeme],
) -> Result<Expr, LineFault<ModelKind>>
    requires { length names.now ≤ 256 }
    ensures read { IfOk result (λ e. IsValue names.now value.now e) }
    ensures fault { (kind : ModelKind) → result ≡ Err (Bad kind) → IsValueFault names.now value.now kind }
{
    let Some(_form) = meaning(alloc, Vocabulary::EachWord, &[], value)? else {
        return Err(LineFault::Bad(ModelKind::BadLine));
    };
    let Some(_named) = meaning(alloc, Vocabulary::KnownNames, names, value)? else {
        return Err(LineFault::Bad(ModelKind::UnknownName));
    };
    let Some(known) = meaning(alloc, Vocabulary::KnownWords, names, value)? else {
        return Err(LineFault::Bad(ModelKind::UnknownKind));
    };
    Ok(known.into_inner())
}
