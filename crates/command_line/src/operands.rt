ghost use Rattle.std.specs.Prelude.{◌≡◌, ℕ, List, [], ◌∷◌, IfOk, MatchOption, map};
ghost use Rattle.command_line.specs.declared.commands.ModelName.{ModelName};
ghost use Rattle.command_line.specs.Commands.{AreOnModel};

use crate::commands::ModelName;
use crate::names::FileName;
use crate::values::model_of;
use std::alloc::{AllocError, Global};

/// A litmus file, a model, and the operands behind them.
#[derive(Debug, Drop)]
pub struct OnModel<'a> {
    pub litmus: FileName,
    pub model: ModelName,
    pub more: &'a [&'a str],
}

/// The litmus file and the model at the front of the operands.
pub fn on_model<'a>(
    alloc: Global,
    operands: &'a [&'a str],
) -> Result<Option<OnModel<'a>>, AllocError>
    ensures { IfOk result (λ found. MatchOption found
        ((litmus : List ℕ) (model : ModelName) (more : List (List ℕ)) → AreOnModel litmus model more (map (λ w. w.now) operands.entry.now) → ⊥)
        (λ on. AreOnModel on.litmus on.model (map (λ w. w.now) on.more.now) (map (λ w. w.now) operands.entry.now))) }
{
    let Some((litmus, rest)) = operands.split_first() else {
        return Ok(None);
    };
    let Some((word, more)) = rest.split_first() else {
        return Ok(None);
    };
    let Some(model) = model_of(alloc, word)? else {
        return Ok(None);
    };
    let litmus = FileName::new(alloc, litmus)?;
    Ok(Some(OnModel {
        litmus,
        model,
        more,
    }))
}

/// The litmus file and the model that are all operands.
pub fn on_model_alone(
    alloc: Global,
    operands: &[&str],
) -> Result<Option<(FileName, ModelName)>, AllocError>
    ensures { IfOk result (λ found. MatchOption found
        ((litmus : List ℕ) (model : ModelName) → AreOnModel litmus model [] (map (λ w. w.now) operands.now) → ⊥)
        (λ on. AreOnModel on.0 on.1 [] (map (λ w. w.now) operands.now))) }
{
    match on_model(alloc, operands)? {
        Some(
            OnModel {
                litmus,
                model,
                more: [],
            },
        ) => Ok(Some((litmus, model))),
        _ => Ok(None),
    }
}

/// The litmus file, the model and one file more that are all operands.
pub fn on_model_with_file(
    alloc: Global,
    operands: &[&str],
) -> Result<Option<(FileName, ModelName, FileName)>, AllocError>
    ensures { IfOk result (λ found. MatchOption found
        ((litmus : List ℕ) (model : ModelName) (file : List ℕ) → AreOnModel litmus model (file ∷ []) (map (λ w. w.now) operands.now) → ⊥)
        (λ on. AreOnModel on.0 on.1 (on.2 ∷ []) (map (λ w. w.now) operands.now))) }
{
    match on_model(alloc, operands)? {
        Some(
            OnModel {
                litmus,
                model,
                more: [word],
            },
        ) => {
            let file = FileName::new(alloc, word)?;
            Ok(Some((litmus, model, file)))
        }
        _ => Ok(None),
    }
}

/// The litmus file, the model and two words more that are all operands.
pub fn on_model_with_two<'a>(
    alloc: Global,
    operands: &'a [&'a str],
) -> Result<Option<(FileName, ModelName, &'a str, &'a str)>, AllocError>
    ensures { IfOk result (λ found. MatchOption found
        ((litmus : List ℕ) (model : ModelName) (first second : List ℕ) → AreOnModel litmus model (first ∷ second ∷ []) (map (λ w. w.now) operands.entry.now) → ⊥)
        (λ on. AreOnModel on.0 on.1 (on.2.now ∷ on.3.now ∷ []) (map (λ w. w.now) operands.entry.now))) }
{
    match on_model(alloc, operands)? {
        Some(
            OnModel {
                litmus,
                model,
                more: [first, second],
            },
        ) => Ok(Some((litmus, model, first, second))),
        _ => Ok(None),
    }
}
