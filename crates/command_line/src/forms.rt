ghost use Rattle.std.specs.Prelude.{◌≡◌, ℕ, List, IfOk, map};
ghost use Rattle.command_line.specs.declared.verbs.Verb.TheVariants as verb;
ghost use Rattle.command_line.specs.Lines.{IsCommandIn};

use crate::commands::Command;
use crate::line::Line;
use crate::names::FileName;
use crate::operands::{on_model_alone, on_model_with_file, on_model_with_two};
use crate::values::{branch_alone, has_none, number_within, search_of, with_of};
use std::alloc::{AllocError, Global};

/// `check L M`.
pub fn check(
    alloc: Global,
    line: &Line<'_>,
    choices: &[&str],
) -> Result<Option<Command>, AllocError>
    ensures { IfOk result (λ found. IsCommandIn (map (λ c. c.now) choices.now) line.now verb.Check found) }
{
    if line.options.with.is_some() {
        return Ok(None);
    }
    let Some((litmus, model)) = on_model_alone(alloc, line.operands.as_slice())? else {
        return Ok(None);
    };
    let Some(search) = search_of(alloc, &line.options, choices)? else {
        return Ok(None);
    };
    Ok(Some(Command::Check {
        litmus,
        model,
        search,
    }))
}

/// `repair L M`.
pub fn repair(
    alloc: Global,
    line: &Line<'_>,
    choices: &[&str],
) -> Result<Option<Command>, AllocError>
    ensures { IfOk result (λ found. IsCommandIn (map (λ c. c.now) choices.now) line.now verb.Repair found) }
{
    let Some(with) = with_of(line.options.with) else {
        return Ok(None);
    };
    let Some((litmus, model)) = on_model_alone(alloc, line.operands.as_slice())? else {
        return Ok(None);
    };
    let Some(search) = search_of(alloc, &line.options, choices)? else {
        return Ok(None);
    };
    Ok(Some(Command::Repair {
        litmus,
        model,
        with,
        search,
    }))
}

/// `verify L M F`.
pub fn verify(alloc: Global, line: &Line<'_>) -> Result<Option<Command>, AllocError>
    ensures { (choices : List (List ℕ)) → IfOk result (λ found. IsCommandIn choices line.now verb.Verify found) }
{
    if !has_none(&line.options) {
        return Ok(None);
    }
    let Some((litmus, model, log)) = on_model_with_file(alloc, line.operands.as_slice())? else {
        return Ok(None);
    };
    Ok(Some(Command::Verify { litmus, model, log }))
}

/// `replay L M C`.
pub fn replay(alloc: Global, line: &Line<'_>) -> Result<Option<Command>, AllocError>
    ensures { (choices : List (List ℕ)) → IfOk result (λ found. IsCommandIn choices line.now verb.Replay found) }
{
    if !has_none(&line.options) {
        return Ok(None);
    }
    let Some((litmus, model, crash)) = on_model_with_file(alloc, line.operands.as_slice())? else {
        return Ok(None);
    };
    Ok(Some(Command::Replay {
        litmus,
        model,
        crash,
    }))
}

/// `events L M`.
pub fn events(alloc: Global, line: &Line<'_>) -> Result<Option<Command>, AllocError>
    ensures { (choices : List (List ℕ)) → IfOk result (λ found. IsCommandIn choices line.now verb.Events found) }
{
    if !has_none(&line.options) {
        return Ok(None);
    }
    let Some((litmus, model)) = on_model_alone(alloc, line.operands.as_slice())? else {
        return Ok(None);
    };
    Ok(Some(Command::Events { litmus, model }))
}

/// `show L`.
pub fn show(alloc: Global, line: &Line<'_>) -> Result<Option<Command>, AllocError>
    ensures { (choices : List (List ℕ)) → IfOk result (λ found. IsCommandIn choices line.now verb.Show found) }
{
    if !has_none(&line.options) {
        return Ok(None);
    }
    match line.operands.as_slice() {
        [litmus] => {
            let litmus = FileName::new(alloc, litmus)?;
            Ok(Some(Command::Show { litmus }))
        }
        _ => Ok(None),
    }
}

/// `models`.
pub fn models(line: &Line<'_>) -> Option<Command>
    ensures { (choices : List (List ℕ)) → IsCommandIn choices line.now verb.Models result }
{
    if !has_none(&line.options) {
        return None;
    }
    match line.operands.as_slice() {
        [] => Some(Command::Models),
        _ => None,
    }
}

/// `work SEED CALLS`.
pub fn work(line: &Line<'_>, choices: &[&str]) -> Option<Command>
    ensures { IsCommandIn (map (λ c. c.now) choices.now) line.now verb.Work result }
{
    let branch = branch_alone(&line.options, choices)?;
    match line.operands.as_slice() {
        [seed, calls] => {
            let seed = number_within(seed, 0, u32::MAX)?;
            let calls = number_within(calls, 1, 32)?;
            Some(Command::Work {
                seed,
                calls,
                branch,
            })
        }
        _ => None,
    }
}

/// `explain L M`.
pub fn explain(
    alloc: Global,
    line: &Line<'_>,
    choices: &[&str],
) -> Result<Option<Command>, AllocError>
    ensures { IfOk result (λ found. IsCommandIn (map (λ c. c.now) choices.now) line.now verb.Explain found) }
{
    let Some(branch) = branch_alone(&line.options, choices) else {
        return Ok(None);
    };
    let Some((litmus, model)) = on_model_alone(alloc, line.operands.as_slice())? else {
        return Ok(None);
    };
    Ok(Some(Command::Explain {
        litmus,
        model,
        branch,
    }))
}

/// `hint L M F G`.
pub fn hint(alloc: Global, line: &Line<'_>) -> Result<Option<Command>, AllocError>
    ensures { (choices : List (List ℕ)) → IfOk result (λ found. IsCommandIn choices line.now verb.Hint found) }
{
    if !has_none(&line.options) {
        return Ok(None);
    }
    let operands = line.operands.as_slice();
    let Some((litmus, model, log, hinted)) = on_model_with_two(alloc, operands)? else {
        return Ok(None);
    };
    let log = FileName::new(alloc, log)?;
    let hinted = FileName::new(alloc, hinted)?;
    Ok(Some(Command::Hint {
        litmus,
        model,
        log,
        hinted,
    }))
}

/// `trim L M F G`.
pub fn trim(alloc: Global, line: &Line<'_>) -> Result<Option<Command>, AllocError>
    ensures { (choices : List (List ℕ)) → IfOk result (λ found. IsCommandIn choices line.now verb.Trim found) }
{
    if !has_none(&line.options) {
        return Ok(None);
    }
    let operands = line.operands.as_slice();
    let Some((litmus, model, log, trimmed)) = on_model_with_two(alloc, operands)? else {
        return Ok(None);
    };
    let log = FileName::new(alloc, log)?;
    let trimmed = FileName::new(alloc, trimmed)?;
    Ok(Some(Command::Trim {
        litmus,
        model,
        log,
        trimmed,
    }))
}

/// `flush L M SEED W`.
pub fn flush(alloc: Global, line: &Line<'_>) -> Result<Option<Command>, AllocError>
    ensures { (choices : List (List ℕ)) → IfOk result (λ found. IsCommandIn choices line.now verb.Flush found) }
{
    if !has_none(&line.options) {
        return Ok(None);
    }
    let operands = line.operands.as_slice();
    let Some((litmus, model, seed, width)) = on_model_with_two(alloc, operands)? else {
        return Ok(None);
    };
    let Some(seed) = number_within(seed, 0, u32::MAX) else {
        return Ok(None);
    };
    let Some(width) = number_within(width, 1, 128) else {
        return Ok(None);
    };
    Ok(Some(Command::Flush {
        litmus,
        model,
        seed,
        width,
    }))
}
