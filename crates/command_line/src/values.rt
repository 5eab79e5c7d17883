ghost use Rattle.std.specs.Prelude.{◌≡◌, ◌≤◌, ℕ, List, Option, IfOk, MatchOption, MatchBool, map, option_map, position, bytes_eq, decimal};
ghost use Rattle.litmus_syntax.specs.declared.site.SiteKind.{SiteKind};
ghost use Rattle.command_line.specs.declared.commands.ModelName.{ModelName};
ghost use Rattle.command_line.specs.declared.commands.SearchOptions.{SearchOptions};
ghost use Rattle.command_line.specs.Commands.{model_word, IsModelName, IsBranch, IsWith, IsConflicts, IsSearch, HasBranchAlone, HasNoOption};
ghost use Rattle.command_line.specs.Lines.{values_given};

use crate::commands::{ModelName, SearchOptions};
use crate::line::OptionWords;
use crate::names::FileName;
use itoa::Buffer;
use litmus_syntax::SiteKind;
use model_library::shipped;
use std::alloc::{AllocError, Global};

/// The number that the word is, in decimal digits with no sign and no leading zero.
fn number_of(word: &str) -> Option<u32>
    ensures { MatchOption result ((n : ℕ) → n ≤ 4294967295 → word.now ≡ decimal n → ⊥) (λ n. word.now ≡ decimal n) }
{
    let Ok(number) = word.parse::<u32>() else {
        return None;
    };
    let mut printed = Buffer::new();
    if printed.format(number) == word {
        return Some(number);
    }
    None
}

/// The number within these bounds that the word is.
pub fn number_within(word: &str, least: u32, most: u32) -> Option<u32>
    ensures { MatchOption result ((n : ℕ) → least ≤ n → n ≤ most → word.now ≡ decimal n → ⊥) (λ n. (word.now ≡ decimal n) × (least ≤ n) × (n ≤ most)) }
{
    let number = number_of(word)?;
    if number < least {
        return None;
    }
    if most < number {
        return None;
    }
    Some(number)
}

/// The model that the word names.
pub fn model_of(alloc: Global, word: &str) -> Result<Option<ModelName>, AllocError>
    ensures { IfOk result (λ found. MatchOption found
        ((m : ModelName) → IsModelName m → word.now ≡ model_word m → ⊥)
        (λ m. IsModelName m × (word.now ≡ model_word m))) }
{
    match word.strip_prefix('@') {
        Some(name) => match shipped(name) {
            None => Ok(None),
            Some(model) => Ok(Some(ModelName::Shipped(model))),
        },
        None => {
            let name = FileName::new(alloc, word)?;
            Ok(Some(ModelName::File(name)))
        }
    }
}

/// The place of the first choice of this word, counted from 0.
fn place_of(word: &str, choices: &[&str]) -> Option<usize>
    ensures { result ≡ position (λ c. bytes_eq word.now c.now) choices.now }
{
    choices.iter().position(|choice| word == *choice)
}

/// The place of the choice that `--branch` names, if it is given.
#[tactic(auto, using(crate::proofs::Places::place_among))]
fn branch_of(word: Option<&str>, choices: &[&str]) -> Option<Option<usize>>
    ensures { MatchOption result
        ((place : Option ℕ) → IsBranch (map (λ c. c.now) choices.now) (option_map (λ w. w.now) word.entry) place → ⊥)
        (λ place. IsBranch (map (λ c. c.now) choices.now) (option_map (λ w. w.now) word.entry) place) }
{
    let Some(word) = word else {
        return Some(None);
    };
    match place_of(word, choices) {
        None => None,
        Some(place) => Some(Some(place)),
    }
}

/// The sites that `--with` names, or `fsync` where it isn't given.
pub fn with_of(word: Option<&str>) -> Option<SiteKind>
    ensures { MatchOption result
        ((kind : SiteKind) → IsWith (option_map (λ w. w.now) word.entry) kind → ⊥)
        (λ kind. IsWith (option_map (λ w. w.now) word.entry) kind) }
{
    match word {
        None => Some(SiteKind::Fsync),
        Some("fsync") => Some(SiteKind::Fsync),
        Some("sync") => Some(SiteKind::Sync),
        Some("all") => Some(SiteKind::All),
        Some(_) => None,
    }
}

/// The number that `--conflicts` gives, if it is given.
fn conflicts_of(word: Option<&str>) -> Option<Option<u32>>
    ensures { MatchOption result
        ((limit : Option ℕ) → IsConflicts (option_map (λ w. w.now) word.entry) limit → ⊥)
        (λ limit. IsConflicts (option_map (λ w. w.now) word.entry) limit) }
{
    let Some(word) = word else {
        return Some(None);
    };
    match number_within(word, 1, u32::MAX) {
        None => None,
        Some(limit) => Some(Some(limit)),
    }
}

/// A copy of the name, if there is one.
fn name_of(alloc: Global, word: Option<&str>) -> Result<Option<FileName>, AllocError>
    ensures { IfOk result (λ name. name ≡ option_map (λ w. w.now) word.entry) }
{
    match word {
        None => Ok(None),
        Some(word) => {
            let name = FileName::new(alloc, word)?;
            Ok(Some(name))
        }
    }
}

/// How the options say that a question is searched. `--with` isn't looked at.
pub fn search_of(
    alloc: Global,
    options: &OptionWords<'_>,
    choices: &[&str],
) -> Result<Option<SearchOptions>, AllocError>
    ensures { IfOk result (λ found. MatchOption found
        ((search : SearchOptions) → IsSearch (map (λ c. c.now) choices.now) (values_given options.now) search → ⊥)
        (λ search. IsSearch (map (λ c. c.now) choices.now) (values_given options.now) search)) }
{
    let Some(conflicts) = conflicts_of(options.conflicts) else {
        return Ok(None);
    };
    let Some(branch) = branch_of(options.branch, choices) else {
        return Ok(None);
    };
    if conflicts.is_some() && options.log.is_none() {
        return Ok(None);
    }
    let log = name_of(alloc, options.log)?;
    Ok(Some(SearchOptions {
        log,
        conflicts,
        branch,
    }))
}

/// Whether no option is given.
pub fn has_none(options: &OptionWords<'_>) -> bool
    ensures { MatchBool result (HasNoOption (values_given options.now)) (HasNoOption (values_given options.now) → ⊥) }
{
    matches!(
        options,
        OptionWords {
            log: None,
            conflicts: None,
            with: None,
            branch: None,
        }
    )
}

/// The choice that `--branch` names, if it is given, where no other option is.
pub fn branch_alone(options: &OptionWords<'_>, choices: &[&str]) -> Option<Option<usize>>
    ensures { MatchOption result
        ((place : Option ℕ) → HasBranchAlone (map (λ c. c.now) choices.now) (values_given options.now) place → ⊥)
        (λ place. HasBranchAlone (map (λ c. c.now) choices.now) (values_given options.now) place) }
{
    match options {
        OptionWords {
            log: None,
            conflicts: None,
            with: None,
            branch,
        } => branch_of(*branch, choices),
        _ => None,
    }
}
