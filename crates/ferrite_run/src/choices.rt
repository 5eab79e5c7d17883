ghost use Rattle.std.specs.Prelude.{◌≡◌, IfOk, map, option_map, slice_get};
ghost use Rattle.ferrite_run.specs.Choices.{choice_words, place_of};

use branch_rules::Brancher;
use command_line::Command;
use std::alloc::{AllocError, Global};

/// A rule that says what a search decides next, and the word behind `--branch` that names it.
#[derive(Drop)]
pub struct Choice<'a> {
    pub word: &'a str,
    pub item: Box<dyn Brancher>,
}

/// The words of the choices, in their order.
pub fn words_of<'a>(alloc: Global, choices: &[Choice<'a>]) -> Result<Vec<&'a str>, AllocError>
    ensures words { IfOk result (λ words. map (λ word. word.now) words.items ≡ choice_words choices.now) }
{
    let mut words = Vec::new(alloc);
    for choice in choices {
        words.push(choice.word)?;
    }
    Ok(words)
}

/// The place of the choice that a command takes, from 0: the one that it names, or the first.
fn place_of(command: &Command) -> usize
    ensures place { result ≡ place_of command.now }
{
    match command {
        Command::Check { search, .. } | Command::Repair { search, .. } => {
            search.branch.unwrap_or(0)
        }
        Command::Work { branch, .. } => branch.unwrap_or(0),
        _ => 0,
    }
}

/// The rule of the choice at this place, if there is one. All others are dropped.
fn rule_at(choices: Vec<Choice<'_>>, place: usize) -> Option<Box<dyn Brancher>>
    ensures taken { result ≡ option_map (λ choice. choice.item) (slice_get choices.entry.items place) }
{
    let mut rest = choices;
    if place >= rest.len() {
        return None;
    }
    let choice = rest.swap_remove(place);
    Some(choice.item)
}

/// The rule that a command's search asks, if there is a choice at its place. All others are dropped.
pub fn taken(choices: Vec<Choice<'_>>, command: &Command) -> Option<Box<dyn Brancher>>
    ensures taken { result ≡ option_map (λ choice. choice.item) (slice_get choices.entry.items (place_of command.now)) }
{
    rule_at(choices, place_of(command))
}
