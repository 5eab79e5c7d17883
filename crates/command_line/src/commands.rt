ghost use Rattle.std.specs.Prelude.{◌≡◌, IfOk, MatchOption, map};
ghost use Rattle.command_line.specs.declared.commands.Command.{Command};
ghost use Rattle.command_line.specs.Commands.{IsCommandLine};
ghost use Rattle.command_line.specs.Lines.{IsCommandIn, IsCommandOfLine};

use crate::forms::{
    check, events, explain, flush, hint, models, repair, replay, show, trim, verify, work,
};
use crate::line::{Line, line_of};
use crate::names::FileName;
use crate::verbs::Verb;
use crate::words::Words;
use litmus_syntax::SiteKind;
use model_library::ShippedModel;
use std::alloc::{AllocError, Global};

/// Where the model of a command comes from.
#[derive(Debug, Drop)]
pub enum ModelName {
    /// It comes with Ferrite: the word begins with `@`.
    Shipped(ShippedModel),
    /// It is held under this name.
    File(FileName),
}

/// How a question is searched.
#[derive(Debug, Drop)]
pub struct SearchOptions {
    /// The name under which the log is kept, if one is.
    pub log: Option<FileName>,
    /// The greatest number of conflicts for a question, if there is one: from 1 to 2^32 - 1.
    pub conflicts: Option<u32>,
    /// Which of the choices that were handed in says what to decide next, counted from 0, if one is named.
    pub branch: Option<usize>,
}

/// What is asked.
#[derive(Debug, Drop)]
pub enum Command {
    /// Whether a crash answers the question of a litmus file.
    Check {
        litmus: FileName,
        model: ModelName,
        search: SearchOptions,
    },
    /// The litmus file with the syncs that make its question unreachable.
    Repair {
        litmus: FileName,
        model: ModelName,
        with: SiteKind,
        search: SearchOptions,
    },
    /// Whether a log shows that no crash answers the question.
    Verify {
        litmus: FileName,
        model: ModelName,
        log: FileName,
    },
    /// Whether a crash of a crash file answers the question.
    Replay {
        litmus: FileName,
        model: ModelName,
        crash: FileName,
    },
    /// The table of the events and of the kept pairs.
    Events {
        litmus: FileName,
        model: ModelName,
    },
    /// The litmus file in its canonical text.
    Show {
        litmus: FileName,
    },
    /// The shipped models.
    Models,
    /// A generated litmus file repaired: its seed, and how many calls it has, from 1 to 32.
    Work {
        seed: u32,
        calls: u32,
        branch: Option<usize>,
    },
    /// The lines of the model that forbid the question.
    Explain {
        litmus: FileName,
        model: ModelName,
        branch: Option<usize>,
    },
    /// The log with the clauses that each of its lines follows from, kept under the last name.
    Hint {
        litmus: FileName,
        model: ModelName,
        log: FileName,
        hinted: FileName,
    },
    /// The log without the lines that its last one doesn't need, kept under the last name.
    Trim {
        litmus: FileName,
        model: ModelName,
        log: FileName,
        trimmed: FileName,
    },
    /// A run of the machine that flushes the events: its seed, and its width, from 1 to 128.
    Flush {
        litmus: FileName,
        model: ModelName,
        seed: u32,
        width: u32,
    },
}

/// The command of this verb that the line is.
fn of_verb(
    alloc: Global,
    verb: Verb,
    line: &Line<'_>,
    choices: &[&str],
) -> Result<Option<Command>, AllocError>
    ensures { IfOk result (λ found. IsCommandIn (map (λ c. c.now) choices.now) line.now verb found) }
{
    match verb {
        Verb::Check => check(alloc, line, choices),
        Verb::Repair => repair(alloc, line, choices),
        Verb::Verify => verify(alloc, line),
        Verb::Replay => replay(alloc, line),
        Verb::Events => events(alloc, line),
        Verb::Show => show(alloc, line),
        Verb::Models => Ok(models(line)),
        Verb::Work => Ok(work(line, choices)),
        Verb::Explain => explain(alloc, line, choices),
        Verb::Hint => hint(alloc, line),
        Verb::Trim => trim(alloc, line),
        Verb::Flush => flush(alloc, line),
    }
}

/// The command that the line is.
#[tactic(auto, using(crate::proofs::OfLines::no_word, crate::proofs::OfLines::no_verb, crate::proofs::OfLines::of_line))]
fn command_in(
    alloc: Global,
    line: &Line<'_>,
    choices: &[&str],
) -> Result<Option<Command>, AllocError>
    ensures { IfOk result (λ found. MatchOption found
        ((command : Command) → IsCommandOfLine (map (λ c. c.now) choices.now) line.now command → ⊥)
        (λ command. IsCommandOfLine (map (λ c. c.now) choices.now) line.now command)) }
{
    let Some(word) = line.verb else {
        return Ok(None);
    };
    let Some(verb) = Verb::named(word) else {
        return Ok(None);
    };
    let found = of_verb(alloc, verb, line, choices)?;
    Ok(found)
}

/// The command that the words are, or None exactly where they are none. Where an option names a choice, it is the first
/// one of that word. It fails only for want of memory.
#[tactic(auto, using(crate::proofs::OfLines::no_line, crate::proofs::OfLines::of_words))]
pub fn command_of(
    alloc: Global,
    words: &Words,
    choices: &[&str],
) -> Result<Option<Command>, AllocError>
    ensures read { IfOk result (λ found. MatchOption found
        ((command : Command) → IsCommandLine words.now (map (λ choice. choice.now) choices.now) command → ⊥)
        (λ command. IsCommandLine words.now (map (λ choice. choice.now) choices.now) command)) }
{
    let Some(line) = line_of(alloc, words)? else {
        return Ok(None);
    };
    let found = command_in(alloc, &line, choices)?;
    Ok(found)
}
