ghost use Rattle.std.specs.Prelude.{◌≡◌, ◌⊎◌, ℕ, ◌≤◌, ◌<◌, List, Some, IfOk, IfSome};
ghost use Rattle.fer_outside.specs.Causes.{Rose};
ghost use Rattle.command_line.specs.declared.commands.Command.{Command};
ghost use Rattle.ferrite_run.specs.Built.{IsBuilt};
ghost use Rattle.ferrite_run.specs.Choices.{choice_words};
ghost use Rattle.ferrite_run.specs.Found.{IsFound, IsFoundReply, IsInRange};
ghost use Rattle.ferrite_run.specs.Done.{Done};
ghost use Rattle.ferrite_run.specs.Answers.{Asks, IsReply, IsAnswer, IsFileOf, KeepsUnder};
ghost use Rattle.ferrite_run.specs.Delivering.{IsWhole, IsCutShort};
ghost use Rattle.ferrite_run.specs.Saying.{SaysOne, Replies};

use crate::built::is_built;
use crate::checking::check;
use crate::choices::{Choice, taken, words_of};
use crate::delivering::{OUT_OF_MEMORY, deliver};
use crate::listing::list;
use crate::repairing::repair;
use crate::replaying::replay;
use crate::saying::{Said, Stop, replied, say};
use crate::showing::show;
use crate::verifying::verify;
use crate::working::work;
use branch_rules::Brancher;
use command_line::{Command, Words, command_of, one_command};
use fer_outside::{Library, Sink};
use report::Outcome;
use std::alloc::{AllocError, Global};

/// What a command that is built answers.
fn reply<L: Library>(
    alloc: Global,
    command: &Command,
    library: &mut L,
    brancher: &mut Option<Box<dyn Brancher>>,
) -> Result<Said, Stop>
    requires built { IsBuilt command.now }
    requires in_range { IsInRange command.now }
    ensures replied { Replies (IsReply (L.held library.old) (λ other. Rose (L.faults library.old other) (L.faults library.new other)) command.now) result }
    ensures stays { L.held library.new ≡ L.held library.old }
    ensures never_falls { (other : List ℕ) → L.faults library.old other ≤ L.faults library.new other }
{
    match command {
        Command::Check {
            litmus,
            model,
            search,
        } => check(alloc, litmus, model, search, library, brancher),
        Command::Repair {
            litmus,
            model,
            with,
            search,
        } => repair(alloc, litmus, model, *with, search, library, brancher),
        Command::Verify { litmus, model, log } => verify(alloc, litmus, model, log, library),
        Command::Replay {
            litmus,
            model,
            crash,
        } => replay(alloc, litmus, model, crash, library),
        Command::Events { litmus, model } => list(alloc, litmus, model, library),
        Command::Show { litmus } => show(alloc, litmus, library),
        Command::Models => replied(alloc, &Outcome::Models),
        Command::Work { seed, calls, .. } => work(alloc, *seed, *calls, brancher),
        // The others aren't built.
        _ => replied(alloc, &Outcome::Usage),
    }
}

/// What is answered to a command that is built.
fn answer_command<L: Library>(
    alloc: Global,
    command: &Command,
    library: &mut L,
    brancher: &mut Option<Box<dyn Brancher>>,
) -> Result<Said, AllocError>
    requires built { IsBuilt command.now }
    requires in_range { IsInRange command.now }
    ensures replied { IfOk result (SaysOne (IsReply (L.held library.old) (λ other. Rose (L.faults library.old other) (L.faults library.new other)) command.now)) }
    ensures stays { L.held library.new ≡ L.held library.old }
    ensures never_falls { (other : List ℕ) → L.faults library.old other ≤ L.faults library.new other }
{
    match reply(alloc, command, library, brancher) {
        Ok(said) => Ok(said),
        Err(Stop::Answered(said)) => Ok(said),
        Err(Stop::OutOfMemory) => Err(AllocError),
    }
}

/// What is answered where this command was found in the words, or none.
fn answer_found<L: Library>(
    alloc: Global,
    found: &Option<Command>,
    library: &mut L,
    branchers: Vec<Choice<'_>>,
) -> Result<Said, AllocError>
    requires in_range { IfSome found.now IsInRange }
    ensures answered { IfOk result (SaysOne (IsFoundReply (L.held library.old) (λ name. Rose (L.faults library.old name) (L.faults library.new name)) found.now)) }
    ensures untouched { ((command : Command) → found.now ≡ Some command → IsBuilt command → ⊥) → library.new ≡ library.old }
    ensures stays { L.held library.new ≡ L.held library.old }
    ensures never_falls { (other : List ℕ) → L.faults library.old other ≤ L.faults library.new other }
{
    match found {
        None => say(alloc, &Outcome::Usage),
        Some(command) => {
            if is_built(command) {
                let mut brancher = taken(branchers, command);
                answer_command(alloc, command, library, &mut brancher)
            } else {
                say(alloc, &Outcome::Usage)
            }
        }
    }
}

/// The command that is found in the words, with these choices for `--branch`.
fn command_among(
    alloc: Global,
    words: &Words,
    choices: &[Choice<'_>],
) -> Result<Option<Command>, AllocError>
    ensures read { IfOk result (IsFound words.now (choice_words choices.now)) }
{
    let choices = words_of(alloc, choices)?;
    command_of(alloc, words, choices.as_slice())
}

/// What is answered to the words.
fn answer_words<L: Library>(
    alloc: Global,
    words: &Words,
    library: &mut L,
    branchers: Vec<Choice<'_>>,
) -> Result<Said, AllocError>
    ensures answered { IfOk result (SaysOne (IsAnswer (L.held library.old) (λ name. Rose (L.faults library.old name) (L.faults library.new name)) words.now (choice_words branchers.entry.items))) }
    ensures untouched { ((command : Command) → Asks words.now (choice_words branchers.entry.items) command → ⊥) → library.new ≡ library.old }
    ensures stays { L.held library.new ≡ L.held library.old }
    ensures never_falls { (other : List ℕ) → L.faults library.old other ≤ L.faults library.new other }
{
    one_command();
    match command_among(alloc, words, branchers.as_slice()) {
        Ok(found) => answer_found(alloc, &found, library, branchers),
        Err(AllocError) => Err(AllocError),
    }
}

/// Does all that the program does, and answers its status: 0 where the command's answer was written, 1 where a log or a
/// crash is refused, 2 where a search met its limit, 3 where the words are no command line, 4 where the litmus file is refused and 5 where the model is, 6
/// where a file isn't there, 7 where it can't be read, 8 where the text couldn't be written whole or a log couldn't be kept,
/// and 9 where memory was wanting. A search decides as the rule of that of `branchers` says which `--branch` names, or the
/// first one, and else by the least variable without a value; the others are dropped before a file is fetched.
pub fn run<L: Library, K: Sink>(
    alloc: Global,
    words: &Words,
    library: &mut L,
    out: &mut K,
    branchers: Vec<Choice<'_>>,
) -> u8
    // At a status below 8 it is that of an answer whose text was written whole, and what is to be kept with it was kept.
    ensures answered { result < 8 → (done : Done) × IsAnswer (L.held library.old) (λ name. Rose (L.faults library.old name) (L.faults library.new name)) words.now (choice_words branchers.entry.items) done
        × IsWhole (L.held library.old) (L.held library.new) (K.written out.old) (K.written out.new) done result }
    // At 8 a write failed, and a proper part of such a text was written, or nothing was, as what is to be kept wasn't.
    ensures cut_short { result ≡ 8 → (done : Done) × IsAnswer (L.held library.old) (λ name. Rose (L.faults library.old name) (L.faults library.new name)) words.now (choice_words branchers.entry.items) done
        × IsCutShort (L.held library.old) (L.held library.new) (λ name. Rose (L.faults library.old name) (L.faults library.new name)) (K.written out.old) (K.written out.new) (Rose (K.faults out.old) (K.faults out.new)) done }
    // At 9 no write was tried, and nothing is kept.
    ensures out_of_memory { result ≡ 9 → out.new ≡ out.old }
    ensures nothing_kept { result ≡ 9 → L.held library.new ≡ L.held library.old }
    // Where the words are no command that is built the library isn't called.
    ensures untouched { ((command : Command) → Asks words.now (choice_words branchers.entry.items) command → ⊥) → library.new ≡ library.old }
    // Where no count of faults rose and memory sufficed, the answer is that of a run without faults.
    ensures complete { ((command : Command) (name : List ℕ) → Asks words.now (choice_words branchers.entry.items) command → IsFileOf command name ⊎ KeepsUnder command name → Rose (L.faults library.old name) (L.faults library.new name) → ⊥) → (Rose (K.faults out.old) (K.faults out.new) → ⊥)
        → (result ≡ 9) ⊎ ((done : Done) × IsAnswer (L.held library.old) (λ name. ⊥) words.now (choice_words branchers.entry.items) done × IsWhole (L.held library.old) (L.held library.new) (K.written out.old) (K.written out.new) done result) }
    ensures known { result ≤ 9 }
    ensures faults_stay { (name : List ℕ) → L.faults library.old name ≤ L.faults library.new name }
    ensures write_faults_stay { K.faults out.old ≤ K.faults out.new }
{
    match answer_words(alloc, words, library, branchers) {
        Err(_) => OUT_OF_MEMORY,
        Ok(said) => deliver(alloc, &said, library, out),
    }
}
