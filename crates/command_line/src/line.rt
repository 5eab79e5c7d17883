ghost use Rattle.std.specs.Prelude.{◌≡◌, [], ◌++◌, IfOk, OnOk, MatchOption, map, option_map, option_to_list, string_bytes, codes};
ghost use Rattle.clap.specs.Words.{app_of, rows_of, found_of, first_of, matches_of, fault_of, FailsBy};
ghost use Rattle.command_line.specs.SimpleCommand.{IsTaken, operands_app, line_app};
ghost use Rattle.command_line.specs.Lines.{IsLine};

use crate::words::Words;
use clap::error::ErrorKind;
use clap::{Arg, ArgMatches, Command, Error};
use std::alloc::{AllocError, Global};

/// The word of the command, and up to four operands.
fn operands<'a>(alloc: Global) -> Result<Command<'a>, AllocError>
    ensures { IfOk result (λ command. app_of command ≡ operands_app) }
{
    let command = Command::new(alloc, "ferrite")
        .no_binary_name(true)
        .disable_help_flag(true)
        .disable_version_flag(true);
    let command = command.arg(Arg::new(alloc, "command").required(true))?;
    let command = command.arg(Arg::new(alloc, "first"))?;
    let command = command.arg(Arg::new(alloc, "second"))?;
    let command = command.arg(Arg::new(alloc, "third"))?;
    let command = command.arg(Arg::new(alloc, "fourth"))?;
    Ok(command)
}

/// The one simple command of all command lines.
fn simple_command<'a>(alloc: Global) -> Result<Command<'a>, AllocError>
    ensures { IfOk result (λ command. app_of command ≡ line_app) }
{
    let command = operands(alloc)?;
    let command = command.arg(Arg::new(alloc, "log").long("log"))?;
    let command = command.arg(Arg::new(alloc, "conflicts").long("conflicts"))?;
    let command = command.arg(Arg::new(alloc, "with").long("with"))?;
    let command = command.arg(Arg::new(alloc, "branch").long("branch"))?;
    Ok(command)
}

/// What the words say, exactly where the simple command takes them.
fn parsed<'a>(alloc: Global, words: &'a [String]) -> Result<ArgMatches<'a>, Error>
    ensures rows { IfOk result (λ matches. rows_of (found_of matches) ≡ matches_of line_app (map (λ s. string_bytes s) words.entry.now)) }
    ensures exact { FailsBy (fault_of line_app (map (λ s. string_bytes s) words.entry.now)) result }
{
    let command = simple_command(alloc)?;
    command.try_get_matches_from(words)
}

/// What the words say, or None exactly where the simple command doesn't take them.
fn matches_in<'a>(alloc: Global, words: &'a [String]) -> Result<Option<ArgMatches<'a>>, AllocError>
    ensures { IfOk result (λ found. MatchOption found
        (IsTaken (map (λ s. string_bytes s) words.entry.now) → ⊥)
        (λ matches. IsTaken (map (λ s. string_bytes s) words.entry.now)
        × (rows_of (found_of matches) ≡ matches_of line_app (map (λ s. string_bytes s) words.entry.now)))) }
{
    match parsed(alloc, words) {
        Ok(matches) => Ok(Some(matches)),
        Err(error) => match error.kind() {
            ErrorKind::OutOfMemory => Err(AllocError),
            _ => Ok(None),
        },
    }
}

/// The values of the options, each where it is given.
#[derive(Clone, Copy, Debug)]
pub struct OptionWords<'a> {
    pub log: Option<&'a str>,
    pub conflicts: Option<&'a str>,
    pub with: Option<&'a str>,
    pub branch: Option<&'a str>,
}

/// What the simple command finds in words.
#[derive(Debug, Drop)]
pub struct Line<'a> {
    pub verb: Option<&'a str>,
    pub operands: Vec<&'a str>,
    pub options: OptionWords<'a>,
}

/// The value of this name of the simple command.
#[tactic(auto, using(crate::proofs::Matched::value_in))]
fn value<'a>(matches: &ArgMatches<'a>, name: &str) -> Option<&'a str>
    ensures { option_map (λ w. w.now) result ≡ first_of name.now (rows_of (found_of matches.now)) }
{
    matches.get_str(name)
}

/// Appends the operand of this name, if it is given.
fn push_operand<'a>(
    operands: &mut Vec<&'a str>,
    matches: &ArgMatches<'a>,
    name: &str,
) -> Result<(), AllocError>
    ensures { OnOk result (map (λ w. w.now) operands.new.items ≡ map (λ w. w.now) operands.old.items ++ option_to_list (first_of name.now (rows_of (found_of matches.now)))) }
{
    if let Some(operand) = value(matches, name) {
        operands.push(operand)?;
    }
    Ok(())
}

/// The operands that are given.
fn operands_in<'a>(alloc: Global, matches: &ArgMatches<'a>) -> Result<Vec<&'a str>, AllocError>
    ensures { IfOk result (λ operands. map (λ w. w.now) operands.items
        ≡ option_to_list (first_of (codes "first") (rows_of (found_of matches.now))) ++ option_to_list (first_of (codes "second") (rows_of (found_of matches.now)))
        ++ option_to_list (first_of (codes "third") (rows_of (found_of matches.now))) ++ option_to_list (first_of (codes "fourth") (rows_of (found_of matches.now)))) }
{
    let mut operands = Vec::new(alloc);
    push_operand(&mut operands, matches, "first")?;
    push_operand(&mut operands, matches, "second")?;
    push_operand(&mut operands, matches, "third")?;
    push_operand(&mut operands, matches, "fourth")?;
    Ok(operands)
}

/// The line of the words, or None exactly where the simple command doesn't take them.
pub fn line_of<'a>(alloc: Global, words: &'a Words) -> Result<Option<Line<'a>>, AllocError>
    ensures { IfOk result (λ found. MatchOption found (IsTaken words.entry.now → ⊥) (λ line. IsTaken words.entry.now × IsLine words.entry.now line)) }
{
    let Some(matches) = matches_in(alloc, words.as_slice())? else {
        return Ok(None);
    };
    let operands = operands_in(alloc, &matches)?;
    Ok(Some(Line {
        verb: value(&matches, "command"),
        operands,
        options: OptionWords {
            log: value(&matches, "log"),
            conflicts: value(&matches, "conflicts"),
            with: value(&matches, "with"),
            branch: value(&matches, "branch"),
        },
    }))
}
