//! Ferrite's program: it hands the words of its command line, the files of the system, standard output and the rules that
//! a search may ask to `run`, which does all the rest, and ends with the status that `run` answers.
#![tactic(auto)]

use branch_rules::{Activity, First, Last};
use fer_outside::{DiskLibrary, StdSink};
use ferrite_run::{Choice, Words, run};
use std::alloc::AllocError;
use std::env;
use std::env::Env;
use std::io::ErrorKind;
use std::process::ExitCode;
use std::rt::Files;

/// The status where there is no memory for the words or the choices.
const OUT_OF_MEMORY: u8 = 9;

/// The words behind the program's name. Where one of them isn't text there are none, which is no command line.
fn words_of(rt: &(impl Env + AllocGlobal)) -> Result<Words, AllocError> {
    let mut words = Words::new(rt.alloc());
    let args = match env::args(rt) {
        Ok(args) => args,
        Err(error) if error.kind() == ErrorKind::OutOfMemory => return Err(AllocError),
        Err(_) => return Ok(words),
    };
    for word in args.skip(1) {
        words.push(word.as_str())?;
    }
    Ok(words)
}

/// Does what the words ask, and answers the status. `--branch` may name one of three rules; the first one is taken where
/// it isn't given.
fn answer(rt: &(impl AllocGlobal + Env + Files + Print)) -> Result<u8, AllocError> {
    let alloc = rt.alloc();
    let words = words_of(rt)?;
    let mut choices = Vec::new(alloc);
    choices.push(Choice {
        word: "activity",
        item: Box::new(alloc, Activity::new())?,
    })?;
    choices.push(Choice {
        word: "first",
        item: Box::new(alloc, First::new())?,
    })?;
    choices.push(Choice {
        word: "last",
        item: Box::new(alloc, Last::new())?,
    })?;
    let mut library = DiskLibrary::new(rt);
    let mut out = StdSink::new(rt);
    Ok(run(alloc, &words, &mut library, &mut out, choices))
}

fn main(rt: HostRuntime) -> ExitCode {
    match answer(&rt) {
        Ok(status) => ExitCode::from(status),
        Err(AllocError) => ExitCode::from(OUT_OF_MEMORY),
    }
}
