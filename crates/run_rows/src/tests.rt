//! What the rows share: some tests and models, and a run over files in memory.

mod answers;
mod command_lines;
mod crashes;
mod listings;
mod logs;
mod repairs;
mod replays;
mod second_versions;
mod steps;

use branch_rules::{Activity, First, Last};
use fer_outside::{MemLibrary, MemSink};
use ferrite_run::{Choice, Words, run};
use std::alloc::{AllocError, Global};

const FIRST: &str =
    "litmus first\nbody:\n  create /f\n  mark done\nexists: seen(done) and not exists(/f)\n";

const REPLACE: &str =
    "litmus replace\nsetup:\ncreate /f\nwrite /f 0 \"old\"\nbody:\ncreate /g\nwrite /g 0 \"new\"\nrename /g /f\nexists: content(/f) = \"\"\n";

/// A transaction, and no crash that makes the predicate true.
const CLOSED: &str = "litmus t 2\nbody:\nbegin\ncreate /f\ncommit\nmark m\nexists: false\n";

/// A file replaced with none of the syncs.
const UNSAFE: &str =
    "litmus safe-replace\nsetup:\nmkdir /etc\ncreate /etc/conf\nwrite /etc/conf 0 \"v1\"\nbody:\ncreate /etc/conf.new\nwrite /etc/conf.new 0 \"v2\"\nrename /etc/conf.new /etc/conf\nmark saved\nalways: (content(/etc/conf) = \"v1\" or content(/etc/conf) = \"v2\") and (not seen(saved) or content(/etc/conf) = \"v2\")\n";

const SOUND_MODEL: &str = "model m\nkeep po\nend\n";

/// No line of it is bad, but its first call is refused.
const BAD_CALL: &str = "litmus x\nbody:\nwrite /f 0 \"a\"\nexists: true\n";

/// The words of a command line.
fn words_of(alloc: Global, words: &[&str]) -> Result<Words, AllocError> {
    let mut line = Words::new(alloc);
    for word in words {
        line.push(word)?;
    }
    Ok(line)
}

/// The choices for `--branch`, as the program hands them in.
fn choices(alloc: Global) -> Result<Vec<Choice<'static>>, AllocError> {
    let mut choices = Vec::new(alloc);
    choices.push(Choice {
        word: "activity",
        item: Box::new(alloc, Activity::new())?,
    })?;
    choices.push(Choice {
        word: "first",
        item: Box::new(alloc, First::new())?,
    })?;
    choices.push(Choice {
        word: "last",
        item: Box::new(alloc, Last::new())?,
    })?;
    Ok(choices)
}

/// What is written for the words over these files, where the library's call of this number fails, and the status as the last
/// byte.
fn written(
    alloc: Global,
    words: &[&str],
    files: &[(&str, &[u8])],
    failing: u64,
) -> Result<Vec<u8>, AllocError> {
    let mut library = MemLibrary::new(alloc);
    for (name, bytes) in files {
        library.put(name, bytes)?;
    }
    library.fail_at(failing)?;
    said_over(alloc, words, &mut library)
}

/// What is written for the words over this library, and the status as the last byte.
fn said_over(
    alloc: Global,
    words: &[&str],
    library: &mut MemLibrary,
) -> Result<Vec<u8>, AllocError> {
    let words = words_of(alloc, words)?;
    let mut out = MemSink::new(alloc, 1000, 1000)?;
    let status = run(alloc, &words, library, &mut out, choices(alloc)?);
    let mut all = Vec::from_slice(alloc, out.bytes())?;
    all.push(b'0' + status.min(9))?;
    Ok(all)
}

/// The words of a command on the file `a.lit`, under the sequential model where it takes one and names none.
fn words_about(command: &str) -> &'static [&'static str] {
    match command {
        "show" => &["show", "a.lit"],
        "events" => &["events", "a.lit", "@sequential"],
        "check @ext4like" => &["check", "a.lit", "@ext4like"],
        "check @loose" => &["check", "a.lit", "@loose"],
        _ => &["check", "a.lit", "@sequential"],
    }
}

/// What a command writes about a file of these bytes, and the status as the last byte.
fn written_about(alloc: Global, command: &str, bytes: &[u8]) -> Result<Vec<u8>, AllocError> {
    let files = [("a.lit", bytes)];
    written(alloc, words_about(command), files.as_slice(), 0)
}

/// The crash line of an answer that says `allowed`: what stands between the first line and the status.
fn crash_line(answer: &[u8]) -> &[u8] {
    match answer.strip_prefix(b"allowed\n") {
        Some([line @ .., b'0']) => line,
        _ => &[],
    }
}
