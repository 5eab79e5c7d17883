ghost use Rattle.std.specs.Prelude.{◌≡◌, ◌≢◌, ◌++◌, ◌∷◌, ◌≤◌, IfOk, OnOk, codes, decimal, length};
ghost use Rattle.witness_replay.specs.declared.judgement.CrashJudgement.TheVariants.{Good};
ghost use Rattle.report.specs.EventTable.{table_text};
ghost use Rattle.report.specs.Answers.{Allowed, Unknown, CrashRefused, LogAccepted, role_word, refused_text, fault_text, reason_text, usage_text, models_text, answer_text, IsPrintable};
ghost use Rattle.report.specs.Outcomes.{answer_of};

use crate::event_table::{push_events, push_pairs};
use crate::outcome::{Outcome, Role};
use crate::repairs::{none_suffice, repaired, work};
use fer_events::{Crash, Events, Pairs};
use litmus_syntax::push_number;
use model_library::ShippedModel;
use std::alloc::{AllocError, Global};
use witness_replay::CrashJudgement;

/// A crash answers the question.
fn allowed(alloc: Global, crash: &Crash) -> Result<Vec<u8>, AllocError>
    ensures { IfOk result (λ text. text.items ≡ answer_text (Allowed crash.now)) }
{
    let line = witness_replay::print(alloc, crash)?;
    let mut out = Vec::from_slice(alloc, b"allowed\n")?;
    out.extend_from_slice(line.as_slice())?;
    Ok(out)
}

/// The question is open after so many learned clauses.
fn unknown(alloc: Global, limit: u32) -> Result<Vec<u8>, AllocError>
    ensures { IfOk result (λ text. text.items ≡ answer_text (Unknown limit)) }
{
    let mut out = Vec::from_slice(alloc, b"unknown ")?;
    push_number(&mut out, limit)?;
    out.extend_from_slice(b"\n")?;
    Ok(out)
}

/// A log shows that no crash answers the question.
fn log_accepted(alloc: Global, sites: u32) -> Result<Vec<u8>, AllocError>
    ensures { IfOk result (λ text. text.items ≡ answer_text (LogAccepted sites)) }
{
    let mut out = Vec::from_slice(alloc, b"log accepted: ")?;
    push_number(&mut out, sites)?;
    out.extend_from_slice(b" sites\n")?;
    Ok(out)
}

/// Appends a pair of events that is broken.
fn push_pair(out: &mut Vec<u8>, a: u32, b: u32) -> Result<(), AllocError>
    ensures { OnOk result (out.new.items ≡ out.old.items ++ codes "2 pair " ++ decimal a ++ codes " " ++ decimal b) }
{
    out.extend_from_slice(b"2 pair ")?;
    push_number(out, a)?;
    out.extend_from_slice(b" ")?;
    push_number(out, b)?;
    Ok(())
}

/// Appends a transaction that is split.
fn push_transaction(out: &mut Vec<u8>, txn: u32) -> Result<(), AllocError>
    ensures { OnOk result (out.new.items ≡ out.old.items ++ codes "3 transaction " ++ decimal txn) }
{
    out.extend_from_slice(b"3 transaction ")?;
    push_number(out, txn)?;
    Ok(())
}

/// Appends why a crash is refused.
fn push_reason(out: &mut Vec<u8>, judgement: CrashJudgement) -> Result<(), AllocError>
    requires { judgement ≢ Good }
    ensures { OnOk result (out.new.items ≡ out.old.items ++ reason_text judgement) }
{
    match judgement {
        // A crash without a reason isn't refused.
        CrashJudgement::Good => Ok(()),
        CrashJudgement::NotAnOrder => out.extend_from_slice(b"1"),
        CrashJudgement::PairBroken { a, b } => push_pair(out, a, b),
        CrashJudgement::TransactionSplit { txn } => push_transaction(out, txn),
        CrashJudgement::PredicateFalse => out.extend_from_slice(b"4"),
    }
}

/// A crash is refused.
fn crash_refused(alloc: Global, judgement: CrashJudgement) -> Result<Vec<u8>, AllocError>
    requires { judgement ≢ Good }
    ensures { IfOk result (λ text. text.items ≡ answer_text (CrashRefused judgement)) }
{
    let mut out = Vec::from_slice(alloc, b"crash refused: kind ")?;
    push_reason(&mut out, judgement)?;
    out.extend_from_slice(b"\n")?;
    Ok(out)
}

/// The events of a test and its kept pairs.
fn event_table(alloc: Global, events: &Events, pairs: &Pairs) -> Result<Vec<u8>, AllocError>
    requires { pairs.now.n ≡ length events.now.events }
    ensures { IfOk result (λ text. text.items ≡ table_text events.now pairs.now.pairs) }
{
    let mut out = Vec::new(alloc);
    push_events(&mut out, events)?;
    push_pairs(&mut out, pairs)?;
    Ok(out)
}

/// The models that come with Ferrite.
fn models(alloc: Global) -> Result<Vec<u8>, AllocError>
    ensures { IfOk result (λ text. text.items ≡ models_text) }
{
    let mut out = Vec::from_slice(alloc, ShippedModel::Sequential.text().as_bytes())?;
    out.extend_from_slice(ShippedModel::Ext4like.text().as_bytes())?;
    out.extend_from_slice(ShippedModel::Loose.text().as_bytes())?;
    Ok(out)
}

/// The word for the part that a file plays.
fn role_word(role: Role) -> &'static [u8]
    ensures { result.now ≡ role_word role }
{
    match role {
        Role::LitmusFile => b"litmus",
        Role::ModelFile => b"model",
        Role::LogFile => b"log",
        Role::CrashFile => b"crash",
    }
}

/// The file of this role is refused at a line, with the number of the fault's kind.
fn refused(alloc: Global, role: Role, line: u32, kind: u32) -> Result<Vec<u8>, AllocError>
    ensures { IfOk result (λ text. text.items ≡ refused_text role line kind) }
{
    let mut out = Vec::from_slice(alloc, role_word(role))?;
    out.extend_from_slice(b" refused: line ")?;
    push_number(&mut out, line)?;
    out.extend_from_slice(b" kind ")?;
    push_number(&mut out, kind)?;
    out.extend_from_slice(b"\n")?;
    Ok(out)
}

/// What went wrong with the file of this role.
fn file_fault(alloc: Global, what: &[u8], role: Role) -> Result<Vec<u8>, AllocError>
    ensures { IfOk result (λ text. text.items ≡ fault_text what.now role) }
{
    let mut out = Vec::from_slice(alloc, what)?;
    out.extend_from_slice(role_word(role))?;
    out.extend_from_slice(b"\n")?;
    Ok(out)
}

/// The words are no command line.
fn usage(alloc: Global) -> Result<Vec<u8>, AllocError>
    ensures { IfOk result (λ text. text.items ≡ usage_text) }
{
    Vec::from_slice(
        alloc,
        b"usage: ferrite check L M | repair L M | verify L M F | replay L M C | events L M | show L | models | work SEED CALLS | explain L M | hint L M F G | trim L M F G | flush L M SEED W\n",
    )
}

/// The text of an answer, each of its lines with a line feed. An error says that there was too little memory.
pub fn text(alloc: Global, outcome: &Outcome<'_>) -> Result<Vec<u8>, AllocError>
    requires { IsPrintable (answer_of outcome.now) }
    ensures { IfOk result (λ text. text.items ≡ answer_text (answer_of outcome.now)) }
{
    match outcome {
        Outcome::Allowed { crash } => allowed(alloc, crash),
        Outcome::Forbidden => Vec::from_slice(alloc, b"forbidden\n"),
        Outcome::Unknown { limit } => unknown(alloc, *limit),
        Outcome::LogAccepted { sites } => log_accepted(alloc, *sites),
        Outcome::LogRefused { line, kind } => refused(alloc, Role::LogFile, *line, *kind),
        Outcome::CrashAccepted => Vec::from_slice(alloc, b"crash accepted\n"),
        Outcome::CrashRefused { judgement } => crash_refused(alloc, *judgement),
        Outcome::CrashUnread => Vec::from_slice(alloc, b"crash refused: kind 5\n"),
        Outcome::EventTable { events, pairs } => event_table(alloc, events, pairs),
        Outcome::Shown { litmus } => litmus_syntax::print(alloc, litmus),
        Outcome::Repaired { needs, litmus } => repaired(alloc, needs, litmus),
        Outcome::NoneSuffice { crash, litmus } => none_suffice(alloc, crash, litmus),
        Outcome::Work { summary } => work(alloc, summary),
        Outcome::Models => models(alloc),
        Outcome::Usage => usage(alloc),
        Outcome::LitmusRefused { line, kind } => refused(alloc, Role::LitmusFile, *line, *kind),
        Outcome::ModelRefused { line, kind } => refused(alloc, Role::ModelFile, *line, *kind),
        Outcome::ReadFault { role } => file_fault(alloc, b"read fault: ", *role),
        Outcome::Missing { role } => file_fault(alloc, b"not found: ", *role),
    }
}
