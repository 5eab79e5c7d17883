ghost use Rattle.std.specs.Prelude.{◌≡◌, ℕ, ◌<◌, ◌≤◌, List, [], None, Some, length, IfOk};
ghost use Rattle.fer_outside.specs.Causes.{Rose};
ghost use Rattle.call_events.specs.Resolved.{HasEvents};
ghost use Rattle.sync_parts.specs.Reaching.{IsReachable};
ghost use Rattle.sync_parts.specs.Sites.{sites_present};
ghost use Rattle.sync_repair.specs.Sets.{AreKept};
ghost use Rattle.litmus_syntax.specs.declared.site.SiteKind.{SiteKind};
ghost use Rattle.ferrite_run.specs.Reading.{OnLog};
ghost use Rattle.ferrite_run.specs.Asking.{OnQuestion};
ghost use Rattle.ferrite_run.specs.Done.{Tells};
ghost use Rattle.ferrite_run.specs.Judging.{IsSatisfiable, IsJudgedOver};
ghost use Rattle.ferrite_run.specs.Saying.{Replies};
ghost use Rattle.ferrite_run.specs.Sites.{AreSitesOf};
ghost use Rattle.ferrite_run.specs.Usable.{AreUsable};
ghost use Rattle.ferrite_run.specs.Verify.{IsNamed, IsAbout, IsVerified};

use crate::asking::question_of;
use crate::clauses::{lifted_clauses, plain_clauses, sited_clauses};
use crate::question::Question;
use crate::reading::log_of;
use crate::saying::{Said, Stop, replied};
use crate::siting::{are_there, set_of, sites_for};
use clause_store::Store;
use command_line::{FileName, ModelName};
use fer_outside::Library;
use litmus_syntax::{Site, SiteKind};
use proof_log::{Log, read_logs_are_short};
use report::Outcome;
use rup_checker::laws::accepted_logs_refute;
use rup_checker::{Judgement, accept};
use std::alloc::{AllocError, Global};
use sync_parts::{fewer_sites_leave_syncs_out, present_sites};
use sync_sites::SitesFault;

/// Judges a log over a formula.
fn judge(alloc: Global, formula: Store, log: &Log) -> Result<Said, Stop>
    requires short { length log.now.part.learned < 4294967288 }
    requires few { length log.now.sites ≤ 128 }
    ensures judged { Replies (Tells (IsJudgedOver formula log.now)) result }
{
    match accept(alloc, formula, log)? {
        Judgement::Accepted => {
            let sites = log.sites().len() as u32;
            replied(alloc, &Outcome::LogAccepted { sites })
        }
        Judgement::Refused { line, kind } => {
            let kind = u32::from(kind.number());
            replied(alloc, &Outcome::LogRefused { line, kind })
        }
    }
}

/// Judges a log that is made without syncs against the question.
fn verify_plain(alloc: Global, question: &Question, log: &Log) -> Result<Said, Stop>
    requires plain { log.now.kind ≡ None }
    requires resolved { HasEvents question.now.litmus [] question.now.events }
    requires kept { AreKept question.now.model question.now.events.events question.now.pairs }
    requires short { length log.now.part.learned < 4294967288 }
    ensures verified { Replies (Tells (IsVerified question.now log.now)) result }
{
    accepted_logs_refute();
    log.keeps_rules();
    let formula = plain_clauses(alloc, question)?;
    judge(alloc, formula, log)
}

/// The clauses of the question of the test with the sites of the set.
fn first_clauses(
    alloc: Global,
    question: &Question,
    sites: &[Site],
    set: &[bool],
    log: &Log,
) -> Result<Store, AllocError>
    requires usable { AreUsable question.now sites.now }
    requires first { log.now.question ≡ None }
    ensures about { IfOk result (λ f. (kind : SiteKind) → IsNamed question.now log.now kind sites.now set.now → IsAbout question.now log.now (sites_present sites.now set.now) f) }
    ensures reached { IfOk result (λ f. IsReachable question.now.litmus question.now.model (sites_present sites.now set.now) → IsSatisfiable f) }
{
    fewer_sites_leave_syncs_out();
    let present = present_sites(alloc, sites, set)?;
    let store = sited_clauses(alloc, question, present.as_slice())?;
    Ok(store)
}

/// The clauses that a log is about which names the sites of the set.
fn clauses_about(
    alloc: Global,
    question: &Question,
    sites: &[Site],
    set: &[bool],
    log: &Log,
) -> Result<Store, AllocError>
    requires usable { AreUsable question.now sites.now }
    ensures about { IfOk result (λ f. (kind : SiteKind) → IsNamed question.now log.now kind sites.now set.now → IsAbout question.now log.now (sites_present sites.now set.now) f) }
    ensures reached { IfOk result (λ f. IsReachable question.now.litmus question.now.model (sites_present sites.now set.now) → IsSatisfiable f) }
{
    match log.question() {
        None => {
            let store = first_clauses(alloc, question, sites, set, log)?;
            Ok(store)
        }
        Some(_) => {
            let store = lifted_clauses(alloc, question, sites, set)?;
            Ok(store)
        }
    }
}

/// Judges a log that names the sites of the set.
fn verify_named(
    alloc: Global,
    question: &Question,
    kind: SiteKind,
    sites: &[Site],
    set: &[bool],
    log: &Log,
) -> Result<Said, Stop>
    requires named { IsNamed question.now log.now kind sites.now set.now }
    requires usable { AreUsable question.now sites.now }
    requires short { length log.now.part.learned < 4294967288 }
    ensures verified { Replies (Tells (IsVerified question.now log.now)) result }
{
    accepted_logs_refute();
    let formula = clauses_about(alloc, question, sites, set, log)?;
    judge(alloc, formula, log)
}

/// Judges a log that names some of these sites, if they are there.
fn verify_among(
    alloc: Global,
    question: &Question,
    kind: SiteKind,
    sites: &[Site],
    log: &Log,
) -> Result<Said, Stop>
    requires of_kind { log.now.kind ≡ Some kind }
    requires listed { AreSitesOf question.now kind sites.now }
    requires usable { AreUsable question.now sites.now }
    requires short { length log.now.part.learned < 4294967288 }
    ensures verified { Replies (Tells (IsVerified question.now log.now)) result }
{
    log.keeps_rules();
    if !are_there(log.sites(), sites.len()) {
        return replied(alloc, &Outcome::LogRefused { line: 2, kind: 5 });
    }
    let set = set_of(alloc, log.sites(), sites.len())?;
    verify_named(alloc, question, kind, sites, set.as_slice(), log)
}

/// Judges a log that is made with syncs of a kind.
fn verify_sited(alloc: Global, question: &Question, kind: SiteKind, log: &Log) -> Result<Said, Stop>
    requires of_kind { log.now.kind ≡ Some kind }
    requires resolved { HasEvents question.now.litmus [] question.now.events }
    requires short { length log.now.part.learned < 4294967288 }
    ensures verified { Replies (Tells (IsVerified question.now log.now)) result }
{
    match sites_for(alloc, question, kind) {
        Ok(sites) => verify_among(alloc, question, kind, sites.as_slice(), log),
        Err(SitesFault::TooManyEvents { .. }) => {
            replied(alloc, &Outcome::LogRefused { line: 2, kind: 5 })
        }
        Err(SitesFault::OutOfMemory) => Err(Stop::OutOfMemory),
    }
}

/// Judges the log against the question. One that names sites which aren't there is refused for them, at line 2 with kind 5.
fn verify_log(alloc: Global, question: &Question, log: &Log) -> Result<Said, Stop>
    requires resolved { HasEvents question.now.litmus [] question.now.events }
    requires kept { AreKept question.now.model question.now.events.events question.now.pairs }
    requires short { length log.now.part.learned < 4294967288 }
    ensures verified { Replies (Tells (IsVerified question.now log.now)) result }
{
    match log.kind() {
        None => verify_plain(alloc, question, log),
        Some(kind) => verify_sited(alloc, question, kind, log),
    }
}

/// Judges the log in the file of this name against the question.
fn verify_file<L: Library>(
    alloc: Global,
    question: &Question,
    name: &FileName,
    library: &mut L,
) -> Result<Said, Stop>
    requires resolved { HasEvents question.now.litmus [] question.now.events }
    requires kept { AreKept question.now.model question.now.events.events question.now.pairs }
    ensures verified { Replies (OnLog (L.held library.old) (λ other. Rose (L.faults library.old other) (L.faults library.new other)) name.now (λ read. Tells (IsVerified question.now read))) result }
    ensures stays { L.held library.new ≡ L.held library.old }
    ensures never_falls { (other : List ℕ) → L.faults library.old other ≤ L.faults library.new other }
{
    read_logs_are_short();
    let log = log_of(alloc, name, library)?;
    verify_log(alloc, question, &log)
}

/// Whether the log shows that no crash answers the question of the test with the log's sites, and else at which line it is
/// wrong, and why.
pub fn verify<L: Library>(
    alloc: Global,
    litmus: &FileName,
    model: &ModelName,
    log: &FileName,
    library: &mut L,
) -> Result<Said, Stop>
    ensures answered { Replies (OnQuestion (L.held library.old) (λ other. Rose (L.faults library.old other) (L.faults library.new other)) litmus.now model.now (λ q. OnLog (L.held library.old) (λ other. Rose (L.faults library.old other) (L.faults library.new other)) log.now (λ read. Tells (IsVerified q read)))) result }
    ensures stays { L.held library.new ≡ L.held library.old }
    ensures never_falls { (other : List ℕ) → L.faults library.old other ≤ L.faults library.new other }
{
    let question = question_of(alloc, litmus, model, library)?;
    verify_file(alloc, &question, log, library)
}
