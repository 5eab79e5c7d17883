ghost use Rattle.std.specs.Prelude.{◌≡◌, ℕ, ◌≤◌, List, [], length, IfOk};
ghost use Rattle.fer_outside.specs.Causes.{Rose};
ghost use Rattle.litmus_syntax.specs.Sites.{AreSyncs, StandOutside};
ghost use Rattle.call_events.specs.Resolved.{HasEvents};
ghost use Rattle.report.specs.Answers.{NoneSuffice, Repaired, Unknown};
ghost use Rattle.sync_parts.specs.Sites.{sites_present};
ghost use Rattle.ferrite_run.specs.Asking.{OnQuestion};
ghost use Rattle.ferrite_run.specs.Check.{kept_log};
ghost use Rattle.ferrite_run.specs.Done.{only};
ghost use Rattle.ferrite_run.specs.Repair.{sited_log, IsRepaired};
ghost use Rattle.ferrite_run.specs.Saying.{Replies};
ghost use Rattle.ferrite_run.specs.Sites.{AreSitesOf, ListSites, repaired_by};
ghost use Rattle.ferrite_run.specs.Usable.{AreUsable};

use crate::asking::question_of;
use crate::logging::{most_learned, replied_with};
use crate::question::Question;
use crate::saying::{Said, Stop, replied};
use crate::siting::{list_sites, numbers_of, repaired_test};
use branch_rules::Brancher;
use command_line::{FileName, ModelName, SearchOptions};
use fer_events::Crash;
use fer_outside::Library;
use litmus_syntax::{Site, SiteKind, insert};
use proof_log::Log;
use report::{NeedLine, Outcome};
use std::alloc::{AllocError, Global};
use sync_repair::{Findings, RepairAnswer, events_with};

/// With all sites the crash still answers the question.
pub fn tell_none(
    alloc: Global,
    question: &Question,
    sites: &[Site],
    crash: &Crash,
) -> Result<Said, Stop>
    requires syncs { AreSyncs sites.now }
    requires outside { StandOutside question.now.litmus.body sites.now }
    ensures told { Replies (λ done. done ≡ only (NoneSuffice crash.now (repaired_by question.now.litmus sites.now))) result }
{
    let litmus = insert(alloc, &question.litmus, sites)?;
    let litmus = &litmus;
    replied(alloc, &Outcome::NoneSuffice { crash, litmus })
}

/// The log of the findings.
fn log_of(alloc: Global, kind: SiteKind, findings: Findings) -> Result<Log, AllocError>
    requires few { length findings.set ≤ 128 }
    requires within { findings.before ≤ length findings.part.learned }
    ensures { IfOk result (λ log. log ≡ sited_log kind findings) }
{
    let Findings { set, part, before } = findings;
    let numbers = numbers_of(alloc, set.as_slice())?;
    Ok(Log::with_sites(kind, numbers, part, Some(before)))
}

/// The test is repaired by the sites of the findings, which these lines show needed.
fn tell_repaired(
    alloc: Global,
    question: &Question,
    sites: &[Site],
    kind: SiteKind,
    search: &SearchOptions,
    needs: &[NeedLine],
    findings: Findings,
) -> Result<Said, Stop>
    requires syncs { AreSyncs sites.now }
    requires outside { StandOutside question.now.litmus.body sites.now }
    requires few { length findings.set ≤ 128 }
    requires within { findings.before ≤ length findings.part.learned }
    ensures told { Replies (λ done. done ≡ record { answer = Repaired needs.now (repaired_by question.now.litmus (sites_present sites.now findings.set)); kept = kept_log search.now.log (sited_log kind findings) }) result }
{
    let litmus = repaired_test(alloc, &question.litmus, sites, findings.set.as_slice())?;
    let log = log_of(alloc, kind, findings)?;
    let litmus = &litmus;
    replied_with(alloc, &Outcome::Repaired { needs, litmus }, search, &log)
}

/// The limit was met at the question about the sites of the findings.
fn tell_open(
    alloc: Global,
    kind: SiteKind,
    search: &SearchOptions,
    limit: u32,
    findings: Findings,
) -> Result<Said, Stop>
    requires few { length findings.set ≤ 128 }
    requires within { findings.before ≤ length findings.part.learned }
    ensures told { Replies (λ done. done ≡ record { answer = Unknown limit; kept = kept_log search.now.log (sited_log kind findings) }) result }
{
    let log = log_of(alloc, kind, findings)?;
    replied_with(alloc, &Outcome::Unknown { limit }, search, &log)
}

/// Repairs the question's test by these sites.
fn repair_by(
    alloc: Global,
    question: &Question,
    sites: &[Site],
    kind: SiteKind,
    search: &SearchOptions,
    brancher: &mut Option<Box<dyn Brancher>>,
) -> Result<Said, Stop>
    requires listed { AreSitesOf question.now kind sites.now }
    requires usable { AreUsable question.now sites.now }
    ensures repaired { Replies (IsRepaired question.now kind sites.now search.now) result }
{
    let events = events_with(alloc, &question.litmus, sites)?;
    match sync_repair::repair(
        alloc,
        &question.litmus,
        &question.model,
        sites,
        &events,
        most_learned(search),
        brancher,
    )? {
        RepairAnswer::NoneSuffice(crash) => tell_none(alloc, question, sites, &crash),
        RepairAnswer::Repaired { needs, findings } => {
            findings.part.keeps_rules();
            let needs = needs.as_slice();
            tell_repaired(alloc, question, sites, kind, search, needs, findings)
        }
        RepairAnswer::Spent(findings) => {
            findings.part.keeps_rules();
            match search.conflicts {
                None => unreachable!(),
                Some(limit) => tell_open(alloc, kind, search, limit, findings),
            }
        }
    }
}

/// Repairs the question's test by sites of a kind.
fn repair_question(
    alloc: Global,
    question: &Question,
    kind: SiteKind,
    search: &SearchOptions,
    brancher: &mut Option<Box<dyn Brancher>>,
) -> Result<Said, Stop>
    requires resolved { HasEvents question.now.litmus [] question.now.events }
    ensures repaired { Replies (ListSites question.now kind (λ sites. IsRepaired question.now kind sites search.now)) result }
{
    let sites = list_sites(alloc, question, kind)?;
    repair_by(alloc, question, sites.as_slice(), kind, search, brancher)
}

/// The test with those of its sites that it needs so that no crash answers the question, each with a crash that shows it; or
/// that not even all of them suffice; or that the limit was met at some question first. A log is kept where one is asked for.
pub fn repair<L: Library>(
    alloc: Global,
    litmus: &FileName,
    model: &ModelName,
    kind: SiteKind,
    search: &SearchOptions,
    library: &mut L,
    brancher: &mut Option<Box<dyn Brancher>>,
) -> Result<Said, Stop>
    ensures answered { Replies (OnQuestion (L.held library.old) (λ other. Rose (L.faults library.old other) (L.faults library.new other)) litmus.now model.now (λ q. ListSites q kind (λ sites. IsRepaired q kind sites search.now))) result }
    ensures stays { L.held library.new ≡ L.held library.old }
    ensures never_falls { (other : List ℕ) → L.faults library.old other ≤ L.faults library.new other }
{
    let question = question_of(alloc, litmus, model, library)?;
    repair_question(alloc, &question, kind, search, brancher)
}
