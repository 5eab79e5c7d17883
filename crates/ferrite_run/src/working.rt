ghost use Rattle.std.specs.Prelude.{◌≡◌, ◌≤◌, [], length, IfOk};
ghost use Rattle.litmus_syntax.specs.declared.site.SiteKind.TheVariants.{Sync};
ghost use Rattle.call_events.specs.Resolved.{HasEvents};
ghost use Rattle.report.specs.Answers.{Work};
ghost use Rattle.ferrite_run.specs.Done.{Tells, only};
ghost use Rattle.ferrite_run.specs.Saying.{Replies};
ghost use Rattle.ferrite_run.specs.Sites.{AreSitesOf, ListSites};
ghost use Rattle.ferrite_run.specs.Usable.{AreUsable};
ghost use Rattle.ferrite_run.specs.Work.{IsWorked};
ghost use Rattle.ferrite_run.specs.Working.{IsWorkedBy, WorkSteps};

use crate::asking::asked_of;
use crate::question::Question;
use crate::reading::shipped_model;
use crate::repairing::tell_none;
use crate::saying::{Said, Stop, replied};
use crate::siting::list_sites;
use branch_rules::Brancher;
use call_events::one_outcome;
use generated_repairs::syncs_repair_generated_tests;
use generated_tests::generated_tests_are_accepted;
use litmus_syntax::{Site, SiteKind};
use model_library::{ShippedModel, make};
use question_series::count_pairs;
use report::{Outcome, Summary};
use shipped_meaning::{shipped_models_are_read, shipped_models_keep_syncs};
use std::alloc::Global;
use sync_repair::{RepairAnswer, events_with};

/// The summary of a repair that keeps this many of the sites.
fn tell_work(
    alloc: Global,
    seed: u32,
    calls: u32,
    question: &Question,
    sites: &[Site],
    kept: usize,
) -> Result<Said, Stop>
    requires events { length question.now.events.events ≤ 128 }
    requires sites { length sites.now ≤ 128 }
    requires kept { kept ≤ 128 }
    ensures told { Replies (λ done. done ≡ only (Work (record { seed = seed; calls = calls; events = length question.now.events.events; sites = length sites.now; pairs = length question.now.pairs.pairs; kept = kept }))) result }
{
    let summary = Summary {
        seed,
        calls,
        events: question.events.events().len() as u32,
        sites: sites.len() as u32,
        pairs: count_pairs(&question.pairs),
        kept: kept as u32,
    };
    replied(alloc, &Outcome::Work { summary })
}

/// Repairs the generated test by these sites, without a limit.
fn work_by(
    alloc: Global,
    seed: u32,
    calls: u32,
    question: &Question,
    sites: &[Site],
    brancher: &mut Option<Box<dyn Brancher>>,
) -> Result<Said, Stop>
    requires listed { AreSitesOf question.now Sync sites.now }
    requires usable { AreUsable question.now sites.now }
    ensures worked { Replies (Tells (IsWorkedBy seed calls question.now sites.now)) result }
{
    let events = events_with(alloc, &question.litmus, sites)?;
    match sync_repair::repair(
        alloc,
        &question.litmus,
        &question.model,
        sites,
        &events,
        u64::MAX,
        brancher,
    )? {
        RepairAnswer::NoneSuffice(crash) => tell_none(alloc, question, sites, &crash),
        RepairAnswer::Repaired { needs, .. } => {
            tell_work(alloc, seed, calls, question, sites, needs.len())
        }
        RepairAnswer::Spent(_) => unreachable!(),
    }
}

/// Repairs the generated test by its `sync` sites.
fn work_question(
    alloc: Global,
    seed: u32,
    calls: u32,
    question: &Question,
    brancher: &mut Option<Box<dyn Brancher>>,
) -> Result<Said, Stop>
    requires resolved { HasEvents question.now.litmus [] question.now.events }
    ensures worked { Replies (ListSites question.now Sync (λ sites. Tells (IsWorkedBy seed calls question.now sites))) result }
{
    let sites = list_sites(alloc, question, SiteKind::Sync)?;
    work_by(alloc, seed, calls, question, sites.as_slice(), brancher)
}

/// Makes the test of a seed with so many calls, and repairs it.
fn work_generated(
    alloc: Global,
    seed: u32,
    calls: u32,
    brancher: &mut Option<Box<dyn Brancher>>,
) -> Result<Said, Stop>
    requires some { 1 ≤ calls }
    requires few { calls ≤ 32 }
    ensures answered { Replies (WorkSteps seed calls) result }
{
    let test = make(alloc, u64::from(seed), calls)?;
    let model = shipped_model(alloc, ShippedModel::Ext4like)?;
    let question = asked_of(alloc, test, model)?;
    work_question(alloc, seed, calls, &question, brancher)
}

/// What there is of the test of a seed with so many calls, and of its repair by `sync` under the shipped `ext4like`. The test is
/// never refused, and the syncs always suffice.
pub fn work(
    alloc: Global,
    seed: u32,
    calls: u32,
    brancher: &mut Option<Box<dyn Brancher>>,
) -> Result<Said, Stop>
    requires some { 1 ≤ calls }
    requires few { calls ≤ 32 }
    ensures answered { Replies (Tells (IsWorked seed calls)) result }
{
    one_outcome();
    shipped_models_are_read();
    shipped_models_keep_syncs();
    generated_tests_are_accepted();
    syncs_repair_generated_tests();
    work_generated(alloc, seed, calls, brancher)
}
