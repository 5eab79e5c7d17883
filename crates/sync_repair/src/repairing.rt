ghost use Rattle.std.specs.Prelude.{◌≡◌, ◌≢◌, length, option_map, IfOk};
ghost use Rattle.litmus_syntax.specs.Sites.{AreSyncs, StandOutside};
ghost use Rattle.call_events.specs.Resolved.{HasEvents};
ghost use Rattle.sync_shrink.specs.Walk.{IsSpent};
ghost use Rattle.sync_parts.specs.Sites.{AreInOrder, sites_present};
ghost use Rattle.sync_repair.specs.declared.findings.Findings.{Findings};
ghost use Rattle.sync_repair.specs.declared.repairing.RepairAnswer.TheVariants.{Spent};
ghost use Rattle.sync_repair.specs.Sets.{IsLeft};
ghost use Rattle.sync_repair.specs.Repairs.{IsRepair, AreNeeds};
ghost use Rattle.sync_repair.specs.Settings.{IsReady};
ghost use Rattle.sync_repair.specs.Oracles.{IsBadIn};
ghost use Rattle.sync_repair.specs.Marks.{AreLeft};
ghost use Rattle.sync_repair.specs.Found.{IsRepairIn};

use crate::asking::{Syncs, ask_set};
use crate::case::Case;
use crate::findings::{Findings, findings_of};
use crate::needs::{kept_set, need_lines};
use branch_rules::Brancher;
use fer_events::{Crash, Events};
use fer_list::Seq;
use litmus_syntax::{Litmus, Site};
use model_reader::Model;
use question_series::{Series, SeriesAnswer};
use report::NeedLine;
use std::alloc::{AllocError, Global};
use sync_shrink::{Need, ShrinkError, Shrunk, shrink};

/// What a repair comes to.
#[derive(Debug, Drop)]
pub enum RepairAnswer {
    /// With all sites this crash still answers the question.
    NoneSuffice(Crash),
    /// The sites of the findings are kept, and no crash answers the question with them; what was learned shows it. Each of
    /// them is needed, in their order.
    Repaired {
        needs: Seq<NeedLine>,
        findings: Findings,
    },
    /// As many clauses were learned for one question of the walk as was allowed, and it is open.
    Spent(Findings),
}

/// Asks once more about the set that the walk leaves, so that what was learned ends with it.
fn settle(
    alloc: Global,
    syncs: &mut Syncs<'_>,
    set: &[bool],
    needs: Seq<NeedLine>,
) -> Result<RepairAnswer, AllocError>
    requires ready { IsReady syncs.old.case syncs.old.series syncs.old.limit syncs.old.spent }
    requires left { IsLeft syncs.old.case.litmus syncs.old.case.model syncs.old.case.sites set.now }
    requires needs { AreNeeds syncs.old.case.litmus syncs.old.case.model (sites_present syncs.old.case.sites set.now) needs }
    ensures repaired { IfOk result (IsRepairIn syncs.old.case syncs.old.limit) }
    ensures endless { syncs.old.limit ≡ 18446744073709551615 → IfOk result (λ answer. (findings : Findings) → answer ≢ Spent findings) }
{
    let before = syncs.series.learned();
    match ask_set(
        alloc,
        &syncs.case,
        set,
        &mut syncs.series,
        syncs.limit,
        &mut syncs.brancher,
    )? {
        SeriesAnswer::Allowed(_) => unreachable!(),
        SeriesAnswer::Forbidden => {
            let findings = findings_of(alloc, &syncs.case, &syncs.series, set, before, true)?;
            Ok(RepairAnswer::Repaired { needs, findings })
        }
        SeriesAnswer::Spent => {
            let findings = findings_of(alloc, &syncs.case, &syncs.series, set, before, false)?;
            Ok(RepairAnswer::Spent(findings))
        }
    }
}

/// What is found where the walk keeps these needs.
fn keep(alloc: Global, syncs: &mut Syncs<'_>, needs: &[Need]) -> Result<RepairAnswer, AllocError>
    requires ready { IsReady syncs.old.case syncs.old.series syncs.old.limit syncs.old.spent }
    requires left { AreLeft syncs.old.case needs.now }
    ensures repaired { IfOk result (IsRepairIn syncs.old.case syncs.old.limit) }
    ensures endless { syncs.old.limit ≡ 18446744073709551615 → IfOk result (λ answer. (findings : Findings) → answer ≢ Spent findings) }
{
    let set = kept_set(alloc, syncs.case.sites().len(), needs)?;
    let lines = need_lines(alloc, &syncs.case, set.as_slice(), needs)?;
    let answer = settle(alloc, syncs, set.as_slice(), lines)?;
    Ok(answer)
}

/// What was learned where the walk ended at a question that was spent.
fn spent(alloc: Global, syncs: &Syncs<'_>) -> Result<RepairAnswer, AllocError>
    requires ready { IsReady syncs.now.case syncs.now.series syncs.now.limit syncs.now.spent }
    requires asked { IsSpent (IsBadIn syncs.now.case) (length syncs.now.case.sites) (option_map (λ q. q.set) syncs.now.spent) }
    ensures { IfOk result (IsRepairIn syncs.now.case syncs.now.limit) }
{
    match &syncs.spent {
        None => unreachable!(),
        Some(question) => {
            let findings = findings_of(
                alloc,
                &syncs.case,
                &syncs.series,
                question.set.as_slice(),
                question.before,
                false,
            )?;
            Ok(RepairAnswer::Spent(findings))
        }
    }
}

/// Walks over the sites.
fn walk(alloc: Global, syncs: &mut Syncs<'_>) -> Result<RepairAnswer, AllocError>
    requires ready { IsReady syncs.old.case syncs.old.series syncs.old.limit syncs.old.spent }
    ensures repaired { IfOk result (IsRepairIn syncs.old.case syncs.old.limit) }
    ensures endless { syncs.old.limit ≡ 18446744073709551615 → IfOk result (λ answer. (findings : Findings) → answer ≢ Spent findings) }
{
    match shrink(alloc, &mut *syncs) {
        Ok(Shrunk::NoneSuffice(crash)) => Ok(RepairAnswer::NoneSuffice(crash)),
        Ok(Shrunk::Kept(needs)) => {
            let answer = keep(alloc, syncs, needs.as_slice())?;
            Ok(answer)
        }
        Err(ShrinkError::Spent) => {
            let answer = spent(alloc, syncs)?;
            Ok(answer)
        }
        Err(ShrinkError::OutOfMemory) => Err(AllocError),
    }
}

/// Repairs a test by the syncs of its sites: goes through them in order and drops each without which, of those that are left,
/// no crash answers the question. `sites` are all sites, syncs in the order of the calls that they stand behind, and `events`
/// those of the test with all of them. For each question at most `limit` clauses are learned; 2^64 - 1 is no limit. The rule
/// says which variable is tried next, and nothing else hangs on it; what becomes of it is open. The only error is want of
/// memory.
pub fn repair(
    alloc: Global,
    litmus: &Litmus,
    model: &Model,
    sites: &[Site],
    events: &Events,
    limit: u64,
    brancher: &mut Option<Box<dyn Brancher>>,
) -> Result<RepairAnswer, AllocError>
    requires syncs { AreSyncs sites.now }
    requires outside { StandOutside litmus.now.body sites.now }
    requires in_order { AreInOrder litmus.now.body sites.now }
    requires resolved { HasEvents litmus.now sites.now events.now }
    ensures repaired { IfOk result (IsRepair litmus.now model.now sites.now limit) }

    // The greatest limit is never met.
    ensures endless { limit ≡ 18446744073709551615 → IfOk result (λ answer. (findings : Findings) → answer ≢ Spent findings) }
{
    let case = Case::new(litmus, model, sites, events);
    let series = Series::new(alloc, events, litmus.pred(), litmus.want())?;
    let mut syncs = Syncs {
        alloc,
        case,
        series,
        limit,
        brancher: brancher.take(),
        count: 0,
        spent: None,
    };
    let answer = walk(alloc, &mut syncs)?;
    Ok(answer)
}
