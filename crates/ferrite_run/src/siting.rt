//! The sites of a question's test, by their places and by their numbers.

ghost use Rattle.std.specs.Prelude.{◌≡◌, ◌≤◌, [], length, nat_le, All, IfOk, IfErr};
ghost use Rattle.std.specs.List.{list_all};
ghost use Rattle.std.specs.List.Sorted.{IsStrictlyIncreasing};
ghost use Rattle.litmus_syntax.specs.Sites.{AreSyncs, StandOutside};
ghost use Rattle.call_events.specs.Resolved.{HasEvents};
ghost use Rattle.sync_sites.specs.Faults.{IsFaultOf};
ghost use Rattle.sync_parts.specs.Sites.{sites_present};
ghost use Rattle.ferrite_run.specs.Done.{Tells};
ghost use Rattle.ferrite_run.specs.Repair.{site_numbers};
ghost use Rattle.ferrite_run.specs.Saying.{StopsWith};
ghost use Rattle.ferrite_run.specs.Sites.{AreSitesOf, HasTooMany, repaired_by};
ghost use Rattle.ferrite_run.specs.Usable.{is_named, AreUsable};

use crate::question::Question;
use crate::saying::{Stop, stopped};
use call_events::CallKind;
use fer_list::Seq;
use litmus_syntax::{Litmus, Site, SiteKind, insert};
use report::Outcome;
use std::alloc::{AllocError, Global};
use sync_parts::present_sites;
use sync_sites::{SitesFault, sites, sites_are_accepted, sites_are_syncs};

/// All sites of the question's test of this kind, or why there are too many events with them.
pub fn sites_for(
    alloc: Global,
    question: &Question,
    kind: SiteKind,
) -> Result<Seq<Site>, SitesFault>
    requires resolved { HasEvents question.now.litmus [] question.now.events }
    ensures listed { IfOk result (AreSitesOf question.now kind) }
    ensures usable { IfOk result (AreUsable question.now) }
    ensures refused { IfErr result (IsFaultOf kind question.now.litmus.body question.now.events) }
{
    sites_are_syncs();
    sites_are_accepted();
    question.litmus.keeps_limits();
    question.events.keeps_rules();
    let sites = sites(alloc, &question.litmus, &question.events, kind)?;
    Ok(sites)
}

/// The sites, where a command lists them.
pub fn list_sites(alloc: Global, question: &Question, kind: SiteKind) -> Result<Seq<Site>, Stop>
    requires resolved { HasEvents question.now.litmus [] question.now.events }
    ensures listed { IfOk result (AreSitesOf question.now kind) }
    ensures usable { IfOk result (AreUsable question.now) }
    ensures refused { IfErr result (StopsWith (Tells (HasTooMany question.now kind))) }
{
    match sites_for(alloc, question, kind) {
        Ok(sites) => Ok(sites),
        Err(SitesFault::TooManyEvents { line }) => {
            let kind = CallKind::TooManyEvents.number();
            Err(stopped(alloc, &Outcome::LitmusRefused { line, kind }))
        }
        Err(SitesFault::OutOfMemory) => Err(Stop::OutOfMemory),
    }
}

/// The test with the calls of the sites of a set.
pub fn repaired_test(
    alloc: Global,
    litmus: &Litmus,
    sites: &[Site],
    set: &[bool],
) -> Result<Litmus, AllocError>
    requires syncs { AreSyncs sites.now }
    requires outside { StandOutside litmus.now.body sites.now }
    ensures { IfOk result (λ test. test ≡ repaired_by litmus.now (sites_present sites.now set.now)) }
{
    let present = present_sites(alloc, sites, set)?;
    insert(alloc, litmus, present.as_slice())
}

/// The numbers of the sites of a set, counted from 1.
pub fn numbers_of(alloc: Global, set: &[bool]) -> Result<Seq<u32>, AllocError>
    requires few { length set.now ≤ 128 }
    ensures { IfOk result (λ numbers. numbers ≡ site_numbers set.now) }
{
    let mut numbers = Seq::new(alloc);
    for place in 0..set.len() {
        if set[place] {
            numbers.push(place as u32 + 1)?;
        }
    }
    Ok(numbers)
}

/// Whether there are as many sites as each of the numbers says.
pub fn are_there(numbers: &[u32], count: usize) -> bool
    ensures { result ≡ list_all (λ n. nat_le n count) numbers.now }
{
    numbers.iter().all(|number| *number as usize <= count)
}

/// Whether the number is one of these.
fn is_among(numbers: &[u32], number: usize) -> bool
    ensures { result ≡ is_named numbers.now number }
{
    numbers.iter().any(|other| *other as usize == number)
}

/// The set, among so many sites, of those that have these numbers.
pub fn set_of(alloc: Global, numbers: &[u32], count: usize) -> Result<Vec<bool>, AllocError>
    requires ascending { IsStrictlyIncreasing numbers.now }
    requires numbered { All (λ n. (1 ≤ n) × (n ≤ 4294967295)) numbers.now }
    requires within { All (λ n. n ≤ count) numbers.now }
    requires room { count ≤ 128 }
    ensures numbers { IfOk result (λ set. numbers.now ≡ site_numbers set.items) }
    ensures full { IfOk result (λ set. length set.items ≡ count) }
{
    let mut set = Vec::new(alloc);
    for place in 0..count {
        set.push(is_among(numbers, place + 1))?;
    }
    Ok(set)
}
