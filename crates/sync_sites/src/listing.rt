ghost use Rattle.std.specs.Prelude.{◌≡◌, ◌<◌, ◌≤◌, ◌+◌, ◌^◌, ◌++◌, [], length, map, if◌then◌else◌, IfOk, IfErr, OnOk};
ghost use Rattle.litmus_syntax.specs.Transactions.{open_behind};
ghost use Rattle.call_events.specs.Resolved.{HasEvents};
ghost use Rattle.sync_sites.specs.SiteLists.{name_texts, syncs_behind, sites_of};
ghost use Rattle.sync_sites.specs.Faults.{IsFaultOf};

use crate::fault::SitesFault;
use crate::names::name_texts;
use crate::syncs::syncs_behind;
use fer_events::{Events, MOST_EVENTS};
use fer_list::Seq;
use litmus_syntax::{Call, Litmus, Site, SiteKind, Step, Text};
use std::alloc::{AllocError, Global};

/// Whether a transaction is open behind a call, one being open before it or not.
fn open_behind(inside: bool, call: &Call) -> bool
    ensures { result ≡ open_behind inside call.now }
{
    match call {
        Call::Begin => true,
        Call::Commit => false,
        _ => inside,
    }
}

/// Appends a site behind the call of this number for each of the syncs.
fn push_sites(sites: &mut Seq<Site>, after: u32, syncs: Seq<Call>) -> Result<(), AllocError>
    ensures { OnOk result (sites.new ≡ sites.old ++ map (λ call. record { after = after; call = call }) syncs) }
{
    for call in syncs.into_vec() {
        sites.push(Site { after, call })?;
    }
    Ok(())
}

/// Appends the sites behind the call of this number, if no transaction is open.
fn push_behind(
    alloc: Global,
    sites: &mut Seq<Site>,
    kind: SiteKind,
    events: &Events,
    texts: &[Text],
    number: u32,
    inside: bool,
) -> Result<(), AllocError>
    requires texts { texts.now ≡ name_texts events.now }
    ensures { OnOk result (sites.new ≡ sites.old ++ (if inside then [] else map (λ call. record { after = number; call = call }) (syncs_behind kind number events.now))) }
{
    if inside {
        return Ok(());
    }
    let syncs = syncs_behind(alloc, kind, events, texts, number)?;
    push_sites(sites, number, syncs)?;
    Ok(())
}

/// The sites of a body.
fn list_sites(
    alloc: Global,
    body: &[Step],
    events: &Events,
    texts: &[Text],
    kind: SiteKind,
) -> Result<Seq<Site>, SitesFault>
    requires texts { texts.now ≡ name_texts events.now }
    requires few { length body.now < 2 ^ 32 }
    ensures listed { IfOk result (λ sites. sites ≡ sites_of kind body.now events.now) }
    ensures few { IfOk result (λ sites. length events.now.events + length sites ≤ 128) }
    ensures refused { IfErr result (λ fault. IsFaultOf kind body.now events.now fault) }
{
    events.keeps_rules();
    let mut sites = Seq::new(alloc);
    let mut inside = false;
    for (place, step) in body.iter().enumerate() {
        let line = step.line;
        let number = place as u32 + 1;
        inside = open_behind(inside, &step.call);
        push_behind(alloc, &mut sites, kind, events, texts, number, inside)?;
        if events.events().len() + sites.len() > MOST_EVENTS {
            return Err(SitesFault::TooManyEvents { line });
        }
    }
    Ok(sites)
}

/// The sites of the litmus test, whose events without sites are given: the syncs of the kind that a repair may put behind
/// its calls, in order. An `fsync` is by the file's least path, paths being compared as texts. A refusal has the line of
/// the first call such that the events and the sites behind the calls up to it are more than 128.
pub fn sites(
    alloc: Global,
    litmus: &Litmus,
    events: &Events,
    kind: SiteKind,
) -> Result<Seq<Site>, SitesFault>
    requires resolved { HasEvents litmus.now [] events.now }
    ensures listed { IfOk result (λ sites. sites ≡ sites_of kind litmus.now.body events.now) }
    ensures few { IfOk result (λ sites. length events.now.events + length sites ≤ 128) }
    ensures refused { IfErr result (λ fault. IsFaultOf kind litmus.now.body events.now fault) }
{
    litmus.keeps_limits();
    events.keeps_rules();
    let texts = name_texts(alloc, events)?;
    list_sites(alloc, litmus.body(), events, texts.as_slice(), kind)
}
