ghost use Rattle.std.specs.Prelude.{◌≡◌, ◌==◌, ◌+◌, ◌≤◌, ◌<◌, ◌++◌, length, take, slice_get, Some, slice_index_or, false, count_by, position, IfOk, IfSome, OnOk};
ghost use Rattle.litmus_syntax.specs.declared.site.Site.{Site};
ghost use Rattle.litmus_syntax.specs.Test.{Test};
ghost use Rattle.litmus_syntax.specs.Sites.{AreSyncs};
ghost use Rattle.call_events.specs.Resolved.{HasEvents};
ghost use Rattle.sync_parts.specs.Sites.{sites_present, present_at, calls_present, call_stays, places_present, AreInOrder, IsSiteEvent};
ghost use Rattle.sync_parts.specs.Without.{places_between};

use fer_events::{Event, Events};
use fer_list::Seq;
use litmus_syntax::{Site, Step, copy_call};
use std::alloc::{AllocError, Global};

/// Whether the site at this place is present.
fn is_present(present: &[bool], place: usize) -> bool
    ensures { result ≡ slice_index_or present.now place false }
{
    match present.get(place) {
        None => false,
        Some(here) => *here,
    }
}

/// Copies of the sites that are present, in their order. `present` has a truth value for each site; a site without one
/// isn't present.
pub fn present_sites(
    alloc: Global,
    sites: &[Site],
    present: &[bool],
) -> Result<Seq<Site>, AllocError>
    ensures { IfOk result (λ some. some ≡ sites_present sites.now present.now) }
{
    let mut some = Seq::new(alloc);
    for (place, site) in sites.iter().enumerate() {
        if is_present(present, place) {
            let after = site.after;
            let call = copy_call(alloc, &site.call)?;
            some.push(Site { after, call })?;
        }
    }
    Ok(some)
}

/// How many sites stand behind the body call of this number.
fn count_behind(sites: &[Site], number: usize) -> usize
    ensures { result ≡ count_by (λ site. site.after == number) sites.now }
{
    sites
        .iter()
        .filter(|site| site.after as usize == number)
        .count()
}

/// Whether, of the sites behind the body call of this number, the one at this place is present.
fn is_present_behind(sites: &[Site], present: &[bool], number: usize, place: usize) -> bool
    ensures { result ≡ slice_index_or (present_at number sites.now present.now) place false }
{
    let mut left = place;
    for (k, site) in sites.iter().enumerate() {
        if site.after as usize == number {
            if left == 0 {
                return is_present(present, k);
            }
            left -= 1;
        }
    }
    false
}

/// Whether the call of this number, among those of the body with all sites, stays where only some sites are present.
fn call_stays(body: &[Step], sites: &[Site], present: &[bool], call: u32) -> bool
    ensures { result ≡ call_stays (calls_present 1 body.now sites.now present.now) call }
{
    let mut left = (call as usize).saturating_sub(1);
    for place in 0..body.len() {
        if left == 0 {
            return true;
        }
        left -= 1;
        let behind = count_behind(sites, place + 1);
        if left < behind {
            return is_present_behind(sites, present, place + 1, left);
        }
        left -= behind;
    }
    false
}

/// Appends, of the sites behind the body call of this number, which are present.
fn push_behind(
    stays: &mut Vec<bool>,
    sites: &[Site],
    present: &[bool],
    number: usize,
) -> Result<(), AllocError>
    ensures { OnOk result (stays.new.items ≡ stays.old.items ++ present_at number sites.now present.now) }
{
    for (k, site) in sites.iter().enumerate() {
        if site.after as usize == number {
            stays.push(is_present(present, k))?;
        }
    }
    Ok(())
}

/// Of the calls of the body with all sites, which stay where only some sites are present.
fn staying(
    alloc: Global,
    body: &[Step],
    sites: &[Site],
    present: &[bool],
) -> Result<Vec<bool>, AllocError>
    ensures { IfOk result (λ stays. stays.items ≡ calls_present 1 body.now sites.now present.now) }
{
    let mut stays = Vec::new(alloc);
    for place in 0..body.len() {
        stays.push(true)?;
        push_behind(&mut stays, sites, present, place + 1)?;
    }
    Ok(stays)
}

/// Whether the call of this number is one of those that stay.
fn is_staying(stays: &[bool], call: u32) -> bool
    ensures { result ≡ call_stays stays.now call }
{
    is_present(stays, (call as usize).saturating_sub(1))
}

/// The places, among the events of a test with all sites, of its events where only some sites are present: their numbers,
/// counted from 1, ascending. `present` has a truth value for each site; a site without one isn't present.
pub fn places(
    alloc: Global,
    body: &[Step],
    sites: &[Site],
    present: &[bool],
    events: &Events,
) -> Result<Vec<u32>, AllocError>
    ensures { IfOk result (λ places. places.items ≡ places_present body.now sites.now present.now events.now.events) }
{
    events.keeps_rules();
    let stays = staying(alloc, body, sites, present)?;
    let mut places = Vec::new(alloc);
    for (place, event) in events.events().iter().enumerate() {
        if is_staying(stays.as_slice(), event.call) {
            places.push(place as u32 + 1)?;
        }
    }
    Ok(places)
}

/// Puts the numbers, among the events with the sites of `from`, of those with the sites of `to` into `places`. The answer
/// is how many these are.
pub fn places_between(
    body: &[Step],
    sites: &[Site],
    events: &Events,
    from: &[bool],
    to: &[bool],
    places: &mut [u32; 128],
) -> usize
    ensures within { result ≤ 128 }
    ensures places { take result places.new ≡ places_between body.now sites.now from.now to.now events.now.events }
{
    events.keeps_rules();
    let mut number = 0;
    let mut count = 0;
    for event in events.events() {
        if call_stays(body, sites, from, event.call) {
            number += 1;
            if call_stays(body, sites, to, event.call) {
                places[count] = number;
                count += 1;
            }
        }
    }
    count
}

/// The number of the call of the site at this place, among those of the body with all sites.
fn call_of_site(sites: &[Site], place: usize) -> usize
    requires there { place < length sites.now }
    ensures { (site : Site) → slice_get sites.now place ≡ Some site → result ≡ site.after + place + 1 }
{
    let site = &sites[place];
    site.after as usize + place + 1
}

/// The place of the first event of this call.
fn place_of_call(events: &[Event], call: usize) -> Option<usize>
    ensures place { result ≡ position (λ e. e.call == call) events.now }
    ensures within { IfSome result (λ k. k < length events.now) }
{
    events.iter().position(|event| event.call as usize == call)
}

/// The number of the event, counted from 1, of the site at this place, counted from 0. `sites` are all sites of a test,
/// syncs in the order of the calls that they stand behind, and `events` are those of the test with all of them; of others
/// the number says nothing.
pub fn event_of_site(events: &Events, sites: &[Site], place: usize) -> u32
    requires there { place < length sites.now }
    ensures { (litmus : Test) → AreSyncs sites.now → AreInOrder litmus.body sites.now → HasEvents litmus sites.now events.now
        → IsSiteEvent events.now.events sites.now place result }
{
    events.keeps_rules();
    let call = call_of_site(sites, place);
    match place_of_call(events.events(), call) {
        None => 0,
        Some(k) => k as u32 + 1,
    }
}
