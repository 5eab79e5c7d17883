ghost use Rattle.std.specs.Prelude.{◌≡◌, ◌≤◌, length, All, IfOk};
ghost use Rattle.litmus_syntax.specs.Sites.{AreSyncs, StandOutside};
ghost use Rattle.fer_events.specs.Lifting.{AreLifted};
ghost use Rattle.fer_events.specs.Tables.{Trace};
ghost use Rattle.call_events.specs.Resolved.{HasEvents};
ghost use Rattle.sync_parts.specs.Sites.{places_present};
ghost use Rattle.sync_repair.specs.Sets.{AreKept, AreKeptWith};

use call_events::{CallFault, one_outcome, resolve};
use event_relations::kept;
use fer_events::{Events, Pairs, lift};
use litmus_syntax::{Litmus, Site};
use model_reader::Model;
use std::alloc::{AllocError, Global};
use sync_parts::{fewer_sites_leave_syncs_out, places, places_are_those_of_events, present_sites};

/// The events of a test with these sites, where it isn't refused with them.
pub fn events_with(alloc: Global, litmus: &Litmus, sites: &[Site]) -> Result<Events, AllocError>
    requires syncs { AreSyncs sites.now }
    requires outside { StandOutside litmus.now.body sites.now }
    requires resolved { (t : Trace) × HasEvents litmus.now sites.now t }
    ensures resolved { IfOk result (λ events. HasEvents litmus.now sites.now events) }
{
    one_outcome();
    match resolve(alloc, litmus, sites) {
        Ok(events) => Ok(events),
        Err(CallFault::OutOfMemory) => Err(AllocError),
        Err(CallFault::Refused { .. }) => unreachable!(),
    }
}

/// The pairs that the model keeps of the events of a test with these sites.
fn kept_of(
    alloc: Global,
    litmus: &Litmus,
    model: &Model,
    sites: &[Site],
) -> Result<Pairs, AllocError>
    requires syncs { AreSyncs sites.now }
    requires outside { StandOutside litmus.now.body sites.now }
    requires resolved { (t : Trace) × HasEvents litmus.now sites.now t }
    ensures kept { IfOk result (λ pairs. (t : Trace) × HasEvents litmus.now sites.now t × AreKept model.now t.events pairs) }
{
    let events = events_with(alloc, litmus, sites)?;
    let pairs = kept(alloc, model, &events)?;
    pairs.n();
    Ok(pairs)
}

/// The pairs of the events where only the sites of the set are present, in the numbers of all events.
fn lifted_with(
    alloc: Global,
    litmus: &Litmus,
    sites: &[Site],
    events: &Events,
    set: &[bool],
    some: &Pairs,
) -> Result<Pairs, AllocError>
    requires syncs { AreSyncs sites.now }
    requires outside { StandOutside litmus.now.body sites.now }
    requires resolved { HasEvents litmus.now sites.now events.now }
    requires counted { some.now.n ≡ length (places_present litmus.now.body sites.now set.now events.now.events) }
    ensures lifted { IfOk result (AreLifted (places_present litmus.now.body sites.now set.now events.now.events) (length events.now.events) some.now) }
{
    places_are_those_of_events();
    events.keeps_rules();
    let places = places(alloc, litmus.body(), sites, set, events)?;
    Ok(lift(some, places.as_slice(), events.events().len() as u32))
}

/// The pairs of the events of a test with all sites that the model keeps where only those of `set` are present: those of the
/// test with these sites, in the numbers of all events. `set` has a truth value for each site.
pub fn kept_with(
    alloc: Global,
    litmus: &Litmus,
    model: &Model,
    sites: &[Site],
    events: &Events,
    set: &[bool],
) -> Result<Pairs, AllocError>
    requires syncs { AreSyncs sites.now }
    requires outside { StandOutside litmus.now.body sites.now }
    requires resolved { HasEvents litmus.now sites.now events.now }
    ensures kept { IfOk result (λ pairs. AreKeptWith litmus.now model.now sites.now set.now events.now pairs) }
{
    fewer_sites_leave_syncs_out();
    let present = present_sites(alloc, sites, set)?;
    let some = kept_of(alloc, litmus, model, present.as_slice())?;
    let pairs = lifted_with(alloc, litmus, sites, events, set, &some)?;
    Ok(pairs)
}
