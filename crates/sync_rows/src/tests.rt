ghost use Rattle.std.specs.Prelude.{[]};
ghost use Rattle.litmus_syntax.specs.Sites.{AreSyncs, StandOutside};
ghost use Rattle.call_events.specs.Resolved.{HasEvents};

use call_events::resolve;
use fer_events::{Crash, Events, Kind};
use fer_list::Seq;
use litmus_syntax::{Litmus, Site, SiteKind, push_number};
use numerals::push_numbers;
use std::alloc::{AllocError, Global};
use std::test::Fail;
use sync_parts::{carry, event_of_site, leave_out, places};
use sync_sites::{sites, sites_are_syncs};

// A letter for each event.
fn push_kinds(out: &mut Vec<u8>, events: &Events) -> Result<(), AllocError> {
    for event in events.events() {
        match event.kind {
            Kind::Write => out.push(b'w')?,
            Kind::Sync => out.push(b's')?,
            Kind::Mark => out.push(b'm')?,
            _ => out.push(b'?')?,
        }
    }
    Ok(())
}

// The places of the events where these sites are present.
fn push_places(
    alloc: Global,
    out: &mut Vec<u8>,
    litmus: &Litmus,
    sites: &[Site],
    events: &Events,
    present: &[bool],
) -> Result<(), AllocError> {
    let places = places(alloc, litmus.body(), sites, present, events)?;
    out.extend_from_slice(b"\nplaces")?;
    push_numbers(out, places.as_slice())?;
    Ok(())
}

// The number of the event of each site.
fn push_site_events(out: &mut Vec<u8>, sites: &[Site], events: &Events) -> Result<(), AllocError> {
    out.extend_from_slice(b"\nsites")?;
    for place in 0..sites.len() {
        out.push(b' ')?;
        push_number(out, event_of_site(events, sites, place))?;
    }
    Ok(())
}

// A crash with the first site alone, taken to one without sites.
fn push_carried(
    alloc: Global,
    out: &mut Vec<u8>,
    litmus: &Litmus,
    sites: &[Site],
    events: &Events,
) -> Result<(), AllocError>
    requires syncs { AreSyncs sites.now }
    requires outside { StandOutside litmus.now.body sites.now }
    requires events { HasEvents litmus.now sites.now events.now }
{
    let mut crash = Crash {
        order: Seq::from_vec(vec![in alloc; 3, 1, 2]?),
        cut: 1,
    };
    carry(
        litmus,
        sites,
        events,
        &[true, false],
        &[false, false],
        &mut crash,
    );
    out.extend_from_slice(b"\norder")?;
    push_numbers(out, crash.order.as_slice())?;
    out.extend_from_slice(b" cut ")?;
    push_number(out, crash.cut)?;
    Ok(())
}

// What becomes of the test with some of these sites.
fn push_parts(
    alloc: Global,
    out: &mut Vec<u8>,
    litmus: &Litmus,
    sites: &[Site],
) -> Result<(), AllocError>
    requires syncs { AreSyncs sites.now }
    requires outside { StandOutside litmus.now.body sites.now }
{
    match resolve(alloc, litmus, sites) {
        Ok(events) => {
            push_kinds(out, &events)?;
            push_places(alloc, out, litmus, sites, &events, &[false, true])?;
            push_places(alloc, out, litmus, sites, &events, &[false, false])?;
            push_site_events(out, sites, &events)?;
            push_carried(alloc, out, litmus, sites, &events)
        }
        Err(_) => Ok(()),
    }
}

// The same, with a `sync` behind each call.
fn push_listed(
    alloc: Global,
    out: &mut Vec<u8>,
    litmus: &Litmus,
    events: &Events,
) -> Result<(), AllocError>
    requires { HasEvents litmus.now [] events.now }
{
    events.keeps_rules();
    sites_are_syncs();
    match sites(alloc, litmus, events, SiteKind::Sync) {
        Ok(sites) => push_parts(alloc, out, litmus, sites.as_slice()),
        Err(_) => Ok(()),
    }
}

// The same, for a test whose calls are accepted.
fn push_resolved(alloc: Global, out: &mut Vec<u8>, litmus: &Litmus) -> Result<(), AllocError> {
    match resolve(alloc, litmus, &[]) {
        Ok(events) => push_listed(alloc, out, litmus, &events),
        Err(_) => Ok(()),
    }
}

// The write waits in the cache, and the mark is seen at once.
const WRITTEN: &[u8] = b"litmus w
block 4
setup:
  create /f
  write /f 0 \"x\"
body:
  write /f 0 \"a\"
  mark m
exists: seen(m) and content(/f) = \"x\"
";

#[test]
fn some_sites_are_present(rt: HostRuntime) -> Result<(), Fail> {
    let alloc = rt.alloc();
    let mut out = Vec::new(alloc);
    if let Ok(litmus) = litmus_reader::read(alloc, WRITTEN) {
        push_resolved(alloc, &mut out, &litmus)?;
    }
    let expected = b"wsms\nplaces 1 3 4\nplaces 1 3\nsites 2 4\norder 2 1 cut 1";
    assert!(rt; out.as_slice() == expected.as_slice());
    Ok(())
}

#[test]
fn events_are_left_out(rt: HostRuntime) -> Result<(), Fail> {
    let alloc = rt.alloc();
    let mut crash = Crash {
        order: Seq::from_vec(vec![in alloc; 3, 4, 1, 2]?),
        cut: 2,
    };
    leave_out(&mut crash, &[1, 3]);
    assert!(rt; crash.order.as_slice() == [2, 1].as_slice());
    assert_eq!(rt; crash.cut, 1);
    Ok(())
}
