ghost use Rattle.std.specs.Prelude.{[]};
ghost use Rattle.litmus_syntax.specs.Sites.{AreSyncs, StandOutside};
ghost use Rattle.call_events.specs.Resolved.{HasEvents};

use call_events::resolve;
use fer_events::Events;
use litmus_syntax::{Call, Litmus, Site, SiteKind, push_number, push_path};
use std::alloc::{AllocError, Global};
use std::test::Fail;
use sync_sites::{SitesFault, sites, sites_are_accepted, sites_are_syncs, too_many_or_few};

// The call that a site is behind, and its sync.
fn push_site(out: &mut Vec<u8>, site: &Site) -> Result<(), AllocError> {
    push_number(out, site.after)?;
    match &site.call {
        Call::Fsync { path } => {
            out.extend_from_slice(b" fsync ")?;
            push_path(out, path)?;
        }
        Call::FsyncDir { path } => {
            out.extend_from_slice(b" fsyncdir ")?;
            push_path(out, path)?;
        }
        Call::Sync => out.extend_from_slice(b" sync")?,
        _ => out.extend_from_slice(b" no sync")?,
    }
    out.push(b'\n')?;
    Ok(())
}

// Each site on a line of its own.
fn push_sites(out: &mut Vec<u8>, sites: &[Site]) -> Result<(), AllocError> {
    for site in sites {
        push_site(out, site)?;
    }
    Ok(())
}

// The line of a refusal.
fn push_refusal(out: &mut Vec<u8>, line: u32) -> Result<(), AllocError> {
    out.extend_from_slice(b"line ")?;
    push_number(out, line)?;
    Ok(())
}

// How many events the test has with these sites.
fn count_with(alloc: Global, litmus: &Litmus, sites: &[Site]) -> usize
    requires syncs { AreSyncs sites.now }
    requires outside { StandOutside litmus.now.body sites.now }
{
    match resolve(alloc, litmus, sites) {
        Ok(events) => events.events().len(),
        Err(_) => 0,
    }
}

// The sites of the test, or a word where the test doesn't take them.
fn push_taken(
    alloc: Global,
    out: &mut Vec<u8>,
    litmus: &Litmus,
    events: &Events,
    sites: &[Site],
) -> Result<(), AllocError>
    requires syncs { AreSyncs sites.now }
    requires outside { StandOutside litmus.now.body sites.now }
{
    if count_with(alloc, litmus, sites) != events.events().len() + sites.len() {
        out.extend_from_slice(b"refused")?;
        return Ok(());
    }
    push_sites(out, sites)
}

// The sites of the test, or the line of a refusal.
fn push_list(
    alloc: Global,
    out: &mut Vec<u8>,
    litmus: &Litmus,
    events: &Events,
    kind: SiteKind,
) -> Result<(), AllocError>
    requires { HasEvents litmus.now [] events.now }
{
    events.keeps_rules();
    sites_are_syncs();
    match sites(alloc, litmus, events, kind) {
        Ok(sites) => push_taken(alloc, out, litmus, events, sites.as_slice()),
        Err(SitesFault::TooManyEvents { line }) => push_refusal(out, line),
        Err(SitesFault::OutOfMemory) => Err(AllocError),
    }
}

// The sites of a test whose calls are accepted.
fn push_resolved(
    alloc: Global,
    out: &mut Vec<u8>,
    litmus: &Litmus,
    kind: SiteKind,
) -> Result<(), AllocError> {
    match resolve(alloc, litmus, &[]) {
        Ok(events) => push_list(alloc, out, litmus, &events, kind),
        Err(_) => Ok(()),
    }
}

// What is listed for a test: each site on a line of its own; or the line with which it is refused.
fn push_listed(
    alloc: Global,
    out: &mut Vec<u8>,
    test: &[u8],
    kind: SiteKind,
) -> Result<(), AllocError> {
    match litmus_reader::read(alloc, test) {
        Ok(litmus) => push_resolved(alloc, out, &litmus, kind),
        Err(_) => Ok(()),
    }
}

// Whether exactly these sites are listed for a test.
fn row(alloc: Global, test: &[u8], kind: SiteKind, expected: &[u8]) -> Result<bool, AllocError> {
    let mut out = Vec::new(alloc);
    push_listed(alloc, &mut out, test, kind)?;
    Ok(out.as_slice() == expected)
}

// A test whose body has this first call, and 63 marks behind it.
fn marked(alloc: Global, first: &[u8]) -> Result<Vec<u8>, AllocError> {
    let mut test = Vec::new(alloc);
    test.extend_from_slice(b"litmus marked\nbody:\n")?;
    test.extend_from_slice(first)?;
    for _mark in 0..63 {
        test.extend_from_slice(b"mark a\n")?;
    }
    test.extend_from_slice(b"exists: false\n")?;
    Ok(test)
}

const FIRST: &[u8] = b"litmus first\nbody:\n  create /f\n  mark done\nexists: true\n";

// Both files are new when the transaction is committed.
const ATOMIC: &[u8] = b"litmus atomic 2
body:
  begin
  create /a
  create /b
  commit
exists: true
";

// One file with the names `/b`, `/a/x` and `/a-`: `-` is a lesser byte than `/`.
const NAMES: &[u8] = b"litmus names
setup:
  mkdir /a
  create /b
body:
  link /b /a/x
  link /b /a-
  unlink /a-
  unlink /a/x
exists: true
";

// The file that is unlinked has no name, and the one that was made in the setup isn't touched.
const GONE: &[u8] = b"litmus gone
setup:
  mkdir /d
  create /old
  create /d/f
body:
  append /d/f \"x\"
  unlink /d/f
  fsync /old
  append /old \"\"
exists: true
";

// Files come before directories, each in the order in which they were made.
const MOVED: &[u8] = b"litmus moved
setup:
  mkdir /d
  create /z
  create /y
body:
  append /y \"1\"
  rename /z /d/z
exists: true
";

// Nothing is touched.
const UNTOUCHED: &[u8] = b"litmus still
setup:
  create /f
body:
  mark a
  sync
  mark b
exists: true
";

#[test]
fn each_kind_is_listed(rt: HostRuntime) -> Result<(), Fail> {
    let alloc = rt.alloc();
    assert!(rt;
        row(
            alloc,
            FIRST,
            SiteKind::Fsync,
            b"1 fsync /f\n1 fsyncdir /\n2 fsync /f\n2 fsyncdir /\n"
        )?
    );
    assert!(rt; row(alloc, FIRST, SiteKind::Sync, b"1 sync\n2 sync\n")?);
    assert!(rt;
        row(
            alloc,
            FIRST,
            SiteKind::All,
            b"1 fsync /f\n1 fsyncdir /\n1 sync\n2 fsync /f\n2 fsyncdir /\n2 sync\n"
        )?
    );
    assert!(rt; row(alloc, UNTOUCHED, SiteKind::Fsync, b"")?);
    assert!(rt; row(alloc, UNTOUCHED, SiteKind::All, b"1 sync\n2 sync\n3 sync\n")?);
    Ok(())
}

#[test]
fn names_and_transactions_are_respected(rt: HostRuntime) -> Result<(), Fail> {
    let alloc = rt.alloc();
    assert!(rt;
        row(
            alloc,
            ATOMIC,
            SiteKind::Fsync,
            b"4 fsync /a\n4 fsync /b\n4 fsyncdir /\n"
        )?
    );
    assert!(rt; row(alloc, ATOMIC, SiteKind::Sync, b"4 sync\n")?);
    assert!(rt;
        row(
            alloc,
            NAMES,
            SiteKind::Fsync,
            b"1 fsync /a/x\n1 fsyncdir /a\n2 fsync /a-\n2 fsyncdir /\n2 fsyncdir /a\n3 fsync /a/x\n3 fsyncdir /\n3 fsyncdir /a\n4 fsync /b\n4 fsyncdir /\n4 fsyncdir /a\n"
        )?
    );
    assert!(rt;
        row(
            alloc,
            GONE,
            SiteKind::Fsync,
            b"1 fsync /d/f\n2 fsyncdir /d\n3 fsync /old\n3 fsyncdir /d\n4 fsync /old\n4 fsyncdir /d\n"
        )?
    );
    assert!(rt;
        row(
            alloc,
            MOVED,
            SiteKind::Fsync,
            b"1 fsync /y\n2 fsync /d/z\n2 fsync /y\n2 fsyncdir /\n2 fsyncdir /d\n"
        )?
    );
    Ok(())
}

#[test]
fn too_many_are_refused(rt: HostRuntime) -> Result<(), Fail> {
    let alloc = rt.alloc();
    too_many_or_few();
    sites_are_accepted();
    // 64 events, and 64 sites behind the first 32 calls: the 33rd call stands in line 35.
    let test = marked(alloc, b"create /f\n")?;
    assert!(rt; row(alloc, test.as_slice(), SiteKind::Fsync, b"line 35")?);
    // 64 events and as many syncs are no more than 128: 9 lines of 7 bytes, and 55 of 8.
    let mut text = Vec::new(alloc);
    push_listed(alloc, &mut text, test.as_slice(), SiteKind::Sync)?;
    assert_eq!(rt; text.len(), 503);
    // With a sync in the body there are 129.
    let longer = marked(alloc, b"create /f\nsync\n")?;
    assert!(rt; row(alloc, longer.as_slice(), SiteKind::Sync, b"line 66")?);
    let marks = marked(alloc, b"mark b\n")?;
    assert!(rt; row(alloc, marks.as_slice(), SiteKind::Fsync, b"")?);
    Ok(())
}
