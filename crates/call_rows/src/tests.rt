ghost use Rattle.std.specs.Prelude.{◌≡◌, ◌≤◌, replicate, IfOk};
ghost use Rattle.litmus_syntax.specs.declared.call.Call.TheVariants.{Sync};
ghost use Rattle.call_rows.specs.Rows.{name_path, setup_steps, body_steps};

use call_events::{CallFault, CallKind, resolve};
use fer_events::{Event, Events, Kind};
use fer_list::Seq;
use litmus_syntax::{Call, Litmus, Path, Pred, Site, Step, Text};
use std::alloc::{AllocError, Global};
use std::test::Fail;

/// The path of a name of one byte in the root.
fn path(alloc: Global, name: u8) -> Result<Path, AllocError>
    ensures { IfOk result (λ path. path ≡ name_path name) }
{
    let mut text = Seq::new(alloc);
    text.push(name)?;
    let mut path = Seq::new(alloc);
    path.push(text)?;
    Ok(path)
}

/// The file `/f` with eight bytes.
fn setup(alloc: Global) -> Result<Seq<Step>, AllocError>
    ensures { IfOk result (λ steps. steps ≡ setup_steps) }
{
    let mut steps = Seq::new(alloc);
    let create = Call::Create {
        path: path(alloc, b'f')?,
    };
    steps.push(Step {
        line: 5,
        call: create,
    })?;
    let write = Call::Write {
        path: path(alloc, b'f')?,
        at: 0,
        text: Seq::from_vec(vec![in alloc; b'a'; 8]?),
    };
    steps.push(Step {
        line: 6,
        call: write,
    })?;
    Ok(steps)
}

/// A write over `/f`, and a transaction that creates `/a` and `/b`.
fn body(alloc: Global, text: Text) -> Result<Seq<Step>, AllocError>
    ensures { IfOk result (λ steps. steps ≡ body_steps text) }
{
    let mut steps = Seq::new(alloc);
    let write = Call::Write {
        path: path(alloc, b'f')?,
        at: 0,
        text,
    };
    steps.push(Step {
        line: 8,
        call: write,
    })?;
    steps.push(Step {
        line: 9,
        call: Call::Begin,
    })?;
    let first = Call::Create {
        path: path(alloc, b'a')?,
    };
    steps.push(Step {
        line: 10,
        call: first,
    })?;
    let second = Call::Create {
        path: path(alloc, b'b')?,
    };
    steps.push(Step {
        line: 11,
        call: second,
    })?;
    steps.push(Step {
        line: 12,
        call: Call::Commit,
    })?;
    Ok(steps)
}

/// The test of both, with as many bytes written.
fn litmus(alloc: Global, block: u32, sector: u32, len: usize) -> Result<Litmus, AllocError>
    requires some { 1 ≤ sector }
    requires within { sector ≤ block }
    requires block { block ≤ 65536 }
    ensures { IfOk result (λ l. l.body ≡ body_steps (replicate len 65)) }
{
    let mut name = Seq::new(alloc);
    name.push(b't')?;
    let setup = setup(alloc)?;
    let body = body(alloc, Seq::from_vec(vec![in alloc; b'A'; len]?))?;
    Ok(Litmus::new(name, block, setup, body, true, Pred::True, 13, 2, sector))
}

/// A sync, so many times, behind the last call of the body.
fn syncs(alloc: Global, count: usize) -> Result<Seq<Site>, AllocError>
    ensures { IfOk result (λ sites. sites ≡ replicate count (record { after = 5; call = Sync })) }
{
    let mut sites = Seq::new(alloc);
    for _place in 0..count {
        sites.push(Site {
            after: 5,
            call: Call::Sync,
        })?;
    }
    Ok(sites)
}

/// The events of the test with so many syncs.
fn resolved(
    alloc: Global,
    block: u32,
    sector: u32,
    len: usize,
    count: usize,
) -> Result<Events, CallFault>
    requires some { 1 ≤ sector }
    requires within { sector ≤ block }
    requires block { block ≤ 65536 }
{
    let litmus = litmus(alloc, block, sector, len)?;
    let sites = syncs(alloc, count)?;
    resolve(alloc, &litmus, sites.as_slice())
}

/// The transactions of the events.
fn txns_of(alloc: Global, events: &[Event]) -> Result<Vec<u32>, AllocError> {
    events.iter().map(|event| event.txn).collect(alloc)
}

/// The line of a refusal for too many events, and 0 of anything else.
fn line_of(outcome: Result<Events, CallFault>) -> u32 {
    match outcome {
        Err(
            CallFault::Refused {
                line,
                kind: CallKind::TooManyEvents,
            },
        ) => line,
        _ => 0,
    }
}

/// Two pieces of one block, each a transaction, then two names in one transaction.
#[test]
fn sectors_and_transactions(rt: HostRuntime) -> Result<(), Fail> {
    let found = resolved(rt.alloc(), 4, 2, 4, 0)?;
    let events = found.events();
    let txns = txns_of(rt.alloc(), events)?;
    assert!(rt; txns.as_slice() == [1, 2, 3, 3].as_slice());
    let kinds = events.iter().filter(|event| event.kind == Kind::Write);
    assert_eq!(rt; kinds.count(), 2);
    assert!(rt; events.iter().all(|event| event.block.unwrap_or(0) == 0));
    let most = resolved(rt.alloc(), 4, 2, 4, 124)?;
    assert_eq!(rt; most.events().len(), 128);
    Ok(())
}

/// The longest text, and events past each limit.
#[test]
fn limits_of_events(rt: HostRuntime) -> Result<(), Fail> {
    let found = resolved(rt.alloc(), 4096, 4096, 65_536, 0)?;
    assert_eq!(rt; found.events().len(), 18);
    assert_eq!(rt; line_of(resolved(rt.alloc(), 4, 2, 4, 125)), 12);
    assert_eq!(rt; line_of(resolved(rt.alloc(), 1, 1, 65_536, 0)), 8);
    Ok(())
}
