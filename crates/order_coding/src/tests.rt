ghost use Rattle.std.specs.Prelude.{◌≡◌, ◌<◌, ◌≤◌, ◌&&◌, nat_le, nat_lt, length, IsTrue, IfOk};
ghost use Rattle.std.specs.List.{list_all};
ghost use Rattle.fer_events.specs.Orders.{AreForward};
ghost use Rattle.order_coding.specs.Marks.{mark_event, mark_txn};

use super::*;
use clause_store::{Lit, Store};
use fer_events::{Effect, Event, Events, Kind, Pairs, Start, pairs_are_found};
use fer_list::Seq;
use std::alloc::{AllocError, Global};
use std::test::Fail;

// `n` marks in transactions of their own, but that mark `joined` + 1, if there is one, is in that of `joined`.
fn marks(alloc: Global, n: u32, joined: u32) -> Result<Events, AllocError>
    requires { n ≤ 128 }
    ensures { IfOk result (λ events. length events.events ≡ n) }
{
    let mut events = Seq::new(alloc);
    for e in 1..n + 1 {
        events.push(mark(e, txn_of(joined, e)))?;
    }
    let mut words = Seq::new(alloc);
    words.push(Seq::from_slice(alloc, b"m".as_slice())?)?;
    let start = Start::new(Seq::new(alloc), Seq::new(alloc), Seq::new(alloc));
    Ok(Events::new(
        start,
        events,
        Seq::new(alloc),
        Seq::new(alloc),
        Seq::new(alloc),
        words,
    ))
}

fn txn_of(joined: u32, e: u32) -> u32
    requires { 1 ≤ e }
    ensures { result ≡ mark_txn joined e }
{
    if e <= joined { e } else { e - 1 }
}

fn mark(call: u32, txn: u32) -> Event
    ensures { result ≡ mark_event call txn }
{
    Event {
        kind: Kind::Mark,
        file: None,
        block: None,
        dir: None,
        slot: None,
        call,
        txn,
        effect: Effect::See { word: 0 },
    }
}

fn pairs_of(n: u32, kept: &[(u32, u32)]) -> Pairs
    requires few { n ≤ 128 }
    requires forward { IsTrue (list_all (λ p. nat_le 1 p.0 && nat_lt p.0 p.1 && nat_le p.1 n) kept.now) }
    ensures n { result.n ≡ n }
    ensures forward { AreForward n result.pairs }
{
    pairs_are_found();
    let mut pairs = Pairs::new(n);
    for (a, b) in kept {
        pairs.set(*a, *b);
    }
    pairs
}

// How many variables and clauses the coding of marks has.
fn coded(
    alloc: Global,
    n: u32,
    joined: u32,
    kept: &[(u32, u32)],
) -> Result<(u32, usize), AllocError>
    requires few { n ≤ 128 }
    requires forward { IsTrue (list_all (λ p. nat_le 1 p.0 && nat_lt p.0 p.1 && nat_le p.1 n) kept.now) }
{
    let events = marks(alloc, n, joined)?;
    let pairs = pairs_of(n, kept);
    let mut store = Store::new(alloc, 0);
    code_order(&mut store, &events, &pairs)?;
    Ok((store.vars(), store.len()))
}

#[test]
fn numbers_variables(rt: HostRuntime) -> Result<(), Fail> {
    assert_eq!(rt; in_var(2), 2);
    assert!(rt;
        before_lit(3, 1, 2)
            == Lit {
                var: 4,
                positive: true
            }
    );
    assert!(rt;
        before_lit(3, 3, 2)
            == Lit {
                var: 6,
                positive: false
            }
    );
    Ok(())
}

#[test]
fn counts_clauses(rt: HostRuntime) -> Result<(), Fail> {
    let alloc = rt.alloc();
    assert!(rt; coded(alloc, 2, 2, &[(1, 2)])? == (3, 3));
    assert!(rt; coded(alloc, 2, 2, &[])? == (3, 2));
    assert!(rt; coded(alloc, 4, 3, &[(1, 3), (1, 4), (3, 4)])? == (10, 25));
    assert!(rt; coded(alloc, 0, 0, &[])? == (0, 0));
    Ok(())
}

#[test]
fn codes_the_most_events(rt: HostRuntime) -> Result<(), Fail> {
    assert!(rt; coded(rt.alloc(), 128, 128, &[])? == (8_256, 682_752 + 128 * 127));
    Ok(())
}

#[test]
fn decodes_values(rt: HostRuntime) -> Result<(), Fail> {
    let alloc = rt.alloc();
    let events = marks(alloc, 2, 2)?;
    let both = decode(alloc, &events, &[true, true, true, false])?;
    assert!(rt; both.order.as_slice() == [1, 2].as_slice());
    assert_eq!(rt; both.cut, 2);
    let second = decode(alloc, &events, &[false, true, false])?;
    assert!(rt; second.order.as_slice() == [2, 1].as_slice());
    assert_eq!(rt; second.cut, 1);
    Ok(())
}
