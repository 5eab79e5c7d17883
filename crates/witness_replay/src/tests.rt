ghost use Rattle.std.specs.Prelude.{◌≡◌, ◌≤◌, length, IfOk};
ghost use Rattle.crash_state.specs.Fits.{Fits};
ghost use Rattle.order_coding.specs.Marks.{mark_event, mark_txn};

use super::*;
use crash_state::State;
use fer_events::{Crash, Effect, Event, Events, Kind, Pairs, Start};
use fer_list::Seq;
use litmus_syntax::Pred;
use std::alloc::{AllocError, Global};
use std::test::Fail;

fn mark(call: u32, txn: u32) -> Event
    ensures { result ≡ mark_event call txn }
{
    Event {
        kind: Kind::Mark,
        file: None,
        block: None,
        dir: None,
        slot: None,
        call,
        txn,
        effect: Effect::See { word: 0 },
    }
}

fn txn_of(joined: u32, e: u32) -> u32
    requires { 1 ≤ e }
    ensures { result ≡ mark_txn joined e }
{
    if e <= joined { e } else { e - 1 }
}

/// `n` marks of the word `m` in transactions of their own, but that mark `joined` + 1 is in that of `joined`.
fn marks(alloc: Global, n: u32, joined: u32) -> Result<Events, AllocError>
    requires { n ≤ 128 }
    ensures { IfOk result (λ events. length events.events ≡ n) }
{
    let mut events = Seq::new(alloc);
    for e in 1..n + 1 {
        events.push(mark(e, txn_of(joined, e)))?;
    }
    let mut words = Seq::new(alloc);
    words.push(Seq::from_slice(alloc, b"m".as_slice())?)?;
    let start = Start::new(Seq::new(alloc), Seq::new(alloc), Seq::new(alloc));
    Ok(Events::new(
        start,
        events,
        Seq::new(alloc),
        Seq::new(alloc),
        Seq::new(alloc),
        words,
    ))
}

/// Event 1 has to come before 3 and 4, and 2 before 4.
fn kept() -> Pairs
    ensures { result.n ≡ 4 }
{
    let mut pairs = Pairs::new(4);
    pairs.set(1, 3);
    pairs.set(1, 4);
    pairs.set(2, 4);
    pairs
}

/// The judgement where a mark has to be seen, or none.
fn judged_in(
    alloc: Global,
    events: &Events,
    scratch: &mut State,
    order: &[u32],
    cut: u32,
    want: bool,
) -> Result<CrashJudgement, AllocError>
    requires four { length events.now.events ≡ 4 }
    requires fits { Fits scratch.old events.now }
{
    let crash = Crash {
        order: Seq::from_slice(alloc, order)?,
        cut,
    };
    let seen = Pred::Seen {
        word: Seq::from_slice(alloc, b"m".as_slice())?,
    };
    Ok(judge(events, &kept(), &seen, want, &crash, scratch))
}

/// The same for four marks, of which 3 and 4 are of transaction 3.
fn judged(
    alloc: Global,
    order: &[u32],
    cut: u32,
    want: bool,
) -> Result<CrashJudgement, AllocError> {
    let events = marks(alloc, 4, 3)?;
    let mut scratch = State::new(alloc, &events)?;
    let judgement = judged_in(alloc, &events, &mut scratch, order, cut, want)?;
    Ok(judgement)
}

#[test]
fn crashes_are_judged_by_the_first_reason(rt: HostRuntime) -> Result<(), Fail> {
    let rows = [
        ([1, 2, 3, 4], 4, true, CrashJudgement::Good),
        ([2, 1, 4, 3], 2, true, CrashJudgement::Good),
        ([1, 2, 4, 3], 0, false, CrashJudgement::Good),
        ([1, 2, 4, 3], 0, true, CrashJudgement::PredicateFalse),
        ([1, 3, 2, 4], 1, false, CrashJudgement::PredicateFalse),
        (
            [1, 2, 3, 4],
            3,
            true,
            CrashJudgement::TransactionSplit { txn: 3 },
        ),
        (
            [2, 1, 4, 3],
            3,
            false,
            CrashJudgement::TransactionSplit { txn: 3 },
        ),
        (
            [3, 4, 1, 2],
            4,
            true,
            CrashJudgement::PairBroken { a: 1, b: 3 },
        ),
        (
            [4, 1, 3, 2],
            4,
            true,
            CrashJudgement::PairBroken { a: 1, b: 4 },
        ),
        (
            [1, 3, 4, 2],
            2,
            true,
            CrashJudgement::PairBroken { a: 2, b: 4 },
        ),
        ([1, 2, 3, 3], 4, true, CrashJudgement::NotAnOrder),
        ([1, 2, 3, 5], 4, true, CrashJudgement::NotAnOrder),
        ([0, 1, 2, 3], 4, true, CrashJudgement::NotAnOrder),
        ([3, 4, 1, 2], 5, true, CrashJudgement::NotAnOrder),
    ];
    for (order, cut, want, expected) in rows {
        let judgement = judged(rt.alloc(), order.as_slice(), cut, want)?;
        assert_eq!(rt; judgement, expected);
    }
    for order in [
        [1, 2, 3].as_slice(),
        [1, 2, 3, 4, 5].as_slice(),
        [].as_slice(),
    ] {
        let judgement = judged(rt.alloc(), order, 0, false)?;
        assert_eq!(rt; judgement, CrashJudgement::NotAnOrder);
    }
    Ok(())
}

/// The printed line of the crash that the bytes are, and nothing where they are none.
fn printed_again(alloc: Global, bytes: &[u8]) -> Result<Vec<u8>, AllocError> {
    match read(alloc, bytes) {
        Err(CrashFault::OutOfMemory) => Vec::from_slice(alloc, b"out of memory"),
        Err(CrashFault::BadText) => Ok(Vec::new(alloc)),
        Ok(crash) => {
            let text = print(alloc, &crash)?;
            Ok(text)
        }
    }
}

#[test]
fn crash_files_are_read_as_they_are_written(rt: HostRuntime) -> Result<(), Fail> {
    let rows = [
        ("order 1 3 4 | 2\n", "order 1 3 4 | 2\n"),
        ("order 1 3 4 | 2", "order 1 3 4 | 2\n"),
        ("allowed\norder 1 3 4 | 2\r\n", "order 1 3 4 | 2\n"),
        ("allowed\r\norder  1   3 004 |  2", "order 1 3 4 | 2\n"),
        ("order |", "order |\n"),
        ("order 1 |\n", "order 1 |\n"),
        (
            "order 4294967295 | 0004294967295 0",
            "order 4294967295 | 4294967295 0\n",
        ),
    ];
    for (bytes, line) in rows {
        let text = printed_again(rt.alloc(), bytes.as_bytes())?;
        assert_eq!(rt; text.as_slice(), line.as_bytes(), "at {bytes}");
    }
    for bytes in [
        "",
        "\n",
        "order",
        "order 1 2",
        "order|",
        "order 1|2",
        "order 1 |2",
        "order 1| 2",
        "order | ",
        " order |",
        "order 1 | 2 | 3",
        "order1 |",
        "orderly |",
        "Order |",
        "order\t1 |",
        "order -1 |",
        "order +1 |",
        "order 4294967296 |",
        "order | 1\r",
        "order | 1\r\r\n",
        "order |\n\n",
        "order |\norder |\n",
        "order |\nallowed\n",
        "allowed\n",
        "allowed\nallowed\norder |",
        "allowed \norder |",
    ] {
        let text = printed_again(rt.alloc(), bytes.as_bytes())?;
        assert!(rt; text.is_empty(), "at {bytes}");
    }
    Ok(())
}

#[test]
fn crash_files_have_at_most_4096_bytes(rt: HostRuntime) -> Result<(), Fail> {
    let mut bytes = Vec::from_slice(rt.alloc(), b"order")?;
    for _ in 0..4090_usize {
        bytes.push(b' ')?;
    }
    bytes.push(b'|')?;
    let text = printed_again(rt.alloc(), bytes.as_slice())?;
    assert_eq!(rt; text.as_slice(), b"order |\n".as_slice());
    bytes.push(b'\n')?;
    let text = printed_again(rt.alloc(), bytes.as_slice())?;
    assert!(rt; text.is_empty());
    Ok(())
}
