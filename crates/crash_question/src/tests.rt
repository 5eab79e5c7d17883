ghost use Rattle.std.specs.Prelude.{◌≡◌, Some, slice_get, IfOk};
ghost use Rattle.fer_events.specs.Orders.{AreForward};
ghost use Rattle.predicate_coding.specs.Examples.{created, nothing};

use super::*;
use branch_rules::{Activity, Brancher, First, Last};
use fer_events::{Effect, Event, Events, Kind, Pairs, SlotName, Start, pairs_are_found};
use fer_list::Seq;
use litmus_syntax::Pred;
use proof_log::Part;
use sqlite_items::Boxed;
use std::alloc::{AllocError, Global};
use std::test::Fail;

fn link() -> Event
    ensures { slice_get created.events 0 ≡ Some result }
{
    Event {
        kind: Kind::Link,
        file: Some(0),
        block: None,
        dir: Some(0),
        slot: Some(0),
        call: 1,
        txn: 1,
        effect: Effect::PutName,
    }
}

fn mark() -> Event
    ensures { slice_get created.events 1 ≡ Some result }
{
    Event {
        kind: Kind::Mark,
        file: None,
        block: None,
        dir: None,
        slot: None,
        call: 2,
        txn: 2,
        effect: Effect::See { word: 0 },
    }
}

fn start(alloc: Global) -> Result<Start, AllocError>
    ensures { IfOk result (λ start. start ≡ created.start) }
{
    let mut slots = Seq::new(alloc);
    slots.push(None)?;
    let mut contents = Seq::new(alloc);
    contents.push(Seq::new(alloc))?;
    Ok(Start::new(slots, contents, Seq::new(alloc)))
}

fn calls(alloc: Global) -> Result<Seq<Event>, AllocError>
    ensures { IfOk result (λ events. events ≡ created.events) }
{
    let mut events = Seq::new(alloc);
    events.push(link())?;
    events.push(mark())?;
    Ok(events)
}

fn names(alloc: Global) -> Result<Seq<SlotName>, AllocError>
    ensures { IfOk result (λ names. names ≡ created.slots) }
{
    let name = Seq::from_slice(alloc, b"f".as_slice())?;
    let mut names = Seq::new(alloc);
    names.push(SlotName { dir: 0, name })?;
    Ok(names)
}

// `create /f`, `mark done`.
fn created(alloc: Global) -> Result<Events, AllocError>
    ensures { IfOk result (λ events. events ≡ created) }
{
    let start = start(alloc)?;
    let events = calls(alloc)?;
    let mut dirs = Seq::new(alloc);
    dirs.push(Seq::new(alloc))?;
    let slots = names(alloc)?;
    let mut words = Seq::new(alloc);
    words.push(Seq::from_slice(alloc, b"done".as_slice())?)?;
    Ok(Events::new(start, events, dirs, slots, Seq::new(alloc), words))
}

// No calls.
fn nothing(alloc: Global) -> Result<Events, AllocError>
    ensures { IfOk result (λ events. events ≡ nothing) }
{
    let start = Start::new(Seq::new(alloc), Seq::new(alloc), Seq::new(alloc));
    let mut dirs = Seq::new(alloc);
    dirs.push(Seq::new(alloc))?;
    Ok(Events::new(
        start,
        Seq::new(alloc),
        dirs,
        Seq::new(alloc),
        Seq::new(alloc),
        Seq::new(alloc),
    ))
}

fn seen(alloc: Global) -> Result<Boxed<Pred>, AllocError> {
    let word = Seq::from_slice(alloc, b"done".as_slice())?;
    let pred = Boxed::new(alloc, Pred::Seen { word })?;
    Ok(pred)
}

fn exists(alloc: Global) -> Result<Boxed<Pred>, AllocError> {
    let mut path = Seq::new(alloc);
    path.push(Seq::from_slice(alloc, b"f".as_slice())?)?;
    let pred = Boxed::new(alloc, Pred::Exists { path })?;
    Ok(pred)
}

// `not exists(/f)`.
fn missing(alloc: Global) -> Result<Boxed<Pred>, AllocError> {
    let inner = exists(alloc)?;
    let pred = Boxed::new(alloc, Pred::Not { inner })?;
    Ok(pred)
}

// `seen(done) and not exists(/f)`.
fn gone(alloc: Global) -> Result<Boxed<Pred>, AllocError> {
    let left = seen(alloc)?;
    let right = missing(alloc)?;
    let pred = Boxed::new(alloc, Pred::And { left, right })?;
    Ok(pred)
}

// The same twice, joined by `or`.
fn gone_or_gone(alloc: Global) -> Result<Boxed<Pred>, AllocError> {
    let left = gone(alloc)?;
    let right = gone(alloc)?;
    let pred = Boxed::new(alloc, Pred::Or { left, right })?;
    Ok(pred)
}

// The link has to come before the mark.
fn ordered() -> Pairs
    ensures n { result.n ≡ 2 }
    ensures forward { AreForward 2 result.pairs }
{
    pairs_are_found();
    let mut pairs = Pairs::new(2);
    pairs.set(1, 2);
    pairs
}

// No rule, or one of three.
fn rule(alloc: Global, number: u32) -> Result<Option<Box<dyn Brancher>>, AllocError> {
    match number {
        1 => Ok(Some(Box::new(alloc, First::new())?)),
        2 => Ok(Some(Box::new(alloc, Last::new())?)),
        3 => Ok(Some(Box::new(alloc, Activity::new())?)),
        _ => Ok(None),
    }
}

// A number for the answer, the numbers of variables and clauses that a part says, and 1 where it is closed.
fn shown_part(alloc: Global, answer: u32, part: &Part) -> Result<Vec<u32>, AllocError> {
    let closed = if part.closed() { 1 } else { 0 };
    Vec::from_slice(alloc, &[answer, part.vars(), part.clauses(), closed])
}

// The order and the cut of a crash as one list, and otherwise 100 or 101 and what the part says.
fn shown(alloc: Global, answer: &Answer) -> Result<Vec<u32>, AllocError> {
    let mut shown = Vec::new(alloc);
    match answer {
        Answer::Forbidden(part) => return shown_part(alloc, 100, part),
        Answer::Spent(part) => return shown_part(alloc, 101, part),
        Answer::Allowed(crash) => {
            shown.extend_from_slice(crash.order.as_slice())?;
            shown.push(crash.cut)?;
        }
    }
    Ok(shown)
}

// The answer to one question about no calls, which no pair orders.
fn trivially(alloc: Global, want: bool) -> Result<Vec<u32>, AllocError> {
    let events = nothing(alloc)?;
    let mut rule = None;
    let answer = ask(
        alloc,
        &events,
        &Pairs::new(0),
        &Pred::True,
        want,
        0,
        &mut rule,
    )?;
    let shown = shown(alloc, &answer)?;
    Ok(shown)
}

// The answer to a question about the creation and the mark, by the rule of this number.
fn answered(
    alloc: Global,
    pairs: &Pairs,
    pred: &Pred,
    limit: u64,
    number: u32,
) -> Result<Vec<u32>, AllocError>
    requires size { pairs.now.n ≡ 2 }
    requires forward { AreForward 2 pairs.now.pairs }
{
    let events = created(alloc)?;
    let mut rule = rule(alloc, number)?;
    let answer = ask(alloc, &events, pairs, pred, true, limit, &mut rule)?;
    let shown = shown(alloc, &answer)?;
    Ok(shown)
}

#[test]
fn answers_by_every_rule(rt: HostRuntime) -> Result<(), Fail> {
    let alloc = rt.alloc();
    assert_eq!(rt; trivially(alloc, true)?.as_slice(), [0].as_slice());
    assert_eq!(rt;
        trivially(alloc, false)?.as_slice(),
        [100, 1, 2, 1].as_slice()
    );
    let gone = gone(alloc)?;
    let twice = gone_or_gone(alloc)?;
    let free = Pairs::new(2);
    let ordered = ordered();
    for number in 0..4 {
        assert_eq!(rt;
            answered(alloc, &free, gone.get(), 0, number)?.as_slice(),
            [2, 1, 1].as_slice()
        );
        assert_eq!(rt;
            answered(alloc, &ordered, gone.get(), 0, number)?.as_slice(),
            [100, 10, 18, 1].as_slice()
        );
        assert_eq!(rt;
            answered(alloc, &ordered, twice.get(), 0, number)?.as_slice(),
            [101, 16, 32, 0].as_slice()
        );
        assert_eq!(rt;
            answered(alloc, &ordered, twice.get(), u64::MAX, number)?.as_slice(),
            [100, 16, 32, 1].as_slice()
        );
    }
    Ok(())
}
