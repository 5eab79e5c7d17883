ghost use Rattle.std.specs.Prelude.{◌≡◌, Bool, Some, slice_get, length, IfOk};
ghost use Rattle.litmus_syntax.specs.declared.pred.Pred.{Pred};
ghost use Rattle.fer_events.specs.Orders.{AreForward};
ghost use Rattle.predicate_coding.specs.Examples.{created};
ghost use Rattle.question_series.specs.Series.{IsAbout};

use super::*;
use fer_events::{Effect, Event, Events, Kind, Pairs, SlotName, Start, pairs_are_found};
use fer_list::Seq;
use litmus_syntax::Pred;
use sqlite_items::Boxed;
use std::alloc::{AllocError, Global};
use std::test::Fail;

fn link() -> Event
    ensures { slice_get created.events 0 ≡ Some result }
{
    Event {
        kind: Kind::Link,
        file: Some(0),
        block: None,
        dir: Some(0),
        slot: Some(0),
        call: 1,
        txn: 1,
        effect: Effect::PutName,
    }
}

fn mark() -> Event
    ensures { slice_get created.events 1 ≡ Some result }
{
    Event {
        kind: Kind::Mark,
        file: None,
        block: None,
        dir: None,
        slot: None,
        call: 2,
        txn: 2,
        effect: Effect::See { word: 0 },
    }
}

fn start(alloc: Global) -> Result<Start, AllocError>
    ensures { IfOk result (λ start. start ≡ created.start) }
{
    let mut slots = Seq::new(alloc);
    slots.push(None)?;
    let mut contents = Seq::new(alloc);
    contents.push(Seq::new(alloc))?;
    Ok(Start::new(slots, contents, Seq::new(alloc)))
}

fn calls(alloc: Global) -> Result<Seq<Event>, AllocError>
    ensures { IfOk result (λ events. events ≡ created.events) }
{
    let mut events = Seq::new(alloc);
    events.push(link())?;
    events.push(mark())?;
    Ok(events)
}

fn names(alloc: Global) -> Result<Seq<SlotName>, AllocError>
    ensures { IfOk result (λ names. names ≡ created.slots) }
{
    let name = Seq::from_slice(alloc, b"f".as_slice())?;
    let mut names = Seq::new(alloc);
    names.push(SlotName { dir: 0, name })?;
    Ok(names)
}

// `create /f`, `mark done`.
fn created(alloc: Global) -> Result<Events, AllocError>
    ensures { IfOk result (λ events. events ≡ created) }
{
    let start = start(alloc)?;
    let events = calls(alloc)?;
    let mut dirs = Seq::new(alloc);
    dirs.push(Seq::new(alloc))?;
    let slots = names(alloc)?;
    let mut words = Seq::new(alloc);
    words.push(Seq::from_slice(alloc, b"done".as_slice())?)?;
    Ok(Events::new(start, events, dirs, slots, Seq::new(alloc), words))
}

fn seen(alloc: Global) -> Result<Boxed<Pred>, AllocError> {
    let word = Seq::from_slice(alloc, b"done".as_slice())?;
    let pred = Boxed::new(alloc, Pred::Seen { word })?;
    Ok(pred)
}

fn exists(alloc: Global) -> Result<Boxed<Pred>, AllocError> {
    let mut path = Seq::new(alloc);
    path.push(Seq::from_slice(alloc, b"f".as_slice())?)?;
    let pred = Boxed::new(alloc, Pred::Exists { path })?;
    Ok(pred)
}

// `not exists(/f)`.
fn missing(alloc: Global) -> Result<Boxed<Pred>, AllocError> {
    let inner = exists(alloc)?;
    let pred = Boxed::new(alloc, Pred::Not { inner })?;
    Ok(pred)
}

// `seen(done) and not exists(/f)`.
fn gone(alloc: Global) -> Result<Boxed<Pred>, AllocError> {
    let left = seen(alloc)?;
    let right = missing(alloc)?;
    let pred = Boxed::new(alloc, Pred::And { left, right })?;
    Ok(pred)
}

// The same twice, joined by `or`.
fn gone_or_gone(alloc: Global) -> Result<Boxed<Pred>, AllocError> {
    let left = gone(alloc)?;
    let right = gone(alloc)?;
    let pred = Boxed::new(alloc, Pred::Or { left, right })?;
    Ok(pred)
}

// The link has to come before the mark.
fn ordered() -> Pairs
    ensures n { result.n ≡ 2 }
    ensures forward { AreForward 2 result.pairs }
{
    pairs_are_found();
    let mut pairs = Pairs::new(2);
    pairs.set(1, 2);
    pairs
}

// Puts down the answer where the pair is kept or no pair is: the order and the cut of a crash, 100 where there is none, or
// 101 where the question is open.
fn note_answer(
    shown: &mut Vec<u32>,
    series: &mut Series,
    events: &Events,
    kept: bool,
    limit: u64,
) -> Result<(), AllocError>
    requires two { length events.now.events ≡ 2 }
    requires about { (pred : Pred) × (want : Bool) × IsAbout series.old events.now pred want }
    ensures vars { series.new.vars ≡ series.old.vars }
    ensures clauses { series.new.clauses ≡ series.old.clauses }
{
    let pairs = if kept { ordered() } else { Pairs::new(2) };
    let mut rule = None;
    match series.ask(events, &pairs, limit, &mut rule)? {
        SeriesAnswer::Forbidden => shown.push(100)?,
        SeriesAnswer::Spent => shown.push(101)?,
        SeriesAnswer::Allowed(crash) => {
            shown.extend_from_slice(crash.order.as_slice())?;
            shown.push(crash.cut)?;
        }
    }
    Ok(())
}

// Puts down how many variables and clauses the part says where the pair is kept.
fn note_part(
    alloc: Global,
    shown: &mut Vec<u32>,
    series: &Series,
    events: &Events,
) -> Result<(), AllocError>
    requires two { length events.now.events ≡ 2 }
    requires about { (pred : Pred) × (want : Bool) × IsAbout series.now events.now pred want }
{
    let part = series.part(alloc, events, &ordered(), true)?;
    shown.push(part.vars())?;
    shown.push(part.clauses())?;
    Ok(())
}

// The answers without the pair, with it, and without it again, each with this limit, and then what the part says.
fn note_all(
    alloc: Global,
    shown: &mut Vec<u32>,
    series: &mut Series,
    events: &Events,
    limit: u64,
) -> Result<(), AllocError>
    requires two { length events.now.events ≡ 2 }
    requires about { (pred : Pred) × (want : Bool) × IsAbout series.old events.now pred want }
{
    note_answer(shown, series, events, false, limit)?;
    note_answer(shown, series, events, true, limit)?;
    note_answer(shown, series, events, false, limit)?;
    note_part(alloc, shown, series, events)?;
    Ok(())
}

fn answers_about(
    alloc: Global,
    events: &Events,
    pred: &Pred,
    limit: u64,
) -> Result<Vec<u32>, AllocError>
    requires { length events.now.events ≡ 2 }
{
    let mut series = Series::new(alloc, events, pred, true)?;
    let mut shown = Vec::new(alloc);
    note_all(alloc, &mut shown, &mut series, events, limit)?;
    Ok(shown)
}

// The same about the creation and the mark.
fn answers(alloc: Global, pred: &Pred, limit: u64) -> Result<Vec<u32>, AllocError> {
    let events = created(alloc)?;
    let shown = answers_about(alloc, &events, pred, limit)?;
    Ok(shown)
}

#[test]
fn asks_in_turn(rt: HostRuntime) -> Result<(), Fail> {
    let alloc = rt.alloc();
    let gone = gone(alloc)?;
    assert_eq!(rt;
        answers(alloc, gone.get(), 0)?.as_slice(),
        [2, 1, 1, 100, 2, 1, 1, 10, 18].as_slice()
    );
    let twice = gone_or_gone(alloc)?;
    assert_eq!(rt;
        answers(alloc, twice.get(), 0)?.as_slice(),
        [101, 101, 101, 16, 32].as_slice()
    );
    assert_eq!(rt;
        answers(alloc, twice.get(), u64::MAX)?.as_slice(),
        [2, 1, 1, 100, 2, 1, 1, 16, 32].as_slice()
    );
    Ok(())
}
