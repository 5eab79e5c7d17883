ghost use Rattle.std.specs.Prelude.{◌≡◌, ◌<◌, ◌≤◌, ◌+◌, ◌-◌, ◌++◌, [], length, replicate, Ok, None, IfOk, IfErr, OnOk};
ghost use Rattle.litmus_syntax.specs.Sites.{AreSyncs, StandOutside};
ghost use Rattle.fer_events.specs.Tables.{IsTrace};
ghost use Rattle.call_events.specs.Resolved.{start_of, trace_from, body_of, HasEvents, IsFaultOf, IsAnswerFor};
ghost use Rattle.call_events.specs.Running.{unless_refused};
ghost use Rattle.call_events.specs.Asking.{asked, question_refusal};
ghost use Rattle.call_events.specs.Small.{IsSmall};
ghost use Rattle.call_events.specs.Runs.{IsConsistent, AreFormed};

use crate::asking::ask_question;
use crate::call_kind::CallFault;
use crate::contents::Content;
use crate::files::{Files, Progress};
use crate::making::Sizes;
use crate::running::{run_body, set_up};
use fer_events::{AttrValue, Event, Events, SlotName, Start};
use fer_list::Seq;
use litmus_syntax::{
    Litmus, Path, Site, Text, body_with_sites, copy_path, copy_text, inserted_within_limits,
};
use name_tables::{Numbered, SlotTable};
use std::alloc::{AllocError, Global};

/// The file that each slot holds, for as many slots more as hold none.
fn held_before(
    alloc: Global,
    held: &[Option<u32>],
    count: usize,
) -> Result<Seq<Option<u32>>, AllocError>
    ensures { IfOk result (λ all. all ≡ held.now ++ replicate (count - length held.now) None) }
{
    let mut all = Seq::from_slice(alloc, held)?;
    for _place in 0..count.saturating_sub(held.len()) {
        all.push(None)?;
    }
    Ok(all)
}

/// Copies of the contents.
fn copy_contents(alloc: Global, contents: &[Content]) -> Result<Seq<Text>, AllocError>
    ensures { IfOk result (λ all. all ≡ contents.now) }
{
    let mut all = Seq::new(alloc);
    for content in contents {
        all.push(copy_text(alloc, content.as_slice())?)?;
    }
    Ok(all)
}

/// The texts of a table, in the order of their numbers.
fn copy_texts(alloc: Global, table: &Numbered<u8>) -> Result<Seq<Text>, AllocError>
    ensures { IfOk result (λ all. all ≡ table.now) }
{
    let mut all = Seq::new(alloc);
    for number in 0..table.len() {
        all.push(copy_text(alloc, table.entry(number))?)?;
    }
    Ok(all)
}

/// The paths of a table, in the order of their numbers.
fn copy_paths(alloc: Global, table: &Numbered<Text>) -> Result<Seq<Path>, AllocError>
    ensures { IfOk result (λ all. all ≡ table.now) }
{
    let mut all = Seq::new(alloc);
    for number in 0..table.len() {
        all.push(copy_path(alloc, table.entry(number))?)?;
    }
    Ok(all)
}

/// The slots of a table, in the order of their numbers.
fn copy_slots(alloc: Global, table: &SlotTable) -> Result<Seq<SlotName>, AllocError>
    ensures { IfOk result (λ all. all ≡ table.now) }
{
    let mut all = Seq::new(alloc);
    for number in 0..table.len() {
        let (dir, name) = table.slot(number);
        let name = copy_text(alloc, name)?;
        all.push(SlotName { dir, name })?;
    }
    Ok(all)
}

/// Appends empty contents until there are as many as files.
fn add_empty(alloc: Global, contents: &mut Seq<Text>, count: usize) -> Result<(), AllocError>
    ensures { OnOk result (contents.new ≡ contents.old ++ replicate (count - length contents.old) []) }
{
    for _place in 0..count.saturating_sub(contents.len()) {
        contents.push(Seq::new(alloc))?;
    }
    Ok(())
}

/// The state before the body: a name that the body or the question uses first holds no file, and a file that the body
/// creates is empty.
fn start_of(
    alloc: Global,
    held: &[Option<u32>],
    contents: Seq<Text>,
    attrs: Seq<AttrValue>,
    files: &Files,
) -> Result<Start, AllocError>
    ensures { IfOk result (λ start. start ≡ start_of held.now contents attrs files.now) }
{
    let held = held_before(alloc, held, files.slots.len())?;
    let mut contents = contents;
    add_empty(alloc, &mut contents, files.contents.len())?;
    Ok(Start::new(held, contents, attrs))
}

/// What the tables number, in the order of the numbers.
#[derive(Drop)]
struct Tables {
    dirs: Seq<Path>,
    slots: Seq<SlotName>,
    keys: Seq<Text>,
    words: Seq<Text>,
}

/// The tables of the files.
fn tables_of(alloc: Global, files: &Files) -> Result<Tables, AllocError>
    ensures { IfOk result (λ t. t ≡ record { dirs = files.now.dirs; slots = files.now.slots; keys = files.now.keys; words = files.now.words }) }
{
    let dirs = copy_paths(alloc, &files.dirs)?;
    let slots = copy_slots(alloc, &files.slots)?;
    let keys = copy_texts(alloc, &files.keys)?;
    let words = copy_texts(alloc, &files.words)?;
    Ok(Tables {
        dirs,
        slots,
        keys,
        words,
    })
}

/// The events that a body left, with the state before them.
fn close(
    alloc: Global,
    held: &[Option<u32>],
    contents: Seq<Text>,
    attrs: Seq<AttrValue>,
    files: &Files,
    events: Seq<Event>,
) -> Result<Events, AllocError>
    requires { IsTrace (trace_from (start_of held.now contents attrs files.now) files.now events) }
    ensures { IfOk result (λ e. e ≡ trace_from (start_of held.now contents attrs files.now) files.now events) }
{
    let start = start_of(alloc, held, contents, attrs, files)?;
    let Tables {
        dirs,
        slots,
        keys,
        words,
    } = tables_of(alloc, files)?;
    Ok(Events::new(start, events, dirs, slots, keys, words))
}

/// The events that a body left, with the state before them, unless the question is refused.
fn ask_and_close(
    alloc: Global,
    litmus: &Litmus,
    held: &[Option<u32>],
    contents: Seq<Text>,
    attrs: Seq<AttrValue>,
    progress: Progress,
) -> Result<Events, CallFault>
    requires dirs { length progress.files.dirs ≤ 16 }
    requires formed { AreFormed progress.files }
    requires rules { question_refusal progress.files litmus.now.pred ≡ None → AreFormed (asked progress.files litmus.now.pred) → IsTrace (trace_from (start_of held.now contents attrs (asked progress.files litmus.now.pred)) (asked progress.files litmus.now.pred) progress.events) }
    ensures { IsAnswerFor (unless_refused (question_refusal progress.files litmus.now.pred) litmus.now.pred_line (Ok (trace_from (start_of held.now contents attrs (asked progress.files litmus.now.pred)) (asked progress.files litmus.now.pred) progress.events))) result }
{
    let Progress {
        mut files,
        events,
        ..
    } = progress;
    litmus.keeps_limits();
    if let Some(kind) = ask_question(alloc, &mut files, litmus.pred())? {
        let line = litmus.pred_line();
        return Err(CallFault::Refused { line, kind });
    }
    let events = close(alloc, held, contents, attrs, &files, events)?;
    Ok(events)
}

/// The events of the body with its sites, and of the question, on the files that the setup left.
fn resolve_body(
    alloc: Global,
    litmus: &Litmus,
    sites: &[Site],
    files: Files,
) -> Result<Events, CallFault>
    requires syncs { AreSyncs sites.now }
    requires small { IsSmall files }
    requires unmarked { files.words ≡ [] }
    requires outside { StandOutside litmus.now.body sites.now }
    requires whole { IsConsistent files }
    requires formed { AreFormed files }
    ensures { IsAnswerFor (body_of litmus.now sites.now (Ok files)) result }
{
    litmus.keeps_limits();
    inserted_within_limits();
    let held = Seq::from_slice(alloc, files.held.as_slice())?;
    let contents = copy_contents(alloc, files.contents.as_slice())?;
    let attrs = Seq::from_slice(alloc, files.attrs.as_slice())?;
    let body = body_with_sites(alloc, litmus.body(), sites)?;
    let sizes = Sizes {
        block: litmus.block(),
        sector: litmus.sector(),
    };
    let progress = match run_body(alloc, sizes, files, body.as_slice()) {
        Ok(progress) => progress,
        Err(fault) => return Err(fault),
    };
    ask_and_close(alloc, litmus, held.as_slice(), contents, attrs, progress)
}

/// The events of the litmus test with the syncs of the sites inserted, and the state before them. A refusal has the
/// line of the first call that is refused, those of the setup before those of the body, or else the line of the
/// question. No site may stand where a transaction is open.
pub fn resolve(alloc: Global, litmus: &Litmus, sites: &[Site]) -> Result<Events, CallFault>
    requires syncs { AreSyncs sites.now }
    requires outside { StandOutside litmus.now.body sites.now }
    ensures events { IfOk result (λ events. HasEvents litmus.now sites.now events) }
    ensures refused { IfErr result (λ fault. IsFaultOf litmus.now sites.now fault) }
{
    litmus.keeps_limits();
    let files = match set_up(alloc, litmus.setup()) {
        Ok(files) => files,
        Err(fault) => return Err(fault),
    };
    resolve_body(alloc, litmus, sites, files)
}
