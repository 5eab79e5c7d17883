ghost use Rattle.std.specs.Prelude.{◌≡◌, ◌≤◌, ◌++◌, [], length, map, All, Ok, Err, None, IsTrue, IfOk, IfErr, OnOk};
ghost use Rattle.litmus_syntax.specs.Forms.{is_formed_call};
ghost use Rattle.litmus_syntax.specs.CallKinds.{sync_free};
ghost use Rattle.call_events.specs.declared.files.Files.{Files};
ghost use Rattle.call_events.specs.Found.{no_files};
ghost use Rattle.call_events.specs.Running.{last_txn, stamp_of, open_after, after_setup_call, run_setup, events_next, after_call, begun, run_body};
ghost use Rattle.call_events.specs.Resolved.{IsAnswerFor};
ghost use Rattle.call_events.specs.Refusals.{refusal, events_full};
ghost use Rattle.call_events.specs.Small.{IsSmall, IsCutting};
ghost use Rattle.call_events.specs.Runs.{IsConsistent, IsRun, AreFormed, IsTraced};

use crate::call_kind::{CallFault, CallKind};
use crate::changing::{change, note_names};
use crate::contents::Contents;
use crate::files::{Files, Progress};
use crate::making::{Sizes, Stamp, events_of};
use crate::refusing::{cause, refusal, too_many};
use fer_events::Event;
use fer_list::Seq;
use litmus_syntax::{Call, Step};
use name_tables::{Numbered, SlotTable};
use std::alloc::{AllocError, Global};

/// The files before all calls: the root directory alone.
fn no_files(alloc: Global) -> Result<Files, AllocError>
    ensures { IfOk result (λ files. files ≡ no_files) }
{
    let mut dirs = Numbered::new(alloc);
    dirs.note(Vec::new(alloc))?;
    Ok(Files {
        dirs,
        slots: SlotTable::new(alloc),
        held: Seq::new(alloc),
        contents: Contents::new(alloc),
        attrs: Seq::new(alloc),
        keys: Numbered::new(alloc),
        words: Numbered::new(alloc),
    })
}

/// Runs a call of a setup that isn't refused.
#[tactic(auto, using(crate::proofs::Keeping::names_small_at, crate::proofs::Keeping::names_room_at, crate::proofs::Keeping::setup_small, crate::proofs::Keeping::setup_words))]
fn set_up_call(alloc: Global, files: &mut Files, call: &Call) -> Result<(), AllocError>
    requires small { IsSmall files.old }
    requires unmarked { files.old.words ≡ [] }
    requires accepted { refusal files.old call.now ≡ None }
    ensures after { OnOk result (files.new ≡ after_setup_call files.old call.now) }
{
    if let Call::Mark { .. } = call {
        return Ok(());
    }
    note_names(alloc, files, call)?;
    change(alloc, files, call)?;
    Ok(())
}

/// Runs the calls of a setup, up to the first that is refused.
fn set_up_calls(alloc: Global, files: &mut Files, setup: &[Step]) -> Result<(), CallFault>
    requires small { IsSmall files.old }
    requires unmarked { files.old.words ≡ [] }
    requires whole { IsConsistent files.old }
    requires formed { AreFormed files.old }
    requires setup { All (λ step. IsTrue (is_formed_call step.call)) setup.now }
    ensures done { OnOk result (run_setup files.old setup.now ≡ Ok files.new) }
    ensures refused { IfErr result (λ fault. IsAnswerFor {X = Files} (run_setup files.old setup.now) (Err fault)) }
    ensures small { OnOk result (IsSmall files.new) }
    ensures unmarked { OnOk result (files.new.words ≡ []) }
    ensures whole { OnOk result (IsConsistent files.new) }
    ensures formed { OnOk result (AreFormed files.new) }
{
    for step in setup {
        if let Some(kind) = refusal(files, &step.call) {
            let line = step.line;
            return Err(CallFault::Refused { line, kind });
        }
        set_up_call(alloc, files, &step.call)?;
    }
    Ok(())
}

/// The files behind a setup, or its first call that is refused.
#[tactic(auto, using(crate::proofs::Keeping::nothing_small, crate::proofs::Whole::nothing_whole, crate::proofs::Formed::nothing_formed))]
pub fn set_up(alloc: Global, setup: &[Step]) -> Result<Files, CallFault>
    requires { All (λ step. IsTrue (is_formed_call step.call)) setup.now }
    ensures answer { IsAnswerFor (run_setup no_files setup.now) result }
    ensures small { IfOk result (λ files. IsSmall files) }
    ensures unmarked { IfOk result (λ files. files.words ≡ []) }
    ensures whole { IfOk result (λ files. IsConsistent files) }
    ensures formed { IfOk result (λ files. AreFormed files) }
{
    let mut files = no_files(alloc)?;
    match set_up_calls(alloc, &mut files, setup) {
        Ok(()) => Ok(files),
        Err(fault) => Err(fault),
    }
}

/// The number of the last transaction, 0 where there is none.
fn last_txn(events: &[Event]) -> u32
    ensures { result ≡ last_txn events.now }
{
    match events.last() {
        None => 0,
        Some(event) => event.txn,
    }
}

/// The stamp of the events of the call of this number.
fn stamp_of(number: u32, progress: &Progress) -> Stamp
    requires { IsRun progress.now }
    ensures { result ≡ stamp_of number progress.now }
{
    match progress.opened {
        Some(txn) => Stamp {
            call: number,
            txn,
            shared: true,
        },
        None => Stamp {
            call: number,
            txn: last_txn(progress.events.as_slice()) + 1,
            shared: false,
        },
    }
}

/// The transaction that is open behind a call.
fn open_after(progress: &Progress, call: &Call) -> Option<u32>
    requires { IsRun progress.now }
    ensures { result ≡ open_after progress.now call.now }
{
    match call {
        Call::Begin => Some(last_txn(progress.events.as_slice()) + 1),
        Call::Commit => None,
        _ => progress.opened,
    }
}

/// Appends events.
fn append(events: &mut Seq<Event>, more: Seq<Event>) -> Result<(), AllocError>
    ensures { OnOk result (events.new ≡ events.old ++ more) }
{
    for event in more.into_vec() {
        events.push(event)?;
    }
    Ok(())
}

/// Runs a call of a body that is accepted for what it finds; an answer is the kind where its events pass a limit.
fn run_call(
    alloc: Global,
    sizes: Sizes,
    number: u32,
    progress: &mut Progress,
    call: &Call,
) -> Result<Option<CallKind>, AllocError>
    requires cuts { IsCutting sizes }
    requires run { IsRun progress.old }
    requires accepted { refusal progress.old.files call.now ≡ None }
    ensures kind { IfOk result (λ kind. kind ≡ events_full progress.old.events (events_next sizes number progress.old call.now)) }
    ensures after { IfOk result (λ kind. kind ≡ None → progress.new ≡ after_call sizes number progress.old call.now) }
{
    let stamp = stamp_of(number, progress);
    let opened = open_after(progress, call);
    note_names(alloc, &mut progress.files, call)?;
    let more = events_of(alloc, sizes, stamp, &progress.files, call)?;
    append(&mut progress.events, more)?;
    change(alloc, &mut progress.files, call)?;
    progress.opened = opened;
    let kind = cause(
        too_many(progress.events.as_slice()),
        CallKind::TooManyEvents,
    );
    Ok(kind)
}

/// What the calls of a body leave on the files of a setup, or the first that is refused.
#[tactic(auto, using(crate::proofs::Tracing::traced_begins, crate::proofs::Runs::run_begins))]
pub fn run_body(
    alloc: Global,
    sizes: Sizes,
    files: Files,
    body: &[Step],
) -> Result<Progress, CallFault>
    requires cuts { IsCutting sizes }
    requires few { length (sync_free (map (λ step. step.call) body.now)) ≤ 128 }
    requires small { IsSmall files }
    requires unmarked { files.words ≡ [] }
    requires whole { IsConsistent files }
    requires formed { AreFormed files }
    requires body { All (λ step. IsTrue (is_formed_call step.call)) body.now }
    ensures answer { IsAnswerFor (run_body sizes 1 (begun files) body.now) result }
    ensures run { IfOk result (λ p. IsRun p) }
    ensures traced { IfOk result (λ p. IsTraced files p) }
{
    let events = Seq::new(alloc);
    let mut progress = Progress {
        files,
        events,
        opened: None,
    };
    for (place, step) in body.iter().enumerate() {
        let line = step.line;
        let number = place as u32 + 1;
        if let Some(kind) = refusal(&progress.files, &step.call) {
            return Err(CallFault::Refused { line, kind });
        }
        if let Some(kind) = run_call(alloc, sizes, number, &mut progress, &step.call)? {
            return Err(CallFault::Refused { line, kind });
        }
    }
    Ok(progress)
}
