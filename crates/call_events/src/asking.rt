ghost use Rattle.std.specs.Prelude.{◌≡◌, ◌≤◌, ◌||◌, is_none, length, fold, IsTrue, OnOk, IfOk};
ghost use Rattle.litmus_syntax.specs.Forms.{is_formed_path, is_formed_pred};
ghost use Rattle.call_events.specs.Runs.{AreFormed};
ghost use Rattle.std.specs.List.{list_any};
ghost use Rattle.fer_events.specs.Truth.{text_number};
ghost use Rattle.call_events.specs.Asking.{words_asked, paths_asked, with_asked, asked, has_unknown, question_refusal};

use crate::call_kind::CallKind;
use crate::changing::note_slot;
use crate::files::Files;
use crate::finding::is_in;
use crate::refusing::cause;
use fer_events::MOST_NAMES;
use litmus_syntax::{Path, Pred};
use std::alloc::{AllocError, Global};

/// Whether the predicate asks for a word that no call marks.
fn has_unknown(files: &Files, pred: &Pred) -> bool
    ensures { result ≡ has_unknown files.now pred.now }
{
    match pred {
        Pred::Seen { word } => !is_in(&files.words, word),
        Pred::Not { inner } => has_unknown(files, inner.get()),
        Pred::And { left, right } | Pred::Or { left, right } => {
            has_unknown(files, left.get()) || has_unknown(files, right.get())
        }
        _ => false,
    }
}

/// Gives a path that is asked for a slot, where it can be the name of a file.
fn ask_path(alloc: Global, files: &mut Files, path: &Path) -> Result<(), AllocError>
    requires dirs { length files.old.dirs ≤ 16 }
    requires formed { AreFormed files.old }
    requires path { IsTrue (is_formed_path path.now) }
    ensures after { OnOk result (files.new ≡ with_asked files.old path.now) }
    ensures dirs { OnOk result (files.new.dirs ≡ files.old.dirs) }
    ensures formed { OnOk result (AreFormed files.new) }
{
    if files.is_dir(path.as_slice()) {
        return Ok(());
    }
    note_slot(alloc, files, path)?;
    Ok(())
}

/// Gives slots to the paths that a predicate asks for, from left to right.
fn ask(alloc: Global, files: &mut Files, pred: &Pred) -> Result<(), AllocError>
    requires dirs { length files.old.dirs ≤ 16 }
    requires formed { AreFormed files.old }
    requires pred { IsTrue (is_formed_pred pred.now) }
    ensures after { OnOk result (files.new ≡ asked files.old pred.now) }
    ensures dirs { OnOk result (files.new.dirs ≡ files.old.dirs) }
    ensures formed { OnOk result (AreFormed files.new) }
{
    match pred {
        Pred::Exists { path }
        | Pred::SizeIs { path, .. }
        | Pred::ContentIs { path, .. }
        | Pred::BytesAre { path, .. }
        | Pred::AttrIs { path, .. } => ask_path(alloc, files, path)?,
        Pred::Same { left, right } => {
            ask_path(alloc, files, left)?;
            ask_path(alloc, files, right)?;
        }
        Pred::Not { inner } => ask(alloc, files, inner.get())?,
        Pred::And { left, right } | Pred::Or { left, right } => {
            ask(alloc, files, left.get())?;
            ask(alloc, files, right.get())?;
        }
        Pred::True | Pred::False | Pred::Seen { .. } => {}
    }
    Ok(())
}

/// Gives slots to the paths that a question asks for; an answer is the kind where the question is refused.
pub fn ask_question(
    alloc: Global,
    files: &mut Files,
    pred: &Pred,
) -> Result<Option<CallKind>, AllocError>
    requires dirs { length files.old.dirs ≤ 16 }
    requires formed { AreFormed files.old }
    requires pred { IsTrue (is_formed_pred pred.now) }
    ensures kind { IfOk result (λ kind. kind ≡ question_refusal files.old pred.now) }
    ensures after { OnOk result (files.new ≡ asked files.old pred.now) }
    ensures formed { OnOk result (AreFormed files.new) }
{
    let unknown = cause(has_unknown(files, pred), CallKind::UnknownMark);
    ask(alloc, files, pred)?;
    let kind = unknown.or(cause(MOST_NAMES < files.slots.len(), CallKind::TooMany));
    Ok(kind)
}
