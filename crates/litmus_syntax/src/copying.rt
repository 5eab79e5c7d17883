ghost use Rattle.std.specs.Prelude.{◌≡◌, IfOk};
ghost use Rattle.litmus_syntax.specs.declared.pred.Pred.TheVariants as made;

use crate::call::{Call, Path, Text};
use crate::pred::Pred;
use fer_list::Seq;
use sqlite_items::Boxed;
use std::alloc::{AllocError, Global};

/// A text like this one.
pub fn copy_text(alloc: Global, text: &[u8]) -> Result<Text, AllocError>
    ensures { IfOk result (λ copy. copy ≡ text.now) }
{
    Seq::from_slice(alloc, text)
}

/// A path of these components.
pub fn copy_path(alloc: Global, path: &[Text]) -> Result<Path, AllocError>
    ensures { IfOk result (λ copy. copy ≡ path.now) }
{
    let mut copy = Seq::new(alloc);
    for component in path {
        let component = copy_text(alloc, component.as_slice())?;
        copy.push(component)?;
    }
    Ok(copy)
}

/// What is made of a copy of the path.
fn on_path<T, F: FnOnce(Path) -> T>(alloc: Global, path: &Path, make: F) -> Result<T, AllocError>
    requires { F.IsAlwaysCallable make }
    ensures { IfOk result (λ made. F.post make path.now made) }
{
    let path = copy_path(alloc, path.as_slice())?;
    Ok(make(path))
}

/// A call like this one.
pub fn copy_call(alloc: Global, call: &Call) -> Result<Call, AllocError>
    ensures { IfOk result (λ copy. copy ≡ call.now) }
{
    let copy = match call {
        Call::Mkdir { path } => on_path(alloc, path, |path| Call::Mkdir { path })?,
        Call::Create { path } => on_path(alloc, path, |path| Call::Create { path })?,
        Call::Write { path, at, text } => Call::Write {
            path: copy_path(alloc, path.as_slice())?,
            at: *at,
            text: copy_text(alloc, text.as_slice())?,
        },
        Call::Append { path, text } => Call::Append {
            path: copy_path(alloc, path.as_slice())?,
            text: copy_text(alloc, text.as_slice())?,
        },
        Call::Truncate { path, size } => Call::Truncate {
            path: copy_path(alloc, path.as_slice())?,
            size: *size,
        },
        Call::Link { from, to } => Call::Link {
            from: copy_path(alloc, from.as_slice())?,
            to: copy_path(alloc, to.as_slice())?,
        },
        Call::Unlink { path } => on_path(alloc, path, |path| Call::Unlink { path })?,
        Call::Rename { from, to } => Call::Rename {
            from: copy_path(alloc, from.as_slice())?,
            to: copy_path(alloc, to.as_slice())?,
        },
        Call::Attr { path, key, value } => Call::Attr {
            path: copy_path(alloc, path.as_slice())?,
            key: copy_text(alloc, key.as_slice())?,
            value: *value,
        },
        Call::Fsync { path } => on_path(alloc, path, |path| Call::Fsync { path })?,
        Call::FsyncDir { path } => on_path(alloc, path, |path| Call::FsyncDir { path })?,
        Call::Sync => Call::Sync,
        Call::Mark { word } => Call::Mark {
            word: copy_text(alloc, word.as_slice())?,
        },
        Call::Begin => Call::Begin,
        Call::Commit => Call::Commit,
    };
    Ok(copy)
}

/// The predicate that is made of a copy of the path.
#[inline(never)]
fn pred_on_path<F: FnOnce(Path) -> Pred>(
    alloc: Global,
    path: &Path,
    make: F,
) -> Result<Boxed<Pred>, AllocError>
    requires { F.IsAlwaysCallable make }
    ensures { IfOk result (λ pred. F.post make path.now pred) }
{
    let path = copy_path(alloc, path.as_slice())?;
    let pred = Boxed::new(alloc, make(path))?;
    Ok(pred)
}

/// The predicate that is made of copies of the path and of the text.
#[inline(never)]
fn pred_on_text<F: FnOnce(Path, Text) -> Pred>(
    alloc: Global,
    path: &Path,
    text: &Text,
    make: F,
) -> Result<Boxed<Pred>, AllocError>
    requires { F.IsAlwaysCallable make }
    ensures { IfOk result (λ pred. F.post make path.now text.now pred) }
{
    let path = copy_path(alloc, path.as_slice())?;
    let text = copy_text(alloc, text.as_slice())?;
    let pred = Boxed::new(alloc, make(path, text))?;
    Ok(pred)
}

/// The predicate that is made of copies of both paths.
#[inline(never)]
fn same_file(alloc: Global, left: &Path, right: &Path) -> Result<Boxed<Pred>, AllocError>
    ensures { IfOk result (λ pred. pred ≡ made.Same left.now right.now) }
{
    let left = copy_path(alloc, left.as_slice())?;
    let right = copy_path(alloc, right.as_slice())?;
    let pred = Boxed::new(alloc, Pred::Same { left, right })?;
    Ok(pred)
}

/// The predicate that the mark of this word was seen.
#[inline(never)]
fn seen(alloc: Global, word: &Text) -> Result<Boxed<Pred>, AllocError>
    ensures { IfOk result (λ pred. pred ≡ made.Seen word.now) }
{
    let word = copy_text(alloc, word.as_slice())?;
    let pred = Boxed::new(alloc, Pred::Seen { word })?;
    Ok(pred)
}

/// The predicate that holds where this one doesn't.
#[inline(never)]
fn negated(alloc: Global, inner: Boxed<Pred>) -> Result<Boxed<Pred>, AllocError>
    ensures { IfOk result (λ pred. pred ≡ made.Not inner) }
{
    let pred = Boxed::new(alloc, Pred::Not { inner })?;
    Ok(pred)
}

/// The predicate in a box.
#[inline(never)]
fn boxed(alloc: Global, pred: Pred) -> Result<Boxed<Pred>, AllocError>
    ensures { IfOk result (λ boxed. boxed ≡ pred) }
{
    let pred = Boxed::new(alloc, pred)?;
    Ok(pred)
}

/// The predicate that is made of both.
#[inline(never)]
fn joined<F: FnOnce(Boxed<Pred>, Boxed<Pred>) -> Pred>(
    alloc: Global,
    left: Boxed<Pred>,
    right: Boxed<Pred>,
    join: F,
) -> Result<Boxed<Pred>, AllocError>
    requires { F.IsAlwaysCallable join }
    ensures { IfOk result (λ pred. F.post join left right pred) }
{
    let pred = Boxed::new(alloc, join(left, right))?;
    Ok(pred)
}

/// A predicate like this one, in a box. A deep one is copied by calls within calls, so no predicate is held here: what
/// makes one is called, and not made a part of this function.
fn boxed_copy(alloc: Global, pred: &Pred) -> Result<Boxed<Pred>, AllocError>
    ensures { IfOk result (λ copy. copy ≡ pred.now) }
{
    match pred {
        Pred::True => boxed(alloc, Pred::True),
        Pred::False => boxed(alloc, Pred::False),
        Pred::Exists { path } => pred_on_path(alloc, path, |path| Pred::Exists { path }),
        Pred::Same { left, right } => same_file(alloc, left, right),
        Pred::SizeIs { path, size } => {
            let size = *size;
            pred_on_path(alloc, path, |path| Pred::SizeIs { path, size })
        }
        Pred::ContentIs { path, text } => {
            let make = |path, text| Pred::ContentIs { path, text };
            pred_on_text(alloc, path, text, make)
        }
        Pred::BytesAre { path, at, text } => {
            let at = *at;
            let make = |path, text| Pred::BytesAre { path, at, text };
            pred_on_text(alloc, path, text, make)
        }
        Pred::AttrIs { path, key, value } => {
            let value = *value;
            let make = |path, key| Pred::AttrIs { path, key, value };
            pred_on_text(alloc, path, key, make)
        }
        Pred::Seen { word } => seen(alloc, word),
        Pred::Not { inner } => {
            let inner = boxed_copy(alloc, inner.get())?;
            negated(alloc, inner)
        }
        Pred::And { left, right } => {
            let left = boxed_copy(alloc, left.get())?;
            let right = boxed_copy(alloc, right.get())?;
            joined(alloc, left, right, |left, right| Pred::And { left, right })
        }
        Pred::Or { left, right } => {
            let left = boxed_copy(alloc, left.get())?;
            let right = boxed_copy(alloc, right.get())?;
            joined(alloc, left, right, |left, right| Pred::Or { left, right })
        }
    }
}

/// A predicate like this one.
pub fn copy_pred(alloc: Global, pred: &Pred) -> Result<Pred, AllocError>
    ensures { IfOk result (λ copy. copy ≡ pred.now) }
{
    let copy = boxed_copy(alloc, pred)?;
    Ok(copy.into_inner())
}
