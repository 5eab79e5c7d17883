ghost use Rattle.std.specs.Prelude.{◌≡◌, ◌∷◌, ◌++◌, OnOk, codes, decimal};
ghost use Rattle.litmus_syntax.specs.Texts.{path_text, quoted};
ghost use Rattle.litmus_syntax.specs.PredText.{pred_text, written, operand};

use crate::call::{Path, Text};
use crate::pred::{Binding, Pred};
use crate::printing::tokens::{push_number, push_path, push_quoted};
use std::alloc::AllocError;

/// How tightly a predicate binds.
fn binding(pred: &Pred) -> Binding
    ensures { result ≡ (written pred.now).binding }
{
    match pred {
        Pred::Or { .. } => Binding::Disjunction,
        Pred::And { .. } => Binding::Conjunction,
        _ => Binding::Operand,
    }
}

/// Appends the name of an atom, `(` and its path.
fn push_on_path(out: &mut Vec<u8>, name: &[u8], path: &Path) -> Result<(), AllocError>
    ensures { OnOk result (out.new.items ≡ out.old.items ++ name.now ++ 40 ∷ path_text path.now) }
{
    out.extend_from_slice(name)?;
    out.push(b'(')?;
    push_path(out, path)?;
    Ok(())
}

fn push_same(out: &mut Vec<u8>, left: &Path, right: &Path) -> Result<(), AllocError>
    ensures { OnOk result (out.new.items ≡ out.old.items ++ codes "same(" ++ path_text left.now ++ codes ", " ++ path_text right.now ++ codes ")") }
{
    push_on_path(out, b"same", left)?;
    out.extend_from_slice(b", ")?;
    push_path(out, right)?;
    out.push(b')')?;
    Ok(())
}

fn push_size(out: &mut Vec<u8>, path: &Path, size: u32) -> Result<(), AllocError>
    ensures { OnOk result (out.new.items ≡ out.old.items ++ codes "size(" ++ path_text path.now ++ codes ") = " ++ decimal size) }
{
    push_on_path(out, b"size", path)?;
    out.extend_from_slice(b") = ")?;
    push_number(out, size)?;
    Ok(())
}

fn push_content(out: &mut Vec<u8>, path: &Path, text: &Text) -> Result<(), AllocError>
    ensures { OnOk result (out.new.items ≡ out.old.items ++ codes "content(" ++ path_text path.now ++ codes ") = " ++ quoted text.now) }
{
    push_on_path(out, b"content", path)?;
    out.extend_from_slice(b") = ")?;
    push_quoted(out, text)?;
    Ok(())
}

fn push_bytes(out: &mut Vec<u8>, path: &Path, at: u32, text: &Text) -> Result<(), AllocError>
    ensures { OnOk result (out.new.items ≡ out.old.items ++ codes "bytes(" ++ path_text path.now ++ codes ", " ++ decimal at ++ codes ") = " ++ quoted text.now) }
{
    push_on_path(out, b"bytes", path)?;
    out.extend_from_slice(b", ")?;
    push_number(out, at)?;
    out.extend_from_slice(b") = ")?;
    push_quoted(out, text)?;
    Ok(())
}

fn push_attr(out: &mut Vec<u8>, path: &Path, key: &Text, value: u32) -> Result<(), AllocError>
    ensures { OnOk result (out.new.items ≡ out.old.items ++ codes "attr(" ++ path_text path.now ++ codes ", " ++ key.now ++ codes ") = " ++ decimal value) }
{
    push_on_path(out, b"attr", path)?;
    out.extend_from_slice(b", ")?;
    out.extend_from_slice(key.as_slice())?;
    out.extend_from_slice(b") = ")?;
    push_number(out, value)?;
    Ok(())
}

fn push_exists(out: &mut Vec<u8>, path: &Path) -> Result<(), AllocError>
    ensures { OnOk result (out.new.items ≡ out.old.items ++ codes "exists(" ++ path_text path.now ++ codes ")") }
{
    push_on_path(out, b"exists", path)?;
    out.push(b')')?;
    Ok(())
}

fn push_seen(out: &mut Vec<u8>, word: &Text) -> Result<(), AllocError>
    ensures { OnOk result (out.new.items ≡ out.old.items ++ codes "seen(" ++ word.now ++ codes ")") }
{
    out.extend_from_slice(b"seen(")?;
    out.extend_from_slice(word.as_slice())?;
    out.push(b')')?;
    Ok(())
}

/// Appends an operand whose place asks for this binding.
#[cycle(push_pred)]
fn push_operand(out: &mut Vec<u8>, least: Binding, pred: &Pred) -> Result<(), AllocError>
    ensures { OnOk result (out.new.items ≡ out.old.items ++ operand least (written pred.now)) }
{
    if binding(pred).is_looser(least) {
        out.push(b'(')?;
        push_pred(out, pred)?;
        out.push(b')')?;
        return Ok(());
    }
    push_pred(out, pred)?;
    Ok(())
}

/// Appends a predicate, with parentheses only where they are needed.
#[cycle(push_pred)]
pub fn push_pred(out: &mut Vec<u8>, pred: &Pred) -> Result<(), AllocError>
    ensures { OnOk result (out.new.items ≡ out.old.items ++ pred_text pred.now) }
{
    match pred {
        Pred::True => out.extend_from_slice(b"true")?,
        Pred::False => out.extend_from_slice(b"false")?,
        Pred::Exists { path } => push_exists(out, path)?,
        Pred::Same { left, right } => push_same(out, left, right)?,
        Pred::SizeIs { path, size } => push_size(out, path, *size)?,
        Pred::ContentIs { path, text } => push_content(out, path, text)?,
        Pred::BytesAre { path, at, text } => push_bytes(out, path, *at, text)?,
        Pred::AttrIs { path, key, value } => push_attr(out, path, key, *value)?,
        Pred::Seen { word } => push_seen(out, word)?,
        Pred::Not { inner } => {
            out.extend_from_slice(b"not ")?;
            push_operand(out, Binding::Operand, inner.get())?;
        }
        Pred::And { left, right } => {
            push_operand(out, Binding::Conjunction, left.get())?;
            out.extend_from_slice(b" and ")?;
            push_operand(out, Binding::Operand, right.get())?;
        }
        Pred::Or { left, right } => {
            push_operand(out, Binding::Disjunction, left.get())?;
            out.extend_from_slice(b" or ")?;
            push_operand(out, Binding::Conjunction, right.get())?;
        }
    }
    Ok(())
}
