ghost use Rattle.std.specs.Prelude.{◌≡◌, ◌∷◌, ◌++◌, OnOk, decimal};
ghost use Rattle.litmus_syntax.specs.Texts.{path_text, quoted};
ghost use Rattle.litmus_syntax.specs.CallText.{call_text};

use crate::call::{Call, Path, Text};
use crate::printing::tokens::{push_number, push_path, push_quoted};
use std::alloc::AllocError;

/// Appends a name, a space and a path.
fn push_on_path(out: &mut Vec<u8>, name: &[u8], path: &Path) -> Result<(), AllocError>
    ensures { OnOk result (out.new.items ≡ out.old.items ++ name.now ++ 32 ∷ path_text path.now) }
{
    out.extend_from_slice(name)?;
    out.push(b' ')?;
    push_path(out, path)?;
    Ok(())
}

/// Appends a name and two paths, each behind a space.
fn push_on_two(out: &mut Vec<u8>, name: &[u8], from: &Path, to: &Path) -> Result<(), AllocError>
    ensures { OnOk result (out.new.items ≡ out.old.items ++ name.now ++ 32 ∷ path_text from.now ++ 32 ∷ path_text to.now) }
{
    push_on_path(out, name, from)?;
    out.push(b' ')?;
    push_path(out, to)?;
    Ok(())
}

/// Appends a space and a text in its quotes.
fn push_text_behind(out: &mut Vec<u8>, text: &Text) -> Result<(), AllocError>
    ensures { OnOk result (out.new.items ≡ out.old.items ++ 32 ∷ quoted text.now) }
{
    out.push(b' ')?;
    push_quoted(out, text)?;
    Ok(())
}

/// Appends a space and a number.
fn push_number_behind(out: &mut Vec<u8>, number: u32) -> Result<(), AllocError>
    ensures { OnOk result (out.new.items ≡ out.old.items ++ 32 ∷ decimal number) }
{
    out.push(b' ')?;
    push_number(out, number)?;
    Ok(())
}

/// Appends an attribute's path, key and value.
fn push_attr(out: &mut Vec<u8>, path: &Path, key: &Text, value: u32) -> Result<(), AllocError>
    ensures { OnOk result (out.new.items ≡ out.old.items ++ call_text (Call.Attr path.now key.now value)) }
{
    push_on_path(out, b"attr", path)?;
    out.push(b' ')?;
    out.extend_from_slice(key.as_slice())?;
    push_number_behind(out, value)?;
    Ok(())
}

/// Appends a write's path, offset and text.
fn push_write(out: &mut Vec<u8>, path: &Path, at: u32, text: &Text) -> Result<(), AllocError>
    ensures { OnOk result (out.new.items ≡ out.old.items ++ call_text (Call.Write path.now at text.now)) }
{
    push_on_path(out, b"write", path)?;
    push_number_behind(out, at)?;
    push_text_behind(out, text)?;
    Ok(())
}

/// Appends a call, its tokens separated by one space.
pub fn push_call(out: &mut Vec<u8>, call: &Call) -> Result<(), AllocError>
    ensures { OnOk result (out.new.items ≡ out.old.items ++ call_text call.now) }
{
    match call {
        Call::Mkdir { path } => push_on_path(out, b"mkdir", path)?,
        Call::Create { path } => push_on_path(out, b"create", path)?,
        Call::Write { path, at, text } => push_write(out, path, *at, text)?,
        Call::Append { path, text } => {
            push_on_path(out, b"append", path)?;
            push_text_behind(out, text)?;
        }
        Call::Truncate { path, size } => {
            push_on_path(out, b"truncate", path)?;
            push_number_behind(out, *size)?;
        }
        Call::Link { from, to } => push_on_two(out, b"link", from, to)?,
        Call::Unlink { path } => push_on_path(out, b"unlink", path)?,
        Call::Rename { from, to } => push_on_two(out, b"rename", from, to)?,
        Call::Attr { path, key, value } => push_attr(out, path, key, *value)?,
        Call::Fsync { path } => push_on_path(out, b"fsync", path)?,
        Call::FsyncDir { path } => push_on_path(out, b"fsyncdir", path)?,
        Call::Sync => out.extend_from_slice(b"sync")?,
        Call::Mark { word } => {
            out.extend_from_slice(b"mark ")?;
            out.extend_from_slice(word.as_slice())?;
        }
        Call::Begin => out.extend_from_slice(b"begin")?,
        Call::Commit => out.extend_from_slice(b"commit")?,
    }
    Ok(())
}
