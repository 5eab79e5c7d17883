ghost use Rattle.std.specs.Prelude.{◌≡◌, ◌++◌, IfOk, OnOk, codes, decimal};
ghost use Rattle.std.specs.List.{flat_map};
ghost use Rattle.litmus_syntax.specs.LitmusText.{litmus_text, step_line, question_word, question_line, head_line, sizes_lines};

mod calls;
mod preds;
mod tokens;

use crate::call::Step;
use crate::litmus::Litmus;
use calls::push_call;
use preds::push_pred;
use std::alloc::{AllocError, Global};
pub use tokens::{push_number, push_path};

/// Appends the calls, each on a line of its own behind two spaces.
fn push_steps(out: &mut Vec<u8>, steps: &[Step]) -> Result<(), AllocError>
    ensures { OnOk result (out.new.items ≡ out.old.items ++ flat_map step_line steps.now) }
{
    for step in steps {
        out.extend_from_slice(b"  ")?;
        push_call(out, &step.call)?;
        out.extend_from_slice(b"\n")?;
    }
    Ok(())
}

/// Appends the head.
fn push_head(out: &mut Vec<u8>, litmus: &Litmus) -> Result<(), AllocError>
    ensures { OnOk result (out.new.items ≡ out.old.items ++ head_line litmus.now) }
{
    out.extend_from_slice(b"litmus ")?;
    out.extend_from_slice(litmus.name().as_slice())?;
    if litmus.version() == 2 {
        out.extend_from_slice(b" 2")?;
    }
    out.push(b'\n')?;
    Ok(())
}

/// Appends a line of a word and a number.
fn push_size(out: &mut Vec<u8>, word: &[u8], size: u32) -> Result<(), AllocError>
    ensures { OnOk result (out.new.items ≡ out.old.items ++ word.now ++ codes " " ++ decimal size ++ codes "\n") }
{
    out.extend_from_slice(word)?;
    out.push(b' ')?;
    push_number(out, size)?;
    out.push(b'\n')?;
    Ok(())
}

/// Appends the block, and in the second version the sector.
fn push_sizes(out: &mut Vec<u8>, litmus: &Litmus) -> Result<(), AllocError>
    ensures { OnOk result (out.new.items ≡ out.old.items ++ sizes_lines litmus.now) }
{
    push_size(out, b"block", litmus.block())?;
    if litmus.version() == 2 {
        push_size(out, b"sector", litmus.sector())?;
    }
    Ok(())
}

/// Appends the word that says which states the question looks for.
fn push_question_word(out: &mut Vec<u8>, want: bool) -> Result<(), AllocError>
    ensures { OnOk result (out.new.items ≡ out.old.items ++ question_word want) }
{
    if want {
        out.extend_from_slice(b"exists")?;
    } else {
        out.extend_from_slice(b"always")?;
    }
    Ok(())
}

/// Appends the question.
fn push_question(out: &mut Vec<u8>, litmus: &Litmus) -> Result<(), AllocError>
    ensures { OnOk result (out.new.items ≡ out.old.items ++ question_line litmus.now) }
{
    push_question_word(out, litmus.want())?;
    out.extend_from_slice(b": ")?;
    push_pred(out, litmus.pred())?;
    out.extend_from_slice(b"\n")?;
    Ok(())
}

/// The canonical text of a litmus test, in the test's own version.
pub fn print(alloc: Global, litmus: &Litmus) -> Result<Vec<u8>, AllocError>
    ensures { IfOk result (λ text. text.items ≡ litmus_text litmus.now) }
{
    let mut out = Vec::new(alloc);
    push_head(&mut out, litmus)?;
    push_sizes(&mut out, litmus)?;
    out.extend_from_slice(b"setup:\n")?;
    push_steps(&mut out, litmus.setup())?;
    out.extend_from_slice(b"body:\n")?;
    push_steps(&mut out, litmus.body())?;
    push_question(&mut out, litmus)?;
    Ok(out)
}
