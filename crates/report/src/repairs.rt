ghost use Rattle.std.specs.Prelude.{◌≡◌, ◌++◌, IfOk, OnOk};
ghost use Rattle.std.specs.List.{flat_map};
ghost use Rattle.report.specs.Answers.{Repaired, NoneSuffice, count_line, need_line, work_text, answer_text};

use crate::outcome::{NeedLine, Summary};
use crate::tokens::push_number_behind;
use fer_events::Crash;
use itoa::Buffer;
use litmus_syntax::Litmus;
use std::alloc::{AllocError, Global};

/// Appends a line of a word and a number.
fn push_count(out: &mut Vec<u8>, word: &[u8], count: usize) -> Result<(), AllocError>
    ensures { OnOk result (out.new.items ≡ out.old.items ++ count_line word.now count) }
{
    let mut buffer = Buffer::new();
    out.extend_from_slice(word)?;
    out.push(b' ')?;
    out.extend_from_slice(buffer.format(count).as_bytes())?;
    out.push(b'\n')?;
    Ok(())
}

/// Appends the line of a sync that is needed.
fn push_need(alloc: Global, out: &mut Vec<u8>, need: &NeedLine) -> Result<(), AllocError>
    ensures { OnOk result (out.new.items ≡ out.old.items ++ need_line need.now) }
{
    let order = witness_replay::print(alloc, &need.crash)?;
    out.extend_from_slice(b"needed")?;
    push_number_behind(out, need.event)?;
    out.push(b' ')?;
    out.extend_from_slice(order.as_slice())?;
    Ok(())
}

/// Appends a line for each sync that is needed.
fn push_needs(alloc: Global, out: &mut Vec<u8>, needs: &[NeedLine]) -> Result<(), AllocError>
    ensures { OnOk result (out.new.items ≡ out.old.items ++ flat_map need_line needs.now) }
{
    for need in needs {
        push_need(alloc, out, need)?;
    }
    Ok(())
}

/// The syncs that a repair needs, and the repaired test.
pub fn repaired(alloc: Global, needs: &[NeedLine], litmus: &Litmus) -> Result<Vec<u8>, AllocError>
    ensures { IfOk result (λ text. text.items ≡ answer_text (Repaired needs.now litmus.now)) }
{
    let test = litmus_syntax::print(alloc, litmus)?;
    let mut out = Vec::new(alloc);
    push_count(&mut out, b"repaired", needs.len())?;
    push_needs(alloc, &mut out, needs)?;
    out.extend_from_slice(test.as_slice())?;
    Ok(out)
}

/// A crash that answers the question with all sites, and the test with these.
pub fn none_suffice(alloc: Global, crash: &Crash, litmus: &Litmus) -> Result<Vec<u8>, AllocError>
    ensures { IfOk result (λ text. text.items ≡ answer_text (NoneSuffice crash.now litmus.now)) }
{
    let line = witness_replay::print(alloc, crash)?;
    let test = litmus_syntax::print(alloc, litmus)?;
    let mut out = Vec::from_slice(alloc, b"no syncs suffice\n")?;
    out.extend_from_slice(line.as_slice())?;
    out.extend_from_slice(test.as_slice())?;
    Ok(out)
}

/// What there is of a generated test.
pub fn work(alloc: Global, summary: &Summary) -> Result<Vec<u8>, AllocError>
    ensures { IfOk result (λ text. text.items ≡ work_text summary.now) }
{
    let mut out = Vec::from_slice(alloc, b"work")?;
    push_number_behind(&mut out, summary.seed)?;
    push_number_behind(&mut out, summary.calls)?;
    out.push(b'\n')?;
    push_count(&mut out, b"events", summary.events as usize)?;
    push_count(&mut out, b"sites", summary.sites as usize)?;
    push_count(&mut out, b"pairs", summary.pairs as usize)?;
    push_count(&mut out, b"kept", summary.kept as usize)?;
    Ok(out)
}
