ghost use Rattle.std.specs.Prelude.{◌≡◌, ◌≤◌, ◌++◌, ◌∷◌, [], length, map, take, drop, IfOk, OnOk, codes, is_some, slice_range};
ghost use Rattle.proof_log.specs.LogText.{literal_text, clause_line, kind_word, sites_line, formula_line, head_line, text_of, log_text, learned_lines, closing_lines, opening_lines};

use crate::log::{Log, Part};
use clause_store::{Lit, Store};
use litmus_syntax::{SiteKind, push_number};
use numerals::push_numbers;
use std::alloc::{AllocError, Global};

/// Appends a literal and a space.
fn push_literal(out: &mut Vec<u8>, lit: Lit) -> Result<(), AllocError>
    ensures { OnOk result (out.new.items ≡ out.old.items ++ (literal_text lit ++ codes " ")) }
{
    if !lit.positive {
        out.push(b'-')?;
    }
    push_number(out, lit.var)?;
    out.push(b' ')?;
    Ok(())
}

/// Appends the line of a clause.
fn push_clause(out: &mut Vec<u8>, lits: &[Lit]) -> Result<(), AllocError>
    ensures { OnOk result (out.new.items ≡ out.old.items ++ (clause_line lits.now ++ codes "\n")) }
{
    for lit in lits {
        push_literal(out, *lit)?;
    }
    out.extend_from_slice(b"0\n")?;
    Ok(())
}

/// Appends the lines of the clauses from `start` to before `end`.
fn push_clauses(
    out: &mut Vec<u8>,
    store: &Store,
    start: usize,
    end: usize,
) -> Result<(), AllocError>
    requires turned { start ≤ end }
    requires there { end ≤ length store.now.clauses }
    ensures { OnOk result (out.new.items ≡ out.old.items ++ text_of (map clause_line (slice_range store.now.clauses start end))) }
{
    for id in start..end {
        push_clause(out, store.clause(id))?;
    }
    Ok(())
}

/// Appends the clauses, with the question where it stands.
fn push_learned(out: &mut Vec<u8>, log: &Log) -> Result<(), AllocError>
    ensures { OnOk result (out.new.items ≡ out.old.items ++ text_of (learned_lines log.now)) }
{
    log.keeps_rules();
    let learned = log.part().learned();
    let len = learned.len();
    match log.question() {
        None => push_clauses(out, learned, 0, len)?,
        Some(place) => {
            push_clauses(out, learned, 0, place)?;
            out.extend_from_slice(b"question\n")?;
            push_clauses(out, learned, place, len)?;
        }
    }
    Ok(())
}

/// The word of a kind of syncs.
fn word_of(kind: SiteKind) -> &'static [u8]
    ensures { result.now ≡ kind_word kind }
{
    match kind {
        SiteKind::Fsync => b"fsync",
        SiteKind::Sync => b"sync",
        SiteKind::All => b"all",
    }
}

/// Appends the line of the syncs.
fn push_sites(out: &mut Vec<u8>, log: &Log) -> Result<(), AllocError>
    ensures { OnOk result (out.new.items ≡ out.old.items ++ (sites_line log.now.kind log.now.sites ++ codes "\n")) }
{
    match log.kind() {
        None => out.extend_from_slice(b"sites none\n")?,
        Some(kind) => {
            out.extend_from_slice(b"sites ")?;
            out.extend_from_slice(word_of(kind))?;
            push_numbers(out, log.sites())?;
            out.push(b'\n')?;
        }
    }
    Ok(())
}

/// Appends the head.
fn push_head(out: &mut Vec<u8>, second: bool) -> Result<(), AllocError>
    ensures { OnOk result (out.new.items ≡ out.old.items ++ (head_line second ++ codes "\n")) }
{
    if second {
        out.extend_from_slice(b"ferrite log 2\n")?;
    } else {
        out.extend_from_slice(b"ferrite log 1\n")?;
    }
    Ok(())
}

/// Appends the line of the formula.
fn push_formula(out: &mut Vec<u8>, part: &Part) -> Result<(), AllocError>
    ensures { OnOk result (out.new.items ≡ out.old.items ++ (formula_line part.now.vars part.now.clauses ++ codes "\n")) }
{
    out.extend_from_slice(b"formula")?;
    push_numbers(out, &[part.vars(), part.clauses()])?;
    out.push(b'\n')?;
    Ok(())
}

/// Appends the empty clause, where it ends the log, and the end.
fn push_closing(out: &mut Vec<u8>, closed: bool) -> Result<(), AllocError>
    ensures { OnOk result (out.new.items ≡ out.old.items ++ text_of (closing_lines closed)) }
{
    if closed {
        push_clause(out, &[])?;
    }
    out.extend_from_slice(b"end\n")?;
    Ok(())
}

/// The canonical text of a log. An error says that there was too little memory.
pub fn print(alloc: Global, log: &Log) -> Result<Vec<u8>, AllocError>
    ensures { IfOk result (λ text. text.items ≡ log_text log.now) }
{
    let mut out = Vec::new(alloc);
    push_head(&mut out, log.question().is_some())?;
    push_sites(&mut out, log)?;
    push_formula(&mut out, log.part())?;
    push_learned(&mut out, log)?;
    push_closing(&mut out, log.part().closed())?;
    Ok(out)
}
