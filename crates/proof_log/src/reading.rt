ghost use Rattle.std.specs.Prelude.{◌≡◌, ◌≤◌, ℕ, Bool, List, [], ◌∷◌, IfOk, OnOk, Err, None, Option, length};
ghost use Rattle.litmus_syntax.specs.declared.site.SiteKind.{SiteKind};
ghost use Rattle.text_scan.specs.Lines.{lines_of};
ghost use Rattle.proof_log.specs.declared.fault.LogKind.{LogKind as KindOf};
ghost use Rattle.proof_log.specs.declared.fault.LogFault.TheVariants.{Refused};
ghost use Rattle.proof_log.specs.LogFiles.{IsLogText, IsLogRefused};
ghost use Rattle.proof_log.specs.LogText.{head_line, sites_line, formula_line};
ghost use Rattle.proof_log.specs.Stages.{AreSites, MayBeMadeWith, Runs, Fails, begun};
ghost use Rattle.proof_log.specs.Stages.Stage.{fresh, headed, sited, ended};
ghost use Rattle.proof_log.specs.Reading.{IsDraft, stage_of};

use crate::draft::Draft;
use crate::fault::{LogFault, LogKind};
use crate::log::{Log, Part};
use crate::opening::{Sites, formula_of, sites_of, version_of};
use clause_store::{Lit, Store};
use std::alloc::{AllocError, Global};
use text_scan::first_line;

/// The most bytes of a log.
pub const MOST_LOG_BYTES: usize = 64 << 20;

/// The refusal of a line.
fn refused(line: u32, kind: LogKind) -> LogFault
    ensures { result ≡ Refused line kind }
{
    LogFault::Refused { line, kind }
}

/// Reads the lines behind that of the formula into the draft.
fn read_lines(draft: &mut Draft, lits: &mut Vec<Lit>, bytes: &[u8]) -> Result<(), LogFault>
    requires draft { IsDraft draft.old }
    requires short { length bytes.now ≤ 67108864 }
    ensures read { OnOk result (Runs (stage_of draft.old) (lines_of bytes.now) (ended draft.new.log)) }
    ensures refused { (number : ℕ) (kind : KindOf) → result ≡ Err (Refused number kind)
        → Fails (stage_of draft.old) 3 (lines_of bytes.now) number kind }
{
    let mut number = 3;
    let mut rest = bytes;
    while let Some((line, behind)) = first_line(rest) {
        number += 1;
        if let Some(kind) = draft.take(lits, line)? {
            return Err(refused(number, kind));
        }
        rest = behind;
    }
    if !draft.ended {
        return Err(refused(number + 1, LogKind::EndsEarly));
    }
    Ok(())
}

/// Bounds on how many clauses the lines have, and how many literals these have together.
fn room_for(bytes: &[u8]) -> (usize, usize) {
    let feeds = bytes.iter().filter(|byte| **byte == b'\n').count();
    let spaces = bytes.iter().filter(|byte| **byte == b' ').count();
    (feeds.min(bytes.len() / 4), spaces.min(bytes.len() / 2))
}

/// The version that the first line says, and the bytes behind that line.
fn read_head(bytes: &[u8]) -> Result<(bool, &[u8]), LogFault>
    ensures read { IfOk result (λ r. lines_of bytes.now ≡ head_line r.0 ∷ lines_of r.1.now) }
    ensures fewer { IfOk result (λ r. length r.1.now ≤ length bytes.now) }
    ensures refused { (number : ℕ) (kind : KindOf) → result ≡ Err (Refused number kind) → Fails fresh 0 (lines_of bytes.now) number kind }
{
    let Some((line, rest)) = first_line(bytes) else {
        return Err(refused(1, LogKind::EndsEarly));
    };
    match version_of(line) {
        Some(second) => Ok((second, rest)),
        None => Err(refused(1, LogKind::BadLine)),
    }
}

/// The syncs that the second line names, and the bytes behind that line.
fn read_sites(alloc: Global, second: bool, bytes: &[u8]) -> Result<(Sites, &[u8]), LogFault>
    ensures read { IfOk result (λ r. MayBeMadeWith second r.0.kind r.0.numbers
        × (lines_of bytes.now ≡ sites_line r.0.kind r.0.numbers ∷ lines_of r.1.now)) }
    ensures fewer { IfOk result (λ r. length r.1.now ≤ length bytes.now) }
    ensures refused { (number : ℕ) (kind : KindOf) → result ≡ Err (Refused number kind)
        → Fails (headed second) 1 (lines_of bytes.now) number kind }
{
    let Some((line, rest)) = first_line(bytes) else {
        return Err(refused(2, LogKind::EndsEarly));
    };
    match sites_of(alloc, second, line)? {
        Some(sites) => Ok((sites, rest)),
        None => Err(refused(2, LogKind::BadLine)),
    }
}

/// The numbers of variables and clauses that the third line says, and the bytes behind that line.
fn read_formula(bytes: &[u8]) -> Result<(u32, u32, &[u8]), LogFault>
    ensures read { IfOk result (λ r. (r.0 ≤ 4294967295) × (r.1 ≤ 4294967295) × (lines_of bytes.now ≡ formula_line r.0 r.1 ∷ lines_of r.2.now)) }
    ensures fewer { IfOk result (λ r. length r.2.now ≤ length bytes.now) }
    ensures refused { (number : ℕ) (kind : KindOf) → result ≡ Err (Refused number kind)
        → (second : Bool) (made : Option SiteKind) (sites : List ℕ) → Fails (sited second made sites) 2 (lines_of bytes.now) number kind }
{
    let Some((line, rest)) = first_line(bytes) else {
        return Err(refused(3, LogKind::EndsEarly));
    };
    match formula_of(line) {
        Some((vars, clauses)) => Ok((vars, clauses, rest)),
        None => Err(refused(3, LogKind::BadLine)),
    }
}

/// The log of which no clause is read, with room for those of the bytes.
fn begin(
    alloc: Global,
    sites: Sites,
    vars: u32,
    clauses: u32,
    bytes: &[u8],
) -> Result<Log, AllocError>
    requires sites { AreSites sites.numbers }
    requires none { sites.kind ≡ None → sites.numbers ≡ [] }
    ensures { IfOk result (λ l. l ≡ begun sites.kind sites.numbers vars clauses) }
{
    let (more_clauses, more_lits) = room_for(bytes);
    let mut learned = Store::new(alloc, vars);
    learned.reserve(more_clauses, more_lits)?;
    let Sites { kind, numbers } = sites;
    Ok(Log::begun(kind, numbers, Part::new(clauses, learned, false)))
}

/// Reads all lines.
fn read_all(alloc: Global, bytes: &[u8]) -> Result<Log, LogFault>
    requires short { length bytes.now ≤ 67108864 }
    ensures read { IfOk result (λ l. Runs fresh (lines_of bytes.now) (ended l)) }
    ensures refused { (number : ℕ) (kind : KindOf) → result ≡ Err (Refused number kind) → Fails fresh 0 (lines_of bytes.now) number kind }
{
    let (second, rest) = read_head(bytes)?;
    let (sites, rest) = read_sites(alloc, second, rest)?;
    let (vars, clauses, rest) = read_formula(rest)?;
    let log = begin(alloc, sites, vars, clauses, rest)?;
    let mut draft = Draft {
        second,
        log,
        ended: false,
    };
    let mut lits = Vec::new(alloc);
    read_lines(&mut draft, &mut lits, rest)?;
    let Draft { log, .. } = draft;
    Ok(log)
}

/// The log of the bytes: at most 64 MiB, line by line as `print` writes them, where a carriage return may stand before each
/// line feed, and the last line feed may be missing. `Refused` says the number of the first line that no log has there,
/// counted from 1, and why; the line behind the last where no line is bad and there is no `end`; or line 0 for too many
/// bytes. `OutOfMemory` says that there was too little memory.
pub fn read(alloc: Global, bytes: &[u8]) -> Result<Log, LogFault>
    ensures read { IfOk result (λ l. IsLogText bytes.now l) }
    ensures refused { (line : ℕ) (kind : KindOf) → result ≡ Err (Refused line kind) → IsLogRefused bytes.now line kind }
{
    if bytes.len() > MOST_LOG_BYTES {
        return Err(refused(0, LogKind::TooLong));
    }
    read_all(alloc, bytes)
}
