ghost use Rattle.std.specs.Prelude.{◌≡◌, ◌≢◌, [], true, false, OnOk, IfOk, MatchBool, None, codes};
ghost use Rattle.proof_log.specs.LogText.{clause_line};
ghost use Rattle.proof_log.specs.Stages.{IsAsked};
ghost use Rattle.proof_log.specs.Reading.{IsReadAs, IsDraft, TakesAs, stage_of};

use crate::fault::LogKind;
use crate::log::Log;
use crate::tokens::{lit_of, next_literal};
use clause_store::Lit;
use std::alloc::AllocError;

/// A log of which some lines behind that of the formula are read.
#[derive(Drop)]
pub struct Draft {
    /// Whether the log is of the second version.
    pub second: bool,
    pub log: Log,
    pub ended: bool,
}

/// Reads a clause line over this number of variables into `lits`, whatever these were, or answers what is bad about it.
fn read_clause(lits: &mut Vec<Lit>, vars: u32, line: &[u8]) -> Result<Option<LogKind>, AllocError>
    requires { lits.old.items ≡ [] }
    ensures { IfOk result (λ fault. IsReadAs vars line.now lits.new.items fault) }
{
    let mut bad = false;
    let mut rest = line;
    while let Some((positive, digits, behind)) = next_literal(rest) {
        match lit_of(vars, positive, digits) {
            Some(lit) => lits.push(lit)?,
            None => bad = true,
        }
        rest = behind;
    }
    if rest != b"0".as_slice() {
        return Ok(Some(LogKind::BadLine));
    }
    if bad {
        return Ok(Some(LogKind::BadLiteral));
    }
    Ok(None)
}

impl Draft {
    /// Whether the question is still to come.
    fn awaits_question(&self) -> bool
        ensures { MatchBool result ((self.now.second ≡ true) × (self.now.log.question ≡ None)) (IsAsked self.now.second self.now.log) }
    {
        self.second && self.log.question().is_none()
    }

    /// Ends the log.
    fn end(&mut self) -> Option<LogKind>
        requires open { self.old.ended ≡ false }
        requires draft { IsDraft self.old }
        ensures taken { TakesAs (stage_of self.old) (codes "end") (stage_of self.new) result }
        ensures draft { IsDraft self.new }
    {
        if self.awaits_question() {
            return Some(LogKind::BadLine);
        }
        self.ended = true;
        None
    }

    /// Puts the question behind the clauses.
    fn ask(&mut self) -> Option<LogKind>
        requires open { self.old.ended ≡ false }
        requires unclosed { self.old.log.part.closed ≡ false }
        requires draft { IsDraft self.old }
        ensures taken { TakesAs (stage_of self.old) (codes "question") (stage_of self.new) result }
        ensures draft { IsDraft self.new }
    {
        if !self.awaits_question() {
            return Some(LogKind::BadLine);
        }
        self.log.ask();
        None
    }

    /// Has the empty clause end the log.
    fn close(&mut self) -> Option<LogKind>
        requires open { self.old.ended ≡ false }
        requires unclosed { self.old.log.part.closed ≡ false }
        requires draft { IsDraft self.old }
        ensures taken { TakesAs (stage_of self.old) (clause_line []) (stage_of self.new) result }
        ensures draft { IsDraft self.new }
    {
        if self.awaits_question() {
            return Some(LogKind::BadLine);
        }
        self.log.close();
        None
    }

    /// Appends the clause of a line.
    fn add_clause(
        &mut self,
        lits: &mut Vec<Lit>,
        line: &[u8],
    ) -> Result<Option<LogKind>, AllocError>
        requires open { self.old.ended ≡ false }
        requires unclosed { self.old.log.part.closed ≡ false }
        requires draft { IsDraft self.old }
        requires no_end { line.now ≢ codes "end" }
        requires no_question { line.now ≢ codes "question" }
        requires filled { line.now ≢ clause_line [] }
        ensures taken { IfOk result (λ fault. TakesAs (stage_of self.old) line.now (stage_of self.new) fault) }
        ensures draft { IsDraft self.new }
    {
        self.log.keeps_rules();
        lits.clear();
        let vars = self.log.part().vars();
        if let Some(kind) = read_clause(lits, vars, line)? {
            return Ok(Some(kind));
        }
        self.log.add(lits.as_slice())?;
        Ok(None)
    }

    /// Takes the next line, or answers what is bad about it. `lits` is room to work in.
    pub fn take(&mut self, lits: &mut Vec<Lit>, line: &[u8]) -> Result<Option<LogKind>, AllocError>
        requires { IsDraft self.old }
        ensures taken { IfOk result (λ fault. TakesAs (stage_of self.old) line.now (stage_of self.new) fault) }
        ensures draft { IsDraft self.new }
    {
        if self.ended {
            return Ok(Some(LogKind::BadLine));
        }
        if line == b"end".as_slice() {
            return Ok(self.end());
        }
        if self.log.part().closed() {
            return Ok(Some(LogKind::BadLine));
        }
        if line == b"question".as_slice() {
            return Ok(self.ask());
        }
        if line == b"0".as_slice() {
            return Ok(self.close());
        }
        let fault = self.add_clause(lits, line)?;
        Ok(fault)
    }
}
