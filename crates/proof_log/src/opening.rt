ghost use Rattle.std.specs.Prelude.{◌≡◌, ◌≤◌, ℕ, Bool, List, ◌++◌, Option, None, Some, IfOk, MatchOption, true, [], IsSome};
ghost use Rattle.litmus_syntax.specs.declared.site.SiteKind.{SiteKind as KindOf};
ghost use Rattle.numerals.specs.Numbers.{numbers_text};
ghost use Rattle.proof_log.specs.LogText.{head_line, sites_line, formula_line, kind_word};
ghost use Rattle.proof_log.specs.Stages.{AreSites, MayBeMadeWith};

use crate::tokens::{behind, next_number};
use fer_list::Seq;
use litmus_syntax::SiteKind;
use std::alloc::{AllocError, Global};

/// Whether the line is the head of the second version, if it is a head.
pub fn version_of(line: &[u8]) -> Option<bool>
    ensures { MatchOption result
        ((second : Bool) → line.now ≡ head_line second → ⊥)
        (λ second. line.now ≡ head_line second) }
{
    if line == b"ferrite log 1".as_slice() {
        return Some(false);
    }
    if line == b"ferrite log 2".as_slice() {
        return Some(true);
    }
    None
}

/// The kind whose word stands at the front, and what stands behind it.
fn kind_of(bytes: &[u8]) -> Option<(SiteKind, &[u8])>
    ensures { MatchOption result
        ((kind : KindOf) (rest : List ℕ) → bytes.now ≡ kind_word kind ++ rest → ⊥)
        (λ r. bytes.now ≡ kind_word r.0 ++ r.1.now) }
{
    if let Some(rest) = behind(bytes, b"fsync") {
        return Some((SiteKind::Fsync, rest));
    }
    if let Some(rest) = behind(bytes, b"sync") {
        return Some((SiteKind::Sync, rest));
    }
    if let Some(rest) = behind(bytes, b"all") {
        return Some((SiteKind::All, rest));
    }
    None
}

/// The numbers of syncs that are all of the bytes.
fn numbers_of(alloc: Global, bytes: &[u8]) -> Result<Option<Seq<u32>>, AllocError>
    ensures { IfOk result (λ found. MatchOption found
        ((sites : List ℕ) → AreSites sites → bytes.now ≡ numbers_text sites → ⊥)
        (λ sites. AreSites sites × (bytes.now ≡ numbers_text sites))) }
{
    let mut sites = Vec::new(alloc);
    let mut last = 0;
    let mut rest = bytes;
    while let Some((site, behind)) = next_number(rest) {
        if site <= last {
            return Ok(None);
        }
        sites.push(site)?;
        last = site;
        rest = behind;
    }
    if !rest.is_empty() {
        return Ok(None);
    }
    Ok(Some(Seq::from_vec(sites)))
}

/// The syncs for which a log is made.
#[derive(Drop)]
pub struct Sites {
    pub kind: Option<SiteKind>,
    pub numbers: Seq<u32>,
}

/// The syncs of a line, if it is one of syncs.
pub fn sites_of(alloc: Global, second: bool, line: &[u8]) -> Result<Option<Sites>, AllocError>
    ensures { IfOk result (λ found. MatchOption found
        ((kind : Option KindOf) (sites : List ℕ) → MayBeMadeWith second kind sites → line.now ≡ sites_line kind sites → ⊥)
        (λ s. MayBeMadeWith second s.kind s.numbers × (line.now ≡ sites_line s.kind s.numbers))) }
{
    let Some(word) = behind(line, b"sites ") else {
        return Ok(None);
    };
    if word == b"none".as_slice() {
        if second {
            return Ok(None);
        }
        return Ok(Some(Sites {
            kind: None,
            numbers: Seq::new(alloc),
        }));
    }
    let Some((kind, bytes)) = kind_of(word) else {
        return Ok(None);
    };
    let Some(numbers) = numbers_of(alloc, bytes)? else {
        return Ok(None);
    };
    Ok(Some(Sites {
        kind: Some(kind),
        numbers,
    }))
}

/// The numbers of variables and clauses of a line, if it is one of a formula.
pub fn formula_of(line: &[u8]) -> Option<(u32, u32)>
    ensures { MatchOption result
        ((vars clauses : ℕ) → vars ≤ 4294967295 → clauses ≤ 4294967295 → line.now ≡ formula_line vars clauses → ⊥)
        (λ r. (r.0 ≤ 4294967295) × (r.1 ≤ 4294967295) × (line.now ≡ formula_line r.0 r.1)) }
{
    let Some(bytes) = behind(line, b"formula") else {
        return None;
    };
    let Some((vars, rest)) = next_number(bytes) else {
        return None;
    };
    let Some((clauses, end)) = next_number(rest) else {
        return None;
    };
    if !end.is_empty() {
        return None;
    }
    Some((vars, clauses))
}
