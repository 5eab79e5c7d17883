ghost use Rattle.std.specs.Prelude.{◌≡◌, ℕ, ◌<◌, ◌≤◌, [], ◌∷◌, ◌++◌, true, length, All, None, Some, IfSome, IsSome, OnOk, OnErr};
ghost use Rattle.std.specs.List.Sorted.{IsStrictlyIncreasing};
ghost use Rattle.clause_store.specs.Clauses.{InVars};
ghost use Rattle.proof_log.specs.Logs.{IsDerivation, IsLog};
ghost use Rattle.proof_log.specs.Stages.{AreSites, with_clause, with_question, with_end};

use clause_store::{Lit, Store};
use fer_list::Seq;
use litmus_syntax::SiteKind;
use std::alloc::{AllocError, Global};
use std::marker::Model;

/// The clauses that a log puts behind those of a formula. None of them is empty: that the empty clause ends them is a
/// fact of its own.
#[derive(Debug, Drop)]
pub struct Part {
    clauses: u32,
    learned: Store,
    closed: bool,
}

impl Model for Part {
    ghost use Rattle.proof_log.specs.Logs.{Derivation, IsDerivation};

    ghost Value = { Derivation };

    ghost view = { λ p. record { vars = p.learned.vars; clauses = p.clauses; learned = p.learned.clauses; closed = p.closed } };

    ghost invariant = { λ p. IsDerivation (record { vars = p.learned.vars; clauses = p.clauses; learned = p.learned.clauses; closed = p.closed }) };
}

impl Part {
    /// The clauses of `learned`, over its variables, behind those of a formula that has `clauses` clauses; `closed` says
    /// that the empty clause ends them. It takes no memory.
    pub fn new(clauses: u32, learned: Store, closed: bool) -> Part
        requires filled { All (λ clause. 0 < length clause) learned.clauses }
        ensures { result ≡ record { vars = learned.vars; clauses = clauses; learned = learned.clauses; closed = closed } }
    {
        let _vars = learned.vars();
        Part {
            clauses,
            learned,
            closed,
        }
    }

    /// How many variables the formula has.
    pub fn vars(&self) -> u32
        ensures { result ≡ self.now.vars }
    {
        self.learned.vars()
    }

    /// How many clauses the formula has.
    pub fn clauses(&self) -> u32
        ensures { result ≡ self.now.clauses }
    {
        self.clauses
    }

    /// The clauses behind those of the formula, over its variables. None of them is empty.
    pub fn learned(&self) -> &Store
        ensures { result.now ≡ record { vars = self.now.vars; clauses = self.now.learned } }
    {
        &self.learned
    }

    /// Whether the empty clause ends them.
    pub fn closed(&self) -> bool
        ensures { result ≡ self.now.closed }
    {
        self.closed
    }

    /// Appends a clause. Where memory is refused, the part stays as it was.
    fn add(&mut self, lits: &[Lit]) -> Result<(), AllocError>
        requires named { All (InVars self.old.vars) lits.now }
        requires filled { 0 < length lits.now }
        ensures ok { OnOk result (self.new ≡ record self.old { learned = self.old.learned ++ lits.now ∷ [] }) }
        ensures err { OnErr result (self.new ≡ self.old) }
    {
        self.learned.add(lits)?;
        Ok(())
    }

    /// Has the empty clause end the part.
    fn close(&mut self)
        ensures { self.new ≡ record self.old { closed = true } }
    {
        self.closed = true;
    }

    /// The numbers of variables and clauses have 32 bits, no clause is empty, and each literal is of a variable that is
    /// there: this is known wherever there is a part.
    pub fn keeps_rules(&self)
        ensures { IsDerivation self.now }
    {
        let _closed = self.closed;
    }
}

/// Each number has 32 bits.
fn keep_width(numbers: &[u32])
    ensures { All (λ n. n ≤ 4294967295) numbers.now }
{}

/// A log: clauses behind those of a formula, and the syncs with which the formula was made. A log of the second version
/// also says how many of the clauses stand before the question.
#[derive(Debug, Drop)]
pub struct Log {
    kind: Option<SiteKind>,
    sites: Seq<u32>,
    part: Part,
    question: Option<usize>,
}

impl Model for Log {
    ghost use Rattle.proof_log.specs.Logs.{Logged, IsLog};

    ghost Value = { Logged };

    ghost view = { λ l. record { kind = l.kind; sites = l.sites; part = l.part; question = l.question } };

    ghost invariant = { λ l. IsLog (record { kind = l.kind; sites = l.sites; part = l.part; question = l.question }) };
}

impl Log {
    /// A log of the first version, made without syncs. It takes no memory.
    pub fn of_part(alloc: Global, part: Part) -> Log
        ensures { result ≡ record { kind = None; sites = []; part = part; question = None } }
    {
        part.keeps_rules();
        Log {
            kind: None,
            sites: Seq::new(alloc),
            part,
            question: None,
        }
    }

    /// A log made with syncs of a kind, whose numbers count from 1 and ascend. It is of the second version where `question`
    /// says how many of the clauses stand before the question. It takes no memory.
    pub fn with_sites(kind: SiteKind, sites: Seq<u32>, part: Part, question: Option<usize>) -> Log
        requires ascending { IsStrictlyIncreasing sites }
        requires numbered { All (λ n. 1 ≤ n) sites }
        requires asked { IfSome question (λ q. q ≤ length part.learned) }
        ensures { result ≡ record { kind = Some kind; sites = sites; part = part; question = question } }
    {
        keep_width(sites.as_slice());
        part.keeps_rules();
        Log {
            kind: Some(kind),
            sites,
            part,
            question,
        }
    }

    /// The kind of the syncs; nothing where the log is made without any.
    pub fn kind(&self) -> Option<SiteKind>
        ensures { result ≡ self.now.kind }
    {
        self.kind
    }

    /// The numbers of the syncs, which count from 1 and ascend.
    pub fn sites(&self) -> &[u32]
        ensures { result.now ≡ self.now.sites }
    {
        self.sites.as_slice()
    }

    /// The clauses.
    pub fn part(&self) -> &Part
        ensures { result.now ≡ self.now.part }
    {
        &self.part
    }

    /// How many of the clauses stand before the question, in the second version.
    pub fn question(&self) -> Option<usize>
        ensures { result ≡ self.now.question }
    {
        self.question
    }

    /// A log of the first version so far, whatever its syncs.
    pub(crate) fn begun(kind: Option<SiteKind>, sites: Seq<u32>, part: Part) -> Log
        requires sites { AreSites sites }
        requires none { kind ≡ None → sites ≡ [] }
        ensures { result ≡ record { kind = kind; sites = sites; part = part; question = None } }
    {
        part.keeps_rules();
        Log {
            kind,
            sites,
            part,
            question: None,
        }
    }

    /// Appends a clause. Where memory is refused, the log stays as it was.
    pub(crate) fn add(&mut self, lits: &[Lit]) -> Result<(), AllocError>
        requires named { All (InVars self.old.part.vars) lits.now }
        requires filled { 0 < length lits.now }
        ensures ok { OnOk result (self.new ≡ with_clause self.old lits.now) }
        ensures err { OnErr result (self.new ≡ self.old) }
    {
        self.part.add(lits)?;
        Ok(())
    }

    /// Puts the question behind the clauses that are there.
    pub(crate) fn ask(&mut self)
        requires { IsSome self.old.kind }
        ensures { self.new ≡ with_question self.old }
    {
        self.question = Some(self.part.learned.len());
    }

    /// Has the empty clause end the log.
    pub(crate) fn close(&mut self)
        ensures { self.new ≡ with_end self.old }
    {
        self.part.close();
    }

    /// The syncs ascend from 1 on, without a kind there are none, and no question, and the question stands behind no more
    /// clauses than there are; the clauses keep the rules of a part. This is known wherever there is a log.
    pub fn keeps_rules(&self)
        ensures { IsLog self.now }
    {
        let _question = self.question;
    }
}
