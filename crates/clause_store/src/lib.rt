//! Clauses over numbered variables, and what unit propagation makes of them. A `Store` is seen as a number of
//! variables and a list of clauses; it keeps them in one flat list, so that a clause is a slice of it. Each call is
//! pinned by one equation on the list of clauses. The module `laws` has the facts on propagation that a search and
//! a checker of its log stand on: what follows from clauses is true wherever they are, and what makes a clause new.
//! It stands on the list type alone.
#![tactic(auto)]

ghost use Rattle.std.specs.Prelude.{◌≡◌, ◌+◌, ◌<◌, ◌≤◌, ◌∷◌, ◌++◌, [], length, take, slice_get, IfOk, OnOk, OnErr, Some};
ghost use Rattle.std.specs.List.{All};
ghost use Rattle.clause_store.specs.Clauses.{InVars, negated};
ghost use Rattle.clause_store.specs.Arena.{AreEnds, pieces, start_at};

use fer_list::Seq;
use std::alloc::{AllocError, Global};
use std::marker::Model;

pub mod laws;

/// A variable or its negation. Variables are numbered from 1.
#[derive(Clone, Copy, Debug, PartialEq, Eq)]
pub struct Lit {
    pub var: u32,
    pub positive: bool,
}

impl Lit {
    /// The literal that is true where this one is false.
    pub fn negated(self) -> Lit
        ensures { result ≡ negated self }
    {
        Lit {
            var: self.var,
            positive: !self.positive,
        }
    }
}

/// A list of literals.
pub type Lits = Seq<Lit>;

/// A number of variables, and clauses over them that are numbered from 0.
#[derive(Debug, Drop)]
pub struct Store {
    vars: u32,
    lits: Vec<Lit>,
    ends: Vec<usize>,
}

impl Model for Store {
    ghost use Rattle.clause_store.specs.Clauses.{Formula};
    ghost use Rattle.clause_store.specs.Arena.{formula_of, IsArena};

    ghost Value = { Formula };

    ghost view = { λ s. formula_of s.vars s.ends.items s.lits.items };

    ghost invariant = { λ s. IsArena s.vars s.ends.items s.lits.items };
}

// Where the clause `id` begins: where the one before it ends.
fn start_of(ends: &[usize], id: usize) -> usize
    requires { id ≤ length ends.now }
    ensures { result ≡ start_at 0 ends.now id }
{
    if id == 0 { 0 } else { ends[id - 1] }
}

#[tactic(auto, using(crate::proofs::Pieces::start_le, crate::proofs::Pieces::end_le, crate::proofs::Pieces::get_pieces))]
fn piece<'a>(lits: &'a [Lit], ends: &[usize], id: usize) -> &'a [Lit]
    requires there { id < length ends.now }
    requires cut { AreEnds 0 ends.now (length lits.now) }
    ensures { slice_get (pieces 0 ends.now lits.now) id ≡ Some result.now }
{
    let end = ends[id];
    let start = start_of(ends, id);
    &lits[start..end]
}

impl Store {
    /// A store with this number of variables and no clause. It takes no memory.
    pub fn new(alloc: Global, vars: u32) -> Store
        ensures { result ≡ record { vars = vars; clauses = [] } }
    {
        Store {
            vars,
            lits: Vec::new(alloc),
            ends: Vec::new(alloc),
        }
    }

    /// How many variables there are. Each literal of each clause is of a variable from 1 to this number.
    pub fn vars(&self) -> u32
        ensures number { result ≡ self.now.vars }
        ensures named { All (All (InVars self.now.vars)) self.now.clauses }
    {
        self.vars
    }

    /// How many clauses there are.
    #[tactic(auto, using(crate::proofs::Pieces::length_pieces))]
    pub fn len(&self) -> usize
        ensures { result ≡ length self.now.clauses }
    {
        self.ends.len()
    }

    /// The clause `id`, counted from 0, in constant time. Its literals are of variables that are there.
    #[tactic(auto, using(crate::proofs::Pieces::length_pieces))]
    pub fn clause(&self, id: usize) -> &[Lit]
        requires { id < length self.now.clauses }
        ensures clause { slice_get self.now.clauses id ≡ Some result.now }
        ensures named { All (InVars self.now.vars) result.now }
    {
        piece(self.lits.as_slice(), self.ends.as_slice(), id)
    }

    /// Makes room for variables up to the number `vars`. The clauses stay. It takes no memory.
    pub fn raise_vars(&mut self, vars: u32)
        requires { self.old.vars ≤ vars }
        ensures { self.new ≡ record self.old { vars = vars } }
    {
        self.vars = vars;
    }

    /// Appends a clause and answers its number. Where memory is refused, the store stays as it was.
    pub fn add(&mut self, lits: &[Lit]) -> Result<usize, AllocError>
        requires { All (InVars self.old.vars) lits.now }
        ensures number { IfOk result (λ id. id ≡ length self.old.clauses) }
        ensures added { OnOk result (self.new ≡ record self.old { clauses = self.old.clauses ++ lits.now ∷ [] }) }
        ensures err { OnErr result (self.new ≡ self.old) }
    {
        let id = self.ends.len();
        let start = self.lits.len();
        self.lits.extend_from_slice(lits)?;
        let end = self.lits.len();
        if self.ends.push(end).is_err() {
            self.lits.truncate(start);
            return Err(AllocError);
        }
        Ok(id)
    }

    /// Takes room for so many more clauses with so many more literals together, so that adding them asks for none. Nothing
    /// else changes, also where memory is refused.
    pub fn reserve(&mut self, clauses: usize, lits: usize) -> Result<(), AllocError>
        ensures { self.new ≡ self.old }
    {
        self.lits.reserve(lits)?;
        self.ends.reserve(clauses)?;
        Ok(())
    }

    /// Keeps the first `len` clauses. The variables stay. It takes no memory.
    pub fn truncate(&mut self, len: usize)
        requires { len ≤ length self.old.clauses }
        ensures { self.new ≡ record self.old { clauses = take len self.old.clauses } }
    {
        let end = start_of(self.ends.as_slice(), len);
        self.ends.truncate(len);
        self.lits.truncate(end);
    }
}

#[cfg(test)]
mod tests;
