//! Two watched literals for each clause, in chains, as Chaff and MiniSat find the clauses that a false literal makes unit
//! without going through the others. `propagate` closes a trail under the attached clauses: it answers `None` exactly
//! where none is false and none is unit, and else a false one. Watches and trail are in step where each watched literal
//! that is false and gone through stands beside a true one of no higher level; every call of the trail keeps that, a jump
//! back too, which repairs nothing. Each place of a chain holds a link and the literal that it watches, so that moving a
//! watch changes indices and takes no memory, and the clauses are never reordered. The module `laws` says what keeps
//! watches and trail in step and what follows from it. It stands on `trail_core` and `clause_store`.
#![tactic(auto)]

ghost use Rattle.std.specs.Prelude.{◌≡◌, ◌≢◌, ◌+◌, ◌*◌, ◌^◌, ◌<◌, ◌≤◌, ◌∷◌, ◌++◌, [], List, length, not, slice_index_or, slice_get, Some, None, IfOk, IfSome, IfNone, IsNone, ◌↔◌, MatchOption, MatchBool, OnOk, OnErr, ◌⊎◌};
ghost use Rattle.std.specs.List.{All, Contains};
ghost use Rattle.clause_store.specs.declared.Lit.{Lit};
ghost use Rattle.clause_store.specs.Clauses.{InVars};
ghost use Rattle.trail_core.specs.Course.{IsCourse, Holds, Fails};
ghost use Rattle.trail_core.specs.Standing.{OthersFail};
ghost use Rattle.watch_lists.specs.Watching.{Watch, numbers, AreWatches, AreInStep, UnseenArePresent, IsNotFalse, IsHighest, CanBeWatched, IsWellChosen};
ghost use Rattle.watch_lists.specs.Propagated.{IsConflict, Advances, IsSettled, AreSafe};
ghost use Rattle.watch_lists.specs.Going.{code, place, watches_of, IsUnderway, IsPrepared, IsChained, AreChained, AreAnswered, IsNext, IsHigher, IsHighestBut, IsTruth, IsFound};

pub mod laws;
mod links;
mod standing;

use clause_store::{Lit, Store};
use links::Chains;
pub use standing::{Standing, standing_of};
use std::alloc::{AllocError, Global};
use std::marker::Model;
use trail_core::Trail;

// What a clause asks for, one of whose watched literals is false and the other one isn't true: to watch another literal,
// to make the other one true, or nothing, as all its literals are false.
enum Finding {
    Free(Lit),
    Unit,
    False,
}

// The chain of the places that watch this literal. The chain 0 is of none.
fn code_of(l: Lit) -> usize
    ensures { result ≡ code l }
{
    2 * l.var as usize + if l.positive { 1 } else { 0 } + 1
}

// Whether the literal is true, where its variable has a value.
fn truth(trail: &Trail, l: Lit) -> Option<bool>
    requires { InVars trail.now.vars l }
    ensures truth { IsTruth trail.now.entries l result }
    ensures course { IsCourse trail.now }
{
    let value = trail.values()[l.var as usize - 1];
    match value {
        None => None,
        Some(b) => Some(b == l.positive),
    }
}

fn is_true(trail: &Trail, l: Lit) -> bool
    requires { InVars trail.now.vars l }
    ensures { MatchBool result (Holds trail.now.entries l) (Holds trail.now.entries l → ⊥) }
{
    match truth(trail, l) {
        None => false,
        Some(b) => b,
    }
}

fn is_false(trail: &Trail, l: Lit) -> bool
    requires { InVars trail.now.vars l }
    ensures { MatchBool result (Fails trail.now.entries l) (Fails trail.now.entries l → ⊥) }
{
    match truth(trail, l) {
        None => false,
        Some(b) => !b,
    }
}

// A literal of the clause other than this one that isn't false, if there is one.
fn find_free(trail: &Trail, clause: &[Lit], o: Lit) -> Option<Lit>
    requires { All (InVars trail.now.vars) clause.now }
    ensures { MatchOption result (OthersFail trail.now.entries clause.now o) (λ m. Contains clause.now m × (m ≢ o) × (Fails trail.now.entries m → ⊥)) }
{
    for m in clause {
        if *m != o {
            if !is_false(trail, *m) {
                return Some(*m);
            }
        }
    }
    None
}

// What a clause asks for, where its other watched literal is `o`.
fn look(trail: &Trail, clause: &[Lit], o: Lit) -> Finding
    requires named { All (InVars trail.now.vars) clause.now }
    requires has { Contains clause.now o }
    requires not_true { Holds trail.now.entries o → ⊥ }
    ensures { IsFound trail.now.entries clause.now o result }
{
    match find_free(trail, clause, o) {
        Some(m) => Finding::Free(m),
        None => {
            if is_false(trail, o) {
                Finding::False
            } else {
                Finding::Unit
            }
        }
    }
}

// The clause that a place is of, counted in the order of attaching, and its side.
fn side_of(at: usize) -> (usize, bool)
    ensures { at ≡ place result.0 result.1 }
{
    (at / 2, at % 2 == 1)
}

// The literal that is watched beside this place.
fn beside(chains: &Chains, slot: usize, second: bool) -> Lit
    requires there { 2 * slot + 1 < length chains.now.lits }
    requires fits { slot < 2 ^ 63 }
    ensures { slice_get chains.now.lits (place slot (not second)) ≡ Some result }
{
    if second {
        chains.lit(2 * slot)
    } else {
        chains.lit(2 * slot + 1)
    }
}

// Goes through one place of the chain of a literal that has become false.
fn visit(
    store: &Store,
    trail: &mut Trail,
    ids: &[usize],
    chains: &mut Chains,
    l: Lit,
    at: usize,
) -> Option<usize>
    requires going { IsUnderway store.now.clauses trail.old ids.now chains.old l }
    requires first { slice_get (slice_index_or chains.old.lists 0 []) 0 ≡ Some at }
    ensures going { IsUnderway store.now.clauses trail.new ids.now chains.new l }
    ensures advances { Advances store.now.clauses ids.now trail.old trail.new }
    ensures seen { trail.new.seen ≡ trail.old.seen }
    ensures shorter { IfNone result (length (slice_index_or chains.new.lists 0 []) + 1 ≡ length (slice_index_or chains.old.lists 0 [])) }
    ensures conflict { IfSome result (λ id. IsConflict store.now.clauses ids.now trail.new.entries id) }
{
    let (slot, side) = side_of(at);
    let o = beside(chains, slot, side);
    if is_true(trail, o) {
        chains.shift(0, code_of(l));
        return None;
    }
    let id = ids[slot];
    match look(trail, store.clause(id), o) {
        Finding::Free(m) => {
            chains.set_lit(at, m);
            chains.shift(0, code_of(m));
            return None;
        }
        Finding::Unit => {
            trail.imply(o, id);
            chains.shift(0, code_of(l));
            return None;
        }
        Finding::False => return Some(id),
    }
}

// Goes through the places of a literal that has become false, which stand in the chain 0, and puts those that stay back
// into its own chain.
fn go_through(
    store: &Store,
    trail: &mut Trail,
    ids: &[usize],
    chains: &mut Chains,
    l: Lit,
) -> Option<usize>
    requires { IsUnderway store.now.clauses trail.old ids.now chains.old l }
    ensures going { IsUnderway store.now.clauses trail.new ids.now chains.new l }
    ensures advances { Advances store.now.clauses ids.now trail.old trail.new }
    ensures seen { trail.new.seen ≡ trail.old.seen }
    ensures done { IfNone result (slice_index_or chains.new.lists 0 [] ≡ []) }
    ensures conflict { IfSome result (λ id. IsConflict store.now.clauses ids.now trail.new.entries id) }
{
    'chain: loop {
        match chains.first(0) {
            None => return None,
            Some(at) => {
                if let Some(id) = visit(store, trail, ids, chains, l, at) {
                    return Some(id);
                }
            }
        }
    }
}

// Puts what is in the chain 0 back into the chain of a literal.
fn put_back(chains: &mut Chains, l: Lit)
    requires { code l < length chains.old.lists }
    ensures chained { (list : List Watch) → IsChained (code l) chains.old.lists list → AreChained chains.new.lists list }
    ensures len { length chains.new.lists ≡ length chains.old.lists }
    ensures lits { chains.new.lits ≡ chains.old.lits }
{
    'back: loop {
        match chains.first(0) {
            None => return,
            Some(_) => chains.shift(0, code_of(l)),
        }
    }
}

// Goes through the clauses that watch a literal that has become false. Its chain stands in the chain 0 meanwhile, so that
// each place is moved once.
fn follow(
    store: &Store,
    trail: &mut Trail,
    ids: &[usize],
    chains: &mut Chains,
    l: Lit,
) -> Option<usize>
    requires ready { IsPrepared store.now.clauses trail.old ids.now chains.old }
    requires false_lit { Fails trail.old.entries l }
    ensures ready { IsPrepared store.now.clauses trail.new ids.now chains.new }
    ensures advances { Advances store.now.clauses ids.now trail.old trail.new }
    ensures seen { trail.new.seen ≡ trail.old.seen }
    ensures answered { IfNone result (AreAnswered trail.new.entries (watches_of ids.now chains.new.lits) l) }
    ensures conflict { IfSome result (λ id. IsConflict store.now.clauses ids.now trail.new.entries id) }
{
    chains.exchange(0, code_of(l));
    let found = go_through(store, trail, ids, chains, l);
    put_back(chains, l);
    found
}

// The negation of the first literal that isn't seen.
fn next_false(trail: &Trail) -> Option<Lit>
    ensures next { IsNext trail.now result }
    ensures short { length trail.now.entries ≤ trail.now.vars }
{
    let seen = trail.seen() as usize;
    let lits = trail.lits();
    if seen < lits.len() {
        let l = lits[seen];
        Some(l.negated())
    } else {
        None
    }
}

// Goes through what isn't seen.
fn run(store: &Store, trail: &mut Trail, ids: &[usize], chains: &mut Chains) -> Option<usize>
    requires ready { IsPrepared store.now.clauses trail.old ids.now chains.old }
    requires unseen { UnseenArePresent trail.old }
    ensures ready { IsPrepared store.now.clauses trail.new ids.now chains.new }
    ensures unseen { UnseenArePresent trail.new }
    ensures advances { Advances store.now.clauses ids.now trail.old trail.new }
    ensures all_seen { IfNone result (trail.new.seen ≡ length trail.new.entries) }
    ensures conflict { IfSome result (λ id. IsConflict store.now.clauses ids.now trail.new.entries id) }
{
    'round: loop {
        match next_false(trail) {
            None => return None,
            Some(l) => {
                if let Some(id) = follow(store, trail, ids, chains, l) {
                    return Some(id);
                }
                trail.see();
            }
        }
    }
}

// A literal of the clause that isn't false.
fn first_watch(trail: &Trail, clause: &[Lit]) -> Lit
    requires named { All (InVars trail.now.vars) clause.now }
    requires some { (l : Lit) × Contains clause.now l × IsNotFalse trail.now.entries l }
    ensures has { Contains clause.now result }
    ensures not_false { IsNotFalse trail.now.entries result }
{
    let mut first = clause[0];
    for m in clause {
        if is_false(trail, first) {
            first = *m;
        }
    }
    first
}

// Of two false literals one of the higher level.
fn higher(trail: &Trail, best: Option<Lit>, m: Lit) -> Lit
    requires false_m { Fails trail.now.entries m }
    requires false_best { IfSome best (λ b. Fails trail.now.entries b) }
    ensures { IsHigher trail.now.entries best m result }
{
    match best {
        None => m,
        Some(b) => {
            if trail.level_of(b.var) < trail.level_of(m.var) {
                m
            } else {
                b
            }
        }
    }
}

// The literal of the highest level among those other than `first`, which are false.
fn highest(trail: &Trail, clause: &[Lit], first: Lit) -> Option<Lit>
    requires { OthersFail trail.now.entries clause.now first }
    ensures { MatchOption result ((m : Lit) → Contains clause.now m → m ≡ first) (λ b. Contains clause.now b × (b ≢ first) × IsHighestBut trail.now.entries clause.now first b) }
{
    prove!(trail.seen() as usize <= trail.lits().len());
    let mut best: Option<Lit> = None;
    for m in clause {
        if *m != first {
            best = Some(higher(trail, best, *m));
        }
    }
    best
}

// A second literal to be watched: one that isn't false, or else of the highest false level.
fn second_watch(trail: &Trail, clause: &[Lit], first: Lit) -> Lit
    requires named { All (InVars trail.now.vars) clause.now }
    requires two { (m : Lit) × Contains clause.now m × (m ≢ first) }
    requires first { IsNotFalse trail.now.entries first }
    ensures has { Contains clause.now result }
    ensures other { first ≢ result }
    ensures good { IsNotFalse trail.now.entries result ⊎ (IsHighest trail.now.entries clause.now result × OthersFail trail.now.entries clause.now first) }
{
    match find_free(trail, clause, first) {
        Some(m) => m,
        None => match highest(trail, clause, first) {
            Some(b) => b,
            None => first,
        },
    }
}

/// The clauses of a store that are attached, and for each the two of its literals that are watched.
#[derive(Drop)]
pub struct Watches {
    vars: u32,
    // The numbers of the attached clauses. The one at place i has the places 2 * i and 2 * i + 1 of the chains.
    ids: Vec<usize>,
    chains: Chains,
}

impl Model for Watches {
    ghost use Rattle.watch_lists.specs.Watching.{Watching};
    ghost use Rattle.watch_lists.specs.Going.{AreHung, watches_of};

    ghost Value = { Watching };

    ghost view = { λ s. record { vars = s.vars; list = watches_of s.ids.items s.chains.lits } };

    ghost invariant = { λ s. AreHung s.vars s.ids.items s.chains };
}

impl Watches {
    /// Watches over variables from 1 to `vars`, with no clause attached. It takes room for a chain of each literal.
    pub fn new(alloc: Global, vars: u32) -> Result<Watches, AllocError>
        ensures { IfOk result (λ w. w ≡ record { vars = vars; list = [] }) }
    {
        let chains = Chains::new(alloc, 2 * vars as usize + 3)?;
        let watches = Watches {
            vars,
            ids: Vec::new(alloc),
            chains,
        };
        Ok(watches)
    }

    /// Takes room for so many more clauses, so that attaching them asks for none. Nothing else changes, also where memory
    /// is refused.
    pub fn reserve(&mut self, clauses: usize) -> Result<(), AllocError>
        ensures { self.new ≡ self.old }
    {
        self.ids.reserve(clauses)?;
        self.chains.reserve(clauses.saturating_mul(2))?;
        Ok(())
    }

    /// Attaches the clause of this number, of which these two literals are watched, without a look at the clause. Where memory
    /// is refused, nothing is attached.
    pub fn watch(&mut self, id: usize, first: Lit, second: Lit) -> Result<(), AllocError>
        requires first_in { InVars self.old.vars first }
        requires second_in { InVars self.old.vars second }
        ensures attached { OnOk result (self.new ≡ record self.old { list = self.old.list ++ record { clause = id; first = first; second = second } ∷ [] }) }
        ensures err { OnErr result (self.new ≡ self.old) }
    {
        let n = self.ids.len();
        self.ids.push(id)?;
        let chain = code_of(first);
        if self
            .chains
            .add_pair(chain, first, code_of(second), second)
            .is_err()
        {
            self.ids.truncate(n);
            return Err(AllocError);
        }
        Ok(())
    }

    /// Attaches the clause `id` of the store, which has to have two different literals and one that isn't false. Two
    /// literals are watched that aren't false where it has them, and else that one and a false one of the highest level.
    /// Where memory is refused, nothing is attached.
    pub fn attach(&mut self, store: &Store, trail: &Trail, id: usize) -> Result<(), AllocError>
        requires over { self.old.vars ≡ store.now.vars }
        requires over_trail { trail.now.vars ≡ store.now.vars }
        requires can { CanBeWatched store.now.clauses trail.now.entries id }
        ensures attached { OnOk result ((w : Watch) × (self.new ≡ record self.old { list = self.old.list ++ w ∷ [] }) × (w.clause ≡ id) × IsWellChosen store.now.clauses trail.now.entries w) }
        ensures err { OnErr result (self.new ≡ self.old) }
    {
        let clause = store.clause(id);
        let first = first_watch(trail, clause);
        let second = second_watch(trail, clause, first);
        self.watch(id, first, second)?;
        Ok(())
    }

    /// Closes the trail under the attached clauses that are unit, and answers the number of one that is false, or `None`
    /// exactly where none is false and none is unit in the end. Each literal that is put on the trail has the clause that
    /// implied it as its reason. Watches and trail have to be in step, and stay so with either answer. It takes no memory,
    /// and goes through the clauses that watch a literal that has become false, and through no others.
    pub fn propagate(&mut self, store: &Store, trail: &mut Trail) -> Option<usize>
        requires over { self.old.vars ≡ store.now.vars }
        requires over_trail { trail.old.vars ≡ store.now.vars }
        requires watches { AreWatches store.now.clauses self.old.list }
        requires in_step { AreInStep self.old.list trail.old }
        requires unseen { UnseenArePresent trail.old }
        ensures vars { self.new.vars ≡ self.old.vars }
        ensures attached { numbers self.new.list ≡ numbers self.old.list }
        ensures watches { AreWatches store.now.clauses self.new.list }
        ensures in_step { AreInStep self.new.list trail.new }
        ensures unseen { UnseenArePresent trail.new }
        ensures advances { Advances store.now.clauses (numbers self.old.list) trail.old trail.new }
        ensures exact { IsNone result ↔ IsSettled store.now.clauses (numbers self.old.list) trail.new.entries }
        ensures conflict { IfSome result (λ id. IsConflict store.now.clauses (numbers self.old.list) trail.new.entries id) }
        ensures all_seen { IfNone result (trail.new.seen ≡ length trail.new.entries) }
        ensures safe { IfNone result (AreSafe store.now.clauses (numbers self.old.list) trail.new.entries) }
    {
        prove_eq!(store.vars(), self.vars);
        prove!(trail.seen() as usize <= trail.lits().len());
        run(store, trail, self.ids.as_slice(), &mut self.chains)
    }
}

#[cfg(test)]
mod tests;
