//! Chains of places. A place moves from chain to chain by changing indices.

ghost use Rattle.std.specs.Prelude.{◌≡◌, ◌≢◌, ℕ, ◌+◌, ◌<◌, ◌∷◌, ◌++◌, [], List, length, slice_index_or, slice_get, slice_set, Some, IfOk, OnErr, OnOk, replicate};
ghost use Rattle.clause_store.specs.declared.Lit.{Lit};
ghost use Rattle.watch_lists.specs.Links.{exchanged, shifted, pushed, Moves};

use clause_store::Lit;
use std::alloc::{AllocError, Global};
use std::marker::Model;

// A place of a chain: a link to the next one, which is 0 at the chain's end and else that place plus 1, and the literal
// that is watched here. The two places of a clause lie side by side, so that one look tells both.
#[derive(Clone, Copy)]
struct Place {
    next: usize,
    lit: Lit,
}

#[derive(Drop)]
pub struct Chains {
    heads: Vec<usize>,
    places: Vec<Place>,
}

impl Model for Chains {
    ghost use Rattle.watch_lists.specs.Links.{Chained, Linked, lists_of, nexts, chained_of};

    ghost Value = { Chained };

    ghost view = { λ c. chained_of c.heads.items c.places.items };

    ghost invariant = { λ c. Linked c.heads.items (nexts c.places.items) (lists_of c.heads.items (nexts c.places.items)) };
}

impl Chains {
    /// So many chains without a place.
    pub fn new(alloc: Global, n: usize) -> Result<Chains, AllocError>
        ensures { IfOk result (λ c. c ≡ record { lists = replicate n []; lits = [] }) }
    {
        let heads = vec![in alloc; 0; n]?;
        let chains = Chains {
            heads,
            places: Vec::new(alloc),
        };
        Ok(chains)
    }

    /// Takes room for so many more places.
    pub fn reserve(&mut self, places: usize) -> Result<(), AllocError>
        ensures { self.new ≡ self.old }
    {
        self.places.reserve(places)?;
        Ok(())
    }

    /// Puts a new place with the literal `a` before the chain `k`, and the one after it with `b` before `m`.
    pub fn add_pair(&mut self, k: usize, a: Lit, m: usize, b: Lit) -> Result<(), AllocError>
        requires k_in { k < length self.old.lists }
        requires m_in { m < length self.old.lists }
        ensures ok { OnOk result (self.new ≡ record { lists = pushed m (length self.old.lits + 1) (pushed k (length self.old.lits) self.old.lists); lits = self.old.lits ++ a ∷ b ∷ [] }) }
        ensures err { OnErr result (self.new ≡ self.old) }
    {
        let place = self.places.len();
        let pair = [
            Place {
                next: self.heads[k],
                lit: a,
            },
            Place { next: 0, lit: b },
        ];
        self.places.extend_from_slice(pair.as_slice())?;
        self.heads[k] = place + 1;
        self.places[place + 1] = Place {
            next: self.heads[m],
            lit: b,
        };
        self.heads[m] = place + 2;
        Ok(())
    }

    /// The first place of the chain, if it has one.
    pub fn first(&self, k: usize) -> Option<usize>
        requires { k < length self.now.lists }
        ensures { slice_get (slice_index_or self.now.lists k []) 0 ≡ result }
    {
        let link = self.heads[k];
        if link == 0 { None } else { Some(link - 1) }
    }

    /// The literal that the place watches.
    pub fn lit(&self, place: usize) -> Lit
        requires { place < length self.now.lits }
        ensures { slice_get self.now.lits place ≡ Some result }
    {
        self.places[place].lit
    }

    /// Gives the place another literal to watch. It stays in its chain.
    pub fn set_lit(&mut self, place: usize, lit: Lit)
        requires { place < length self.old.lits }
        ensures { self.new ≡ record self.old { lits = slice_set self.old.lits place lit } }
    {
        let next = self.places[place].next;
        self.places[place] = Place { next, lit };
    }

    /// Exchanges two chains.
    pub fn exchange(&mut self, a: usize, b: usize)
        requires a_in { a < length self.old.lists }
        requires b_in { b < length self.old.lists }
        ensures { self.new ≡ record self.old { lists = exchanged a b self.old.lists } }
    {
        let link = self.heads[a];
        self.heads[a] = self.heads[b];
        self.heads[b] = link;
    }

    /// Puts the first place of one chain before another.
    pub fn shift(&mut self, from: usize, to: usize)
        requires from_in { from < length self.old.lists }
        requires to_in { to < length self.old.lists }
        requires two { from ≢ to }
        requires some { 0 < length (slice_index_or self.old.lists from []) }
        ensures lists { self.new ≡ record self.old { lists = shifted from to self.old.lists } }
        ensures moves { (x : ℕ) (xs : List ℕ) → slice_index_or self.old.lists from [] ≡ x ∷ xs → Moves self.old.lists self.new.lists x to }
    {
        let link = self.heads[from];
        let place = link - 1;
        let lit = self.places[place].lit;
        self.heads[from] = self.places[place].next;
        self.places[place] = Place {
            next: self.heads[to],
            lit,
        };
        self.heads[to] = link;
    }
}
