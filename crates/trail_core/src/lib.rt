//! The trail of a clause-learning search: the literals that were made true, in their order, as MiniSat keeps them. A
//! decided literal opens a level, and an implied one stands at the present level with the clause that implied it as its
//! reason. A search puts literals behind the others, goes through them from the front, and jumps back by taking all
//! above a level away. A `Trail` is seen as the list of its entries, its level, and how many entries were gone
//! through. By variable it keeps the value, the level and the reason, so that each call takes constant time, but for
//! `back_to`, whose time goes by what it takes back. Only `new` takes memory. The module `laws` says what is true of
//! all trails. It stands on the literals of `clause_store` alone.
#![tactic(auto)]

ghost use Rattle.std.specs.Prelude.{◌≡◌, ℕ, ◌+◌, ◌-◌, ◌<◌, ◌≤◌, [], length, slice_index_or, IfOk, None, MatchOption};
ghost use Rattle.std.specs.List.{Contains};
ghost use Rattle.clause_store.specs.Clauses.{InVars};
ghost use Rattle.trail_core.specs.Course.{Entry, IsCourse, IsValue, HasValue, HasNoValue, lits_of, up_to, extended, decided, implied, taken_back};
ghost use Rattle.trail_core.specs.Kept.{AreFront, entries_of};

use clause_store::Lit;
use std::alloc::{AllocError, Global};
use std::marker::Model;

pub mod laws;

// At which level a variable got its value, and the clause that implied it, none where it was decided. Without a value
// what stands here is left over.
#[derive(Clone, Copy)]
struct Origin {
    level: u32,
    reason: Option<usize>,
}

/// The literals that were made true, in their order, each with its level and its reason. Variables are numbered from 1,
/// levels from 0, the level before the first decision, and clauses from 0.
#[derive(Drop)]
pub struct Trail {
    values: Vec<Option<bool>>,
    origins: Vec<Origin>,
    // A place for each variable. The first `count` of them are the trail.
    lits: Vec<Lit>,
    count: u32,
    level: u32,
    seen: u32,
}

impl Model for Trail {
    ghost use Rattle.trail_core.specs.Course.{Course};
    ghost use Rattle.trail_core.specs.Kept.{course_of, IsKept};

    ghost Value = { Course };

    ghost view = { λ t. course_of t.values.items t.origins.items t.lits.items t.count t.level t.seen };

    ghost invariant = { λ t. IsKept t.values.items t.origins.items t.lits.items t.count t.level t.seen };
}

// Takes the values of the last literals away, down to the level, and answers how many literals are left.
fn take_back(
    lits: &[Lit],
    origins: &[Origin],
    values: &mut [Option<bool>],
    count: u32,
    level: u32,
) -> u32
    requires { AreFront values.old origins.now lits.now count }
    ensures front { AreFront values.new origins.now lits.now result }
    ensures left { entries_of origins.now lits.now result ≡ up_to level (entries_of origins.now lits.now count) }
{
    let mut left = count;
    while left > 0 {
        let lit = lits[left as usize - 1];
        let place = lit.var as usize - 1;
        if origins[place].level <= level {
            return left;
        }
        values[place] = None;
        left -= 1;
    }
    left
}

impl Trail {
    /// A trail over variables from 1 to `vars`, without a literal, at level 0. It takes room for all of them.
    pub fn new(alloc: Global, vars: u32) -> Result<Trail, AllocError>
        ensures { IfOk result (λ t. t ≡ record { vars = vars; level = 0; seen = 0; entries = [] }) }
    {
        let nothing = Origin {
            level: 0,
            reason: None,
        };
        let nowhere = Lit {
            var: 0,
            positive: false,
        };
        let values = vec![in alloc; None; vars as usize]?;
        let origins = vec![in alloc; nothing; vars as usize]?;
        let lits = vec![in alloc; nowhere; vars as usize]?;
        let trail = Trail {
            values,
            origins,
            lits,
            count: 0,
            level: 0,
            seen: 0,
        };
        Ok(trail)
    }

    /// The values of all variables, that of variable v at place v - 1, and `None` where it has none.
    pub fn values(&self) -> &[Option<bool>]
        ensures len { length result.now ≡ self.now.vars }
        ensures each { (v : ℕ) → 1 ≤ v → v ≤ self.now.vars → IsValue self.now.entries v (slice_index_or result.now (v - 1) None) }
        ensures course { IsCourse self.now }
    {
        self.values.as_slice()
    }

    /// The present level, 0 before the first decision. It is the number of decided literals.
    pub fn level(&self) -> u32
        ensures level { result ≡ self.now.level }
        ensures course { IsCourse self.now }
    {
        self.level
    }

    /// The literals in the order in which they were made true. There are at most as many as variables.
    pub fn lits(&self) -> &[Lit]
        ensures lits { result.now ≡ lits_of self.now.entries }
        ensures short { length self.now.entries ≤ self.now.vars }
        ensures course { IsCourse self.now }
    {
        let (front, _) = self.lits.as_slice().split_at(self.count as usize);
        front
    }

    /// The level at which the variable got its value. It has to have one.
    pub fn level_of(&self, var: u32) -> u32
        requires { HasValue self.now.entries var }
        ensures { (e : Entry) → Contains self.now.entries e → e.lit.var ≡ var → result ≡ e.level }
    {
        self.origins[var as usize - 1].level
    }

    /// The number of the clause that implied the variable's value, and `None` where its literal was decided. The variable
    /// has to have a value.
    pub fn reason_of(&self, var: u32) -> Option<usize>
        requires { HasValue self.now.entries var }
        ensures { (e : Entry) → Contains self.now.entries e → e.lit.var ≡ var → result ≡ e.reason }
    {
        self.origins[var as usize - 1].reason
    }

    /// How many literals from the front were gone through.
    pub fn seen(&self) -> u32
        ensures seen { result ≡ self.now.seen }
        ensures course { IsCourse self.now }
    {
        self.seen
    }

    /// Counts one literal more as gone through. There has to be one that wasn't.
    pub fn see(&mut self)
        requires { self.old.seen < length self.old.entries }
        ensures { self.new ≡ record self.old { seen = self.old.seen + 1 } }
    {
        self.seen += 1;
    }

    // Puts a literal behind the others: at the next level where it has no reason, and else at the present one.
    fn push(&mut self, lit: Lit, level: u32, reason: Option<usize>)
        requires there { InVars self.old.vars lit }
        requires free { HasNoValue self.old.entries lit.var }
        requires rises { MatchOption reason (level ≡ self.old.level + 1) (λ _. level ≡ self.old.level) }
        ensures { self.new ≡ extended self.old level (record { lit = lit; level = level; reason = reason }) }
    {
        let place = lit.var as usize - 1;
        self.values[place] = Some(lit.positive);
        self.origins[place] = Origin { level, reason };
        self.lits[self.count as usize] = lit;
        self.count += 1;
        self.level = level;
    }

    /// Opens a level and makes the literal true there. Its variable has to be there and without a value.
    pub fn decide(&mut self, lit: Lit)
        requires there { InVars self.old.vars lit }
        requires free { HasNoValue self.old.entries lit.var }
        ensures { self.new ≡ decided self.old lit }
    {
        let level = self.level + 1;
        self.push(lit, level, None);
    }

    /// Makes the literal true at the present level, with the number of the clause that implies it. Its variable has to be
    /// there and without a value. The number is kept as it is given.
    pub fn imply(&mut self, lit: Lit, reason: usize)
        requires there { InVars self.old.vars lit }
        requires free { HasNoValue self.old.entries lit.var }
        ensures { self.new ≡ implied self.old lit reason }
    {
        let level = self.level;
        self.push(lit, level, Some(reason));
    }

    /// Takes back all above the level, which may not be above the present one. What is left counts as gone through as far
    /// as it did.
    pub fn back_to(&mut self, level: u32)
        requires { level ≤ self.old.level }
        ensures { self.new ≡ taken_back self.old level }
    {
        let count = take_back(
            self.lits.as_slice(),
            self.origins.as_slice(),
            self.values.as_mut_slice(),
            self.count,
            level,
        );
        self.count = count;
        self.level = level;
        self.seen = self.seen.min(count);
    }
}

#[cfg(test)]
mod tests;
