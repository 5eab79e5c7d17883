//! The rule by scores, and the table of them.

ghost use Rattle.std.specs.Prelude.{◌≡◌, ◌≢◌, ℕ, ◌+◌, ◌-◌, ◌/◌, ◌^◌, ◌<◌, ◌≤◌, length, map, replicate, slice_index, slice_set, false, Option, None, Some, IfOk, OnOk, OnErr, IfSome, IfNone};
ghost use Rattle.branch_rules.specs.Choosing.{IsOpen, AreSet, IsHighest, score_of, scores_of, fresh, halved, added, raised, noted, settled, once_begun};
ghost use Rattle.branch_rules.specs.Heap.{IsRanked, IsAlmost, IsIndexed, IsKept, HaveSame};

use crate::heap::{highest, insert, rise};
use crate::{Brancher, least};
use clause_store::Lit;
use std::alloc::{AllocError, Global};
use std::marker::Model;

// Halves all scores.
fn halve(scores: &mut [u64])
    ensures { scores.new ≡ map (λ n. n / 2) scores.old }
{
    for place in 0..scores.len() {
        scores[place] /= 2;
    }
}

// Makes the first `count` places a heap by new scores.
fn rebuild(scores: &[u64], heap: &mut [u32], places: &mut [u32], count: usize)
    requires over { length heap.old ≡ length scores.now }
    requires indexed { IsIndexed heap.old places.old count (length heap.old) }
    ensures indexed { IsIndexed heap.new places.new count (length heap.old) }
    ensures ranked { IsRanked scores.now heap.new count }
    ensures same { HaveSame places.old places.new }
{
    for at in 0..count {
        rise(scores, heap, places, at, at + 1, count);
    }
}

// Gives the variable a place, if it has none, and answers how many have one.
fn admit(scores: &[u64], heap: &mut [u32], places: &mut [u32], var: u32, count: usize) -> usize
    requires over { length heap.old ≡ length scores.now }
    requires indexed { IsIndexed heap.old places.old count (length heap.old) }
    requires ranked { IsRanked scores.now heap.old count }
    requires there { (1 ≤ var) × (var ≤ length heap.old) }
    ensures indexed { IsIndexed heap.new places.new result (length heap.old) }
    ensures placed { slice_index places.new (var - 1) ≢ 0 }
    ensures almost { IsAlmost scores.now heap.new result (slice_index places.new (var - 1) - 1) }
    ensures others { (p : ℕ) → p ≢ var - 1 → slice_index places.new p ≡ slice_index places.old p }
{
    if places[var as usize - 1] != 0 {
        return count;
    }
    insert(heap, places, var, count);
    count + 1
}

// Halves all scores, puts the heap in order anew, and answers half the step.
fn halve_all(
    scores: &mut [u64],
    heap: &mut [u32],
    places: &mut [u32],
    count: usize,
    step: u64,
) -> u64
    requires { IsKept scores.old heap.old places.old count step }
    ensures kept { IsKept scores.new heap.new places.new count result }
    ensures scores { scores.new ≡ map (λ n. n / 2) scores.old }
    ensures step { result ≡ step / 2 }
{
    halve(scores);
    rebuild(scores, heap, places, count);
    step / 2
}

// Adds the step to the score of a variable, and answers how many have a place in the heap.
fn add_step(
    scores: &mut [u64],
    heap: &mut [u32],
    places: &mut [u32],
    var: u32,
    count: usize,
    step: u64,
) -> usize
    requires kept { IsKept scores.old heap.old places.old count step }
    requires there { (1 ≤ var) × (var ≤ length scores.old) }
    requires room { score_of scores.old var + step ≤ 1152921504606846976 }
    ensures kept { IsKept scores.new heap.new places.new result step }
    ensures scores { scores.new ≡ slice_set scores.old (var - 1) (score_of scores.old var + step) }
{
    let count = admit(scores, heap, places, var, count);
    let place = var as usize - 1;
    scores[place] += step;
    let at = places[place] as usize - 1;
    rise(scores, heap, places, at, count, count);
    count
}

// The scores of all variables, and those that were noted in a heap, with `count` places taken.
#[derive(Drop)]
struct Table {
    scores: Vec<u64>,
    heap: Vec<u32>,
    places: Vec<u32>,
    count: usize,
    step: u64,
}

impl Model for Table {
    ghost use Rattle.branch_rules.specs.Choosing.{Scoring};
    ghost use Rattle.branch_rules.specs.Heap.{IsKept};

    ghost Value = { Scoring };

    ghost view = { λ t. record { scores = t.scores.items; step = t.step } };

    ghost invariant = { λ t. IsKept t.scores.items t.heap.items t.places.items t.count t.step };
}

impl Table {
    fn new(alloc: Global, vars: u32) -> Result<Table, AllocError>
        ensures { IfOk result (λ t. t ≡ fresh (replicate vars 0)) }
    {
        let scores = vec![in alloc; 0; vars as usize]?;
        let heap = vec![in alloc; 0; vars as usize]?;
        let places = vec![in alloc; 0; vars as usize]?;
        let table = Table {
            scores,
            heap,
            places,
            count: 0,
            step: 1,
        };
        Ok(table)
    }

    fn halve(&mut self)
        ensures { self.new ≡ halved self.old }
    {
        let step = halve_all(
            self.scores.as_mut_slice(),
            self.heap.as_mut_slice(),
            self.places.as_mut_slice(),
            self.count,
            self.step,
        );
        self.step = step;
    }

    fn add(&mut self, var: u32)
        requires there { (1 ≤ var) × (var ≤ length self.old.scores) }
        requires room { score_of self.old.scores var + self.old.step ≤ 1152921504606846976 }
        ensures { self.new ≡ added self.old var }
    {
        let count = add_step(
            self.scores.as_mut_slice(),
            self.heap.as_mut_slice(),
            self.places.as_mut_slice(),
            var,
            self.count,
            self.step,
        );
        self.count = count;
    }

    fn raise(&mut self, var: u32)
        requires { (1 ≤ var) × (var ≤ length self.old.scores) }
        ensures { self.new ≡ raised self.old var }
    {
        if self.scores[var as usize - 1] + self.step > 1152921504606846976 {
            self.halve();
            self.add(var);
            return;
        }
        self.add(var);
    }

    fn note(&mut self, var: u32)
        ensures { self.new ≡ noted var self.old }
    {
        if var == 0 {
            return;
        }
        if var as usize > self.scores.len() {
            return;
        }
        self.raise(var);
    }

    fn settle(&mut self)
        ensures { self.new ≡ settled self.old }
    {
        self.step = (self.step + 1).min(1073741824);
    }

    // Of the variables without a value that have a score one of the highest, the least of these.
    fn top(&self, values: &[Option<bool>]) -> Option<u32>
        ensures some { IfSome result (λ v. IsHighest self.now.scores values.now v) }
        ensures none { IfNone result ((w : ℕ) → IsOpen values.now w → score_of self.now.scores w ≡ 0) }
    {
        let (front, _) = self.heap.as_slice().split_at(self.count);
        match highest(self.scores.as_slice(), front, values, 0, None) {
            None => None,
            Some(var) => {
                if self.scores[var as usize - 1] == 0 {
                    return None;
                }
                Some(var)
            }
        }
    }
}

/// Picks a variable of the highest score among those without a value, the least of these, made false. To note a variable
/// adds the present step to its score, the end of a conflict adds one to the step, up to 2^30, and where a score would
/// pass 2^60, all scores and the step are halved before. A variable that was never noted takes no part in any of this but
/// for the search for the least one where no other has a score.
#[derive(Drop)]
pub struct Activity {
    table: Option<Table>,
}

impl Model for Activity {
    ghost use Rattle.std.specs.Prelude.{Option};
    ghost use Rattle.branch_rules.specs.Choosing.{Scoring};

    ghost Value = { Option Scoring };

    ghost view = { λ a. a.table };
}

impl Activity {
    /// The rule before a search has begun. It takes no memory.
    pub fn new() -> Activity
        ensures { result ≡ None }
    {
        Activity { table: None }
    }
}

impl Brancher for Activity {
    /// All variables from 1 to `vars` have the score 0, and the step is 1. Where memory is refused, all stays as it was.
    fn start(&mut self, alloc: Global, vars: u32) -> Result<(), AllocError>
        ensures begun { OnOk result (self.new ≡ Some (fresh (replicate vars 0))) }
        ensures err { OnErr result (self.new ≡ self.old) }
    {
        let table = Table::new(alloc, vars)?;
        self.table = Some(table);
        Ok(())
    }

    fn note(&mut self, var: u32)
        ensures { self.new ≡ once_begun (noted var) self.old }
    {
        if let Some(table) = &mut self.table {
            table.note(var);
        }
    }

    fn settle(&mut self)
        ensures { self.new ≡ once_begun settled self.old }
    {
        if let Some(table) = &mut self.table {
            table.settle();
        }
    }

    fn pick(&mut self, values: &[Option<bool>]) -> Option<Lit>
        requires { length values.now < 2 ^ 32 }
        ensures some { IfSome result (λ l. IsHighest (scores_of self.old) values.now l.var × (l.positive ≡ false)) }
        ensures none { IfNone result (AreSet values.now) }
        ensures same { self.new ≡ self.old }
    {
        let top = match &self.table {
            None => None,
            Some(table) => table.top(values),
        };
        match top {
            None => least(values),
            Some(var) => Some(Lit {
                var,
                positive: false,
            }),
        }
    }
}
