//! The walk.

ghost use Rattle.std.specs.Prelude.{◌≡◌, ◌<◌, [], length, map, All, Some, IfOk, IfErr};
ghost use Rattle.sync_shrink.specs.Sets.{all_things, Has, without};
ghost use Rattle.sync_shrink.specs.Walk.{IsReply, IsSpent, IsNeed, IsShrunk};
ghost use Rattle.sync_shrink.specs.Steps.{IsTried, IsEarlyNeed, IsWalked, at_trial};

use crate::{AskError, Oracle, Reply};
use fer_events::Crash;
use fer_list::Seq;
use std::alloc::{AllocError, AllocFailed, Global};
use thiserror::Error;

/// A thing that is kept, counted from 0, and a crash that shows the kept things without it bad.
#[derive(Debug, Drop)]
pub struct Need {
    pub thing: u32,
    pub crash: Crash,
}

/// What the walk found.
#[derive(Debug, Drop)]
pub enum Shrunk {
    /// The things that are kept, ascending.
    Kept(Seq<Need>),
    /// All things together are bad, and the crash shows it.
    NoneSuffice(Crash),
}

/// Why the walk has no answer.
#[derive(Clone, Copy, Debug, PartialEq, Eq, Error)]
pub enum ShrinkError {
    /// A question of the walk was spent.
    #[error("the limit was met")]
    Spent,
    /// Memory was refused.
    #[error("out of memory")]
    OutOfMemory,
}

impl From<AllocError> for ShrinkError {
    ghost use Rattle.sync_shrink.specs.declared.walking.ShrinkError.TheVariants.{OutOfMemory};

    ghost from_gives = { λ _ e. e ≡ OutOfMemory };

    fn from(_refused: AllocError) -> ShrinkError {
        ShrinkError::OutOfMemory
    }
}

impl<T: Drop> From<AllocFailed<T>> for ShrinkError {
    ghost use Rattle.sync_shrink.specs.declared.walking.ShrinkError.TheVariants.{OutOfMemory};

    ghost from_gives = { λ _ e. e ≡ OutOfMemory };

    fn from(_refused: AllocFailed<T>) -> ShrinkError {
        ShrinkError::OutOfMemory
    }
}

// Asks, with the walk's errors.
fn ask<O: Oracle>(oracle: &mut O, present: &[bool]) -> Result<Reply, ShrinkError>
    requires ready { O.ready oracle.old }
    requires size { length present.now ≡ O.things oracle.old }
    ensures ready { O.ready oracle.new }
    ensures stays { O.stays oracle.old oracle.new }
    ensures answered { IfOk result (λ reply. IsReply (O.bad oracle.old) (O.shows oracle.old) present.now reply) }
    ensures counted { IfErr result (λ e. e ≡ ShrinkError.Spent → O.spent_count oracle.old < O.spent_count oracle.new) }
    ensures spent { IfErr result (λ e. e ≡ ShrinkError.Spent → O.spent oracle.new ≡ Some present.now) }
{
    match oracle.ask(present) {
        Ok(reply) => Ok(reply),
        Err(AskError::Spent) => Err(ShrinkError::Spent),
        Err(AskError::OutOfMemory) => Err(ShrinkError::OutOfMemory),
    }
}

// Drops the thing, if it isn't needed, and answers a crash that shows it is, if it is.
fn try_thing<O: Oracle>(
    oracle: &mut O,
    present: &mut [bool],
    thing: u32,
) -> Result<Option<Crash>, ShrinkError>
    requires ready { O.ready oracle.old }
    requires full { length present.old ≡ O.things oracle.old }
    requires has { Has present.old thing }
    ensures ready { O.ready oracle.new }
    ensures stays { O.stays oracle.old oracle.new }
    ensures tried { IfOk result (IsTried (O.bad oracle.old) (O.shows oracle.old) thing present.old present.new) }
    ensures counted { IfErr result (λ e. e ≡ ShrinkError.Spent → O.spent_count oracle.old < O.spent_count oracle.new) }
    ensures spent { IfErr result (λ e. e ≡ ShrinkError.Spent → O.spent oracle.new ≡ Some (without thing present.old)) }
{
    present[thing as usize] = false;
    match ask(oracle, present)? {
        Reply::Bad(crash) => {
            present[thing as usize] = true;
            Ok(Some(crash))
        }
        Reply::Fine => Ok(None),
    }
}

// Asks all things, and where they aren't bad tries each in order. Of all things are left those that are needed.
fn walk<O: Oracle>(
    oracle: &mut O,
    count: u32,
    present: &mut [bool],
    needs: &mut Vec<Need>,
) -> Result<Option<Crash>, ShrinkError>
    requires ready { O.ready oracle.old }
    requires count { count ≡ O.things oracle.old }
    requires all { present.old ≡ all_things count }
    requires none { needs.old.items ≡ [] }
    ensures ready { O.ready oracle.new }
    ensures stays { O.stays oracle.old oracle.new }
    ensures walked { IfOk result (IsWalked (O.bad oracle.old) (O.shows oracle.old) count present.new needs.new.items) }
    ensures counted { IfErr result (λ e. e ≡ ShrinkError.Spent → O.spent_count oracle.old < O.spent_count oracle.new) }
    ensures spent { IfErr result (λ e. e ≡ ShrinkError.Spent → IsSpent (O.bad oracle.old) count (O.spent oracle.new)) }
{
    match ask(oracle, present)? {
        Reply::Bad(crash) => return Ok(Some(crash)),
        Reply::Fine => {}
    }
    for thing in 0..count {
        match try_thing(oracle, present, thing)? {
            Some(crash) => needs.push(Need { thing, crash })?,
            None => {}
        }
    }
    Ok(None)
}

// Fills the set of a thing's trial, but without that thing.
fn fill_trial(trial: &mut [bool], kept: &[bool], thing: u32)
    requires { length trial.old ≡ length kept.now }
    ensures { trial.new ≡ without thing (at_trial thing kept.now) }
{
    for place in 0..kept.len() {
        trial[place] = place > thing as usize || (place < thing as usize && kept[place]);
    }
}

// Turns a need's crash, which shows the set of its trial bad without it, into one that shows what is kept bad without it.
fn carry_need<O: Oracle>(oracle: &O, need: &mut Need, kept: &mut [bool], trial: &mut [bool])
    requires ready { O.ready oracle.now }
    requires size { length trial.old ≡ length kept.old }
    requires early { IsEarlyNeed (O.shows oracle.now) (length kept.old) kept.old need.old }
    ensures need { IsNeed (O.shows oracle.now) kept.old need.new }
    ensures thing { need.new.thing ≡ need.old.thing }
    ensures kept { kept.new ≡ kept.old }
    ensures size { length trial.new ≡ length trial.old }
{
    fill_trial(trial, kept, need.thing);
    kept[need.thing as usize] = false;
    oracle.carry(&mut need.crash, trial, kept);
    kept[need.thing as usize] = true;
}

// Carries the crash of each need down to what is kept.
fn carry_needs<O: Oracle>(oracle: &O, needs: &mut [Need], kept: &mut [bool], trial: &mut [bool])
    requires ready { O.ready oracle.now }
    requires size { length trial.old ≡ length kept.old }
    requires early { All (IsEarlyNeed (O.shows oracle.now) (length kept.old) kept.old) needs.old }
    ensures needs { All (IsNeed (O.shows oracle.now) kept.old) needs.new }
    ensures things { map (λ need. need.thing) needs.new ≡ map (λ need. need.thing) needs.old }
{
    for place in 0..needs.len() {
        carry_need(oracle, &mut needs[place], kept, trial);
    }
}

/// Drops each thing, in order, without which what is left of all things isn't bad. What is kept isn't bad, and each thing
/// of it is needed. Where all things together are bad, none suffice. It is `Spent` only where a question of the walk was,
/// and `OutOfMemory` where memory was refused, to the walk or to the oracle.
pub fn shrink<O: Oracle>(alloc: Global, oracle: &mut O) -> Result<Shrunk, ShrinkError>
    requires { O.ready oracle.old }
    ensures ready { O.ready oracle.new }
    ensures shrunk { IfOk result (IsShrunk (O.bad oracle.old) (O.shows oracle.old) (O.things oracle.old)) }
    ensures stays { O.stays oracle.old oracle.new }
    ensures counted { IfErr result (λ e. e ≡ ShrinkError.Spent → O.spent_count oracle.old < O.spent_count oracle.new) }
    ensures spent { IfErr result (λ e. e ≡ ShrinkError.Spent → IsSpent (O.bad oracle.old) (O.things oracle.old) (O.spent oracle.new)) }
{
    let count = oracle.count();
    let mut present = vec![in alloc; true; count as usize]?;
    let mut trial = vec![in alloc; true; count as usize]?;
    let mut needs = Vec::new(alloc);
    match walk(oracle, count, present.as_mut_slice(), &mut needs)? {
        Some(crash) => Ok(Shrunk::NoneSuffice(crash)),
        None => {
            carry_needs(
                &*oracle,
                needs.as_mut_slice(),
                present.as_mut_slice(),
                trial.as_mut_slice(),
            );
            Ok(Shrunk::Kept(Seq::from_vec(needs)))
        }
    }
}
