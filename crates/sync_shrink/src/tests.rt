//! Walks over an oracle that counts: a set is bad where fewer of the marked things are there than there have to be. Its
//! crash says by its cut how many things are there. It can leave one question without an answer.

ghost use Rattle.std.specs.Prelude.{◌≡◌, ◌<◌, ◌≤◌, ◌^◌, length, get_or, false, cond, is_some, ⊤};
ghost use Rattle.std.proofs.Common.{refl, sym, ◌∙◌, subst};
ghost use Rattle.std.proofs.Math.Nat.{le_refl, le_trans};
ghost use Rattle.sync_shrink.specs.Counting.{held, IsLow, part_low, same_low};

use super::*;
use fer_events::Crash;
use fer_list::Seq;
use std::alloc::{AllocError, Global};
use std::test::Fail;

#[derive(Drop)]
struct Threshold {
    alloc: Global,
    count: u32,
    marks: Seq<bool>,
    least: u32,
    answers: u32,
    spent: Option<Seq<bool>>,
}

fn is_there(set: &[bool], thing: u32) -> bool
    ensures { result ≡ get_or set.now thing false }
{
    let place = thing as usize;
    place < set.len() && set[place]
}

fn held(count: u32, marks: &[bool], present: &[bool]) -> u32
    ensures { result ≡ held count marks.now present.now }
{
    let mut number = 0;
    for thing in 0..count {
        let marked = is_there(marks, thing);
        let there = is_there(present, thing);
        if marked && there {
            number += 1;
        }
    }
    number
}

impl Oracle for Threshold {
    ghost things = { λ o. o.count };

    ghost bad = { λ o s. IsLow o.count o.marks o.least s };

    ghost shows = { λ o s crash. IsLow o.count o.marks o.least s × (crash.cut ≡ held o.count s s) };

    ghost spent_count = { λ o. cond (is_some o.spent) 1 0 };

    ghost spent = { λ o. o.spent };

    ghost ready = { λ o. ⊤ };

    ghost stays = { λ o p. (o.count ≡ p.count) × (o.marks ≡ p.marks) × (o.least ≡ p.least) × (cond (is_some o.spent) 1 0 ≤ cond (is_some p.spent) 1 0) };

    fn count(&self) -> u32 {
        self.count
    }

    fn ask(&mut self, present: &[bool]) -> Result<Reply, AskError> {
        if self.answers == 0 && self.spent.is_none() {
            return match Seq::from_slice(self.alloc, present) {
                Ok(set) => {
                    self.spent = Some(set);
                    Err(AskError::Spent)
                }
                Err(_) => Err(AskError::OutOfMemory),
            };
        }
        self.answers = self.answers.saturating_sub(1);
        if held(self.count, self.marks.as_slice(), present) >= self.least {
            return Ok(Reply::Fine);
        }
        Ok(Reply::Bad(Crash {
            order: Seq::new(self.alloc),
            cut: held(self.count, present, present),
        }))
    }

    fn carry(&self, crash: &mut Crash, _from: &[bool], to: &[bool]) {
        crash.cut = held(self.count, to, to);
    }

    ghost parts_are_bad = { λ o part whole p b. part_low o.count o.marks o.least part whole p b };

    ghost shown_are_bad = { λ o s crash h. h.0 };

    ghost stays_itself = { λ o. (refl, refl, refl, le_refl _) };

    ghost stays_on = { λ o p q a b. (a.0 ∙ b.0, a.1 ∙ b.1, a.2 ∙ b.2, le_trans a.3 b.3) };

    ghost same_things = { λ o p a. a.0 };

    ghost same_bad = { λ o p a s. (same_low _ _ _ _ _ _ s a.0 a.1 a.2, same_low _ _ _ _ _ _ s (sym a.0) (sym a.1) (sym a.2)) };

    ghost same_shows = { λ o p a s crash. (
      (λ h. (same_low _ _ _ _ _ _ s a.0 a.1 a.2 h.0, subst (λ n. crash.cut ≡ held n s s) a.0 h.1)),
      (λ h. (same_low _ _ _ _ _ _ s (sym a.0) (sym a.1) (sym a.2) h.0, subst (λ n. crash.cut ≡ held n s s) (sym a.0) h.1)),
    ) };

    ghost count_rises = { λ o p a. a.3 };
}

fn threshold_of(
    alloc: Global,
    marks: &[bool],
    least: u32,
    answers: u32,
) -> Result<Threshold, AllocError>
    requires { length marks.now < 2 ^ 32 }
{
    Ok(Threshold {
        alloc,
        count: marks.len() as u32,
        marks: Seq::from_slice(alloc, marks)?,
        least,
        answers,
        spent: None,
    })
}

// Whether these are the needs, each given by its thing and by how many things its crash leaves.
fn are(needs: &Seq<Need>, expected: &[(u32, u32)]) -> bool {
    if needs.len() != expected.len() {
        return false;
    }
    for place in 0..expected.len() {
        let need = &needs.as_slice()[place];
        if need.thing != expected[place].0 || need.crash.cut != expected[place].1 {
            return false;
        }
    }
    true
}

// Whether the walk keeps these needs.
fn keeps(oracle: &mut Threshold, expected: &[(u32, u32)]) -> Result<bool, ShrinkError> {
    match shrink(oracle.alloc, oracle)? {
        Shrunk::Kept(needs) => Ok(are(&needs, expected)),
        Shrunk::NoneSuffice(_) => Ok(false),
    }
}

// Whether the walk is spent at this set.
fn is_spent_at(oracle: &mut Threshold, set: &[bool]) -> bool {
    match shrink(oracle.alloc, oracle) {
        Err(ShrinkError::Spent) => match &oracle.spent {
            Some(spent) => spent.as_slice() == set,
            None => false,
        },
        _ => false,
    }
}

// Of three things the second alone is needed; its crash leaves the third, and is carried down to what leaves nothing.
// Of the first and the third the first is dropped first. Of three of which two have to be there the first is dropped.
#[test]
fn keeps_what_is_needed(rt: HostRuntime) -> Result<(), Fail> {
    let alloc = rt.alloc();
    let mut second = threshold_of(alloc, &[false, true, false], 1, 9)?;
    assert!(rt; keeps(&mut second, &[(1, 0)])?);
    let mut outer = threshold_of(alloc, &[true, false, true], 1, 9)?;
    assert!(rt; keeps(&mut outer, &[(2, 0)])?);
    let mut two = threshold_of(alloc, &[true, true, true], 2, 9)?;
    assert!(rt; keeps(&mut two, &[(1, 1), (2, 1)])?);
    let mut first = threshold_of(alloc, &[true, false, false], 1, 9)?;
    assert!(rt; keeps(&mut first, &[(0, 0)])?);
    let mut none = threshold_of(alloc, &[], 0, 9)?;
    assert!(rt; keeps(&mut none, &[])?);
    Ok(())
}

#[test]
fn says_that_none_suffice(rt: HostRuntime) -> Result<(), Fail> {
    let mut oracle = threshold_of(rt.alloc(), &[true, true, false], 3, 9)?;
    let left = match shrink(rt.alloc(), &mut oracle)? {
        Shrunk::NoneSuffice(crash) => Some(crash.cut),
        Shrunk::Kept(_) => None,
    };
    assert_eq!(rt; left, Some(3));
    Ok(())
}

// The questions are on all things, then without the first, then without the first two.
#[test]
fn is_spent_where_the_oracle_is(rt: HostRuntime) -> Result<(), Fail> {
    let mut third = threshold_of(rt.alloc(), &[false, true, false], 1, 2)?;
    assert!(rt; is_spent_at(&mut third, &[false, false, true]));
    assert!(rt; keeps(&mut third, &[(1, 0)])?);
    let mut all = threshold_of(rt.alloc(), &[false, true, false], 1, 0)?;
    assert!(rt; is_spent_at(&mut all, &[true, true, true]));
    one_walk::<Threshold>();
    kept_sets_are_least::<Threshold>();
    Ok(())
}
