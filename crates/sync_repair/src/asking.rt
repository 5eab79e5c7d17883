//! Questions about sets of sites, and the oracle that asks them.

ghost use Rattle.std.specs.Prelude.{◌≡◌, ◌≢◌, ℕ, ◌≤◌, Bool, List, length, option_map, None, IfOk, IfSome};
ghost use Rattle.fer_events.specs.declared.event.Crash.{Crash};
ghost use Rattle.question_series.specs.declared.series.SeriesAnswer.TheVariants.{Spent};
ghost use Rattle.sync_repair.specs.Sets.{IsBad};
ghost use Rattle.sync_repair.specs.Settings.{Asks, IsSetAnswer, IsShown, IsReady, Stays};
ghost use Rattle.sync_repair.specs.Notes.{IsNoted};
ghost use Rattle.sync_repair.specs.Oracles.{part_bad, shown_bad, same_stays, stays_on, things_alike, bad_alike, shown_alike};

use crate::case::Case;
use branch_rules::Brancher;
use fer_events::Crash;
use fer_list::Seq;
use question_series::{Series, SeriesAnswer};
use std::alloc::{AllocError, Global};
use sync_shrink::{AskError, Oracle, Reply};

/// A question that was left undecided.
#[derive(Debug, Drop)]
pub(crate) struct SpentQuestion {
    /// The sites that it was about.
    pub(crate) set: Seq<bool>,
    /// How many clauses were learned before it.
    pub(crate) before: usize,
}

/// Asks for a crash of the test with the sites of the set.
pub(crate) fn ask_set(
    alloc: Global,
    case: &Case<'_>,
    set: &[bool],
    series: &mut Series,
    limit: u64,
    brancher: &mut Option<Box<dyn Brancher>>,
) -> Result<SeriesAnswer, AllocError>
    requires about { Asks case.now series.old }
    ensures about { Asks case.now series.new }
    ensures grown { length series.old.learned ≤ length series.new.learned }
    ensures answered { IfOk result (IsSetAnswer case.now set.now limit series.old series.new) }
    ensures endless { limit ≡ 18446744073709551615 → IfOk result (λ answer. answer ≢ Spent) }
{
    case.keeps_rules();
    let pairs = case.kept_with(alloc, set)?;
    match series.ask(case.events(), &pairs, limit, brancher)? {
        SeriesAnswer::Allowed(crash) => {
            let mut crash = crash;
            case.leave_out(alloc, set, &mut crash)?;
            Ok(SeriesAnswer::Allowed(crash))
        }
        SeriesAnswer::Forbidden => Ok(SeriesAnswer::Forbidden),
        SeriesAnswer::Spent => Ok(SeriesAnswer::Spent),
    }
}

/// Knows which sets of sites are bad: those with which some crash answers the question.
#[derive(Drop)]
pub(crate) struct Syncs<'a> {
    pub(crate) alloc: Global,
    pub(crate) case: Case<'a>,
    pub(crate) series: Series,
    pub(crate) limit: u64,
    pub(crate) brancher: Option<Box<dyn Brancher>>,
    pub(crate) count: u64,
    pub(crate) spent: Option<SpentQuestion>,
}

impl<'a> Syncs<'a> {
    /// Counts a question that was left undecided, and remembers it.
    fn note(&mut self, set: &[bool], before: usize) -> AskError
        requires none { self.old.spent ≡ None }
        ensures case { self.new.case ≡ self.old.case }
        ensures series { self.new.series ≡ self.old.series }
        ensures limit { self.new.limit ≡ self.old.limit }
        ensures noted { IsNoted set.now before self.old.count self.new.count self.new.spent result }
    {
        let Some(count) = self.count.checked_add(1) else {
            return AskError::OutOfMemory;
        };
        let Ok(set) = Seq::from_slice(self.alloc, set) else {
            return AskError::OutOfMemory;
        };
        self.count = count;
        self.spent = Some(SpentQuestion { set, before });
        AskError::Spent
    }
}

impl<'a> Oracle for Syncs<'a> {
    ghost things = { λ o. length o.case.sites };

    ghost bad = { λ o set. IsBad o.case.litmus o.case.model o.case.sites set };

    ghost shows = { λ o set crash. IsShown o.case set crash };

    ghost spent_count = { λ o. o.count };

    ghost spent = { λ o. option_map (λ q. q.set) o.spent };

    ghost ready = { λ o. IsReady o.case o.series o.limit o.spent };

    ghost stays = { λ o p. Stays o.case p.case o.limit p.limit o.count p.count };

    fn count(&self) -> u32 {
        self.case.count()
    }

    fn ask(&mut self, present: &[bool]) -> Result<Reply, AskError> {
        self.spent = None;
        let before = self.series.learned();
        match ask_set(
            self.alloc,
            &self.case,
            present,
            &mut self.series,
            self.limit,
            &mut self.brancher,
        ) {
            Ok(SeriesAnswer::Allowed(crash)) => Ok(Reply::Bad(crash)),
            Ok(SeriesAnswer::Forbidden) => Ok(Reply::Fine),
            Ok(SeriesAnswer::Spent) => Err(self.note(present, before)),
            Err(_) => Err(AskError::OutOfMemory),
        }
    }

    fn carry(&self, crash: &mut Crash, from: &[bool], to: &[bool]) {
        self.case.carry(from, to, crash);
    }

    ghost parts_are_bad = { λ o part whole p b. part_bad o.case part whole p b };

    ghost shown_are_bad = { λ o set crash h. shown_bad o.case set crash h };

    ghost stays_itself = { λ o. same_stays o.case o.limit o.count };

    ghost stays_on = { λ o p q a b. stays_on o.case p.case q.case o.limit p.limit q.limit o.count p.count q.count a b };

    ghost same_things = { λ o p a. things_alike o.case p.case a.setting };

    ghost same_bad = { λ o p a set. bad_alike o.case p.case set a.setting };

    ghost same_shows = { λ o p a set crash. shown_alike o.case p.case set crash a.setting };

    ghost count_rises = { λ o p a. a.rises };
}
