ghost use Rattle.std.specs.Prelude.{◌≤◌, length, IfOk};
ghost use Rattle.sync_repair.specs.Settings.{Asks};
ghost use Rattle.sync_repair.specs.Found.{IsFound};

use crate::case::Case;
use fer_list::Seq;
use proof_log::Part;
use question_series::Series;
use std::alloc::{AllocError, Global};

/// What was learned when some of the sites were asked about.
#[derive(Debug, Drop)]
pub struct Findings {
    /// The sites that were asked about: a truth value for each site of the test.
    pub set: Seq<bool>,
    /// All that was learned, in this question and in those before it.
    pub part: Part,
    /// How many of its clauses were learned before this question.
    pub before: usize,
}

/// What the series has learned, for the question about the set, before which so many clauses were learned.
pub(crate) fn findings_of(
    alloc: Global,
    case: &Case<'_>,
    series: &Series,
    set: &[bool],
    before: usize,
    closed: bool,
) -> Result<Findings, AllocError>
    requires about { Asks case.now series.now }
    requires within { before ≤ length series.now.learned }
    ensures { IfOk result (IsFound case.now set.now before closed series.now) }
{
    case.keeps_rules();
    series.keeps_rules();
    let pairs = case.kept_with(alloc, set)?;
    let part = series.part(alloc, case.events(), &pairs, closed)?;
    let set = Seq::from_slice(alloc, set)?;
    Ok(Findings { set, part, before })
}
