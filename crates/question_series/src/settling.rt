ghost use Rattle.std.specs.Prelude.{◌≡◌, ◌≢◌, ◌+◌, ◌-◌, ◌^◌, ◌++◌, List, length, min, IfOk, MatchBool};
ghost use Rattle.std.specs.List.{All, Contains};
ghost use Rattle.clause_store.specs.declared.Lit.{Lit};
ghost use Rattle.clause_store.specs.Clauses.{InVars, negated};
ghost use Rattle.cdcl_core.specs.Answering.{AreLessons};
ghost use Rattle.question_series.specs.declared.settling.Found.TheVariants.{Spent};
ghost use Rattle.question_series.specs.Settling.{IsRefuting, IsSettled, IsFound};

use crate::assuming::are_among;
use branch_rules::Brancher;
use cdcl_core::{Solver, Verdict};
use clause_store::laws::{more_imply_more, negations_turn_back};
use clause_store::{Lit, Lits};
use fer_list::Seq;
use std::alloc::AllocError;

/// What a question to the solver ends with.
#[derive(Debug, Drop)]
pub enum Found {
    /// These values make all clauses and the assumed literals true.
    Values(Seq<bool>),
    /// No values do.
    Refuted,
    /// As many clauses were learned as was allowed.
    Spent,
}

// How many clauses may be learned in all, where so many are and `limit` more may be; 2^64 - 1 stands for no limit.
fn most_learned(learned: usize, limit: u64) -> u64
    ensures { result ≡ min (learned + limit) (2 ^ 64 - 1) }
{
    limit.saturating_add(learned as u64)
}

// Whether the literals that were refuted last are among these.
fn is_settled(refuting: &Option<Lits>, lits: &[Lit]) -> bool
    ensures { MatchBool result (IsSettled refuting.now lits.now) (Unit {0}) }
{
    match refuting {
        Some(part) => are_among(part.as_slice(), lits),
        None => false,
    }
}

/// What the solver answers where these literals are assumed, and which of them it refuted then. Where those that it refuted
/// last are among them, that is known without a search.
pub fn find(
    solver: &mut Solver,
    refuting: &mut Option<Lits>,
    lits: &[Lit],
    limit: u64,
    brancher: &mut Option<Box<dyn Brancher>>,
) -> Result<Found, AllocError>
    requires named { All (InVars solver.old.vars) lits.now }
    requires apart { (a : Lit) → Contains lits.now a → Contains lits.now (negated a) → ⊥ }
    requires refuting { IsRefuting solver.old refuting.old }
    ensures vars { solver.new.vars ≡ solver.old.vars }
    ensures clauses { solver.new.clauses ≡ solver.old.clauses }
    ensures learned { (more : List (List Lit)) × (solver.new.learned ≡ solver.old.learned ++ more) × AreLessons (solver.old.clauses ++ solver.old.learned) more }
    ensures refuting { IsRefuting solver.new refuting.new }
    ensures found { IfOk result (λ found. IsFound solver.old solver.new lits.now limit found) }

    // The greatest limit is never met.
    ensures endless { limit ≡ 18446744073709551615 → IfOk result (λ found. found ≢ Spent) }
{
    negations_turn_back();
    more_imply_more();
    if is_settled(refuting, lits) {
        return Ok(Found::Refuted);
    }
    let most = most_learned(solver.learned().len(), limit);
    match solver.solve(lits, most, brancher)? {
        Verdict::Satisfied(values) => Ok(Found::Values(values)),
        Verdict::Refuted(part) => {
            *refuting = Some(part);
            Ok(Found::Refuted)
        }
        Verdict::Spent => Ok(Found::Spent),
    }
}
