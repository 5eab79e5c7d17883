//! Makes the clauses that benchmarks measure, and answers them with the solver, writes them for another solver in the form
//! that all read, or prints how many they are. A benchmark runs it over large ones. The words say what to do (`solve`,
//! `write` or `count`) and which clauses: `random`, `pigeons` or `order` with a size from 3 to 1,000, or `question` with a
//! test and a model, as `check` takes them. It stands on `cdcl_core`, the branching rules, and all that codes a question.
#![tactic(auto)]

use branch_rules::{Activity, Brancher};
use cdcl_core::{Solver, Verdict};
use clause_store::Store;
use std::env;
use std::env::Env;
use std::process::ExitCode;
use std::rt::Files;

mod families;
mod questions;

/// Asks whether the clauses can be made true, and prints the answer and how many clauses were learned for it. Whether it
/// could.
fn solve(rt: &(impl AllocGlobal + Print), store: Store) -> bool {
    let Ok(rule) = Box::new(rt.alloc(), Activity::new()) else {
        return false;
    };
    let mut brancher: Option<Box<dyn Brancher>> = Some(rule);
    let Ok(mut solver) = Solver::over(rt.alloc(), store) else {
        return false;
    };
    let word = match solver.solve(&[], 1000000000, &mut brancher) {
        Err(_) => return false,
        Ok(Verdict::Satisfied(_)) => "satisfied",
        Ok(Verdict::Refuted(_)) => "refuted",
        Ok(Verdict::Spent) => "spent",
    };
    println!(rt; "{} learned {}", word, solver.learned().len()).is_ok()
}

/// Prints the clauses in DIMACS's form. Whether it could.
fn write(rt: &impl Print, store: &Store) -> bool {
    if println!(rt; "p cnf {} {}", store.vars(), store.len()).is_err() {
        return false;
    }
    for id in 0..store.len() {
        for lit in store.clause(id) {
            let sign = if lit.positive { "" } else { "-" };
            if print!(rt; "{}{} ", sign, lit.var).is_err() {
                return false;
            }
        }
        if println!(rt; "0").is_err() {
            return false;
        }
    }
    true
}

/// Prints how many variables, clauses and literals there are. Whether it could.
fn count(rt: &impl Print, store: &Store) -> bool {
    let mut literals: u64 = 0;
    for id in 0..store.len() {
        literals = literals.saturating_add(store.clause(id).len() as u64);
    }
    let (vars, clauses) = (store.vars(), store.len());
    println!(rt; "variables {vars} clauses {clauses} literals {literals}").is_ok()
}

/// The clauses of this kind: of this size, or of the question of this test under this model.
fn made(
    rt: &(impl AllocGlobal + Files),
    kind: &str,
    word: &str,
    model: Option<&str>,
) -> Option<Store> {
    if kind == "question" {
        return questions::question(rt, word, model?);
    }
    let size = word.parse::<u32>().ok()?;
    if size < 3 || size > families::MOST_SIZE {
        return None;
    }
    let store = match kind {
        "random" => families::random(rt.alloc(), size),
        "pigeons" => families::pigeons(rt.alloc(), size),
        _ => families::order(rt.alloc(), size),
    };
    store.ok()
}

fn main(rt: HostRuntime) -> ExitCode {
    let Ok(args) = env::args(&rt) else {
        return ExitCode::FAILURE;
    };
    let mut words = args.skip(1);
    let (Some(action), Some(kind), Some(word)) = (words.next(), words.next(), words.next()) else {
        return ExitCode::FAILURE;
    };
    let model = words.next();
    let model = model.as_ref().map(|name| name.as_str());
    let Some(store) = made(&rt, kind.as_str(), word.as_str(), model) else {
        return ExitCode::FAILURE;
    };
    let done = match action.as_str() {
        "write" => write(&rt, &store),
        "count" => count(&rt, &store),
        _ => solve(&rt, store),
    };
    if done {
        ExitCode::SUCCESS
    } else {
        ExitCode::FAILURE
    }
}
