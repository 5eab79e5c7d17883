ghost use Rattle.std.specs.Prelude.{◌<◌, length, IfOk, MatchBool};
ghost use Rattle.std.specs.List.{All};
ghost use Rattle.clause_store.specs.Clauses.{InVars};

use super::*;
use fer_list::Seq;
use litmus_syntax::SiteKind;
use proof_log::{Log, Part};
use std::test::Fail;

fn lit_of(number: i32) -> Lit {
    Lit {
        var: number.unsigned_abs(),
        positive: number > 0,
    }
}

// Whether all variables are from 1 to this number.
fn are_there(lits: &[Lit], vars: u32) -> bool
    ensures { MatchBool result (All (InVars vars) lits.now) (Unit {0}) }
{
    for lit in lits {
        if lit.var == 0 {
            return false;
        }
        if lit.var > vars {
            return false;
        }
    }
    true
}

// Adds a clause, if its variables are there and it isn't empty.
fn put(store: &mut Store, lits: &[Lit]) -> Result<(), AllocError>
    requires { All (λ clause. 0 < length clause) store.old.clauses }
    ensures { All (λ clause. 0 < length clause) store.new.clauses }
{
    if lits.len() > 0 {
        if are_there(lits, store.vars()) {
            store.add(lits)?;
        }
    }
    Ok(())
}

// The clauses of these numbers, each ended by 0.
fn clauses_of(alloc: Global, vars: u32, numbers: &[i32]) -> Result<Store, AllocError>
    ensures { IfOk result (λ store. All (λ clause. 0 < length clause) store.clauses) }
{
    let mut store = Store::new(alloc, vars);
    let mut lits = Vec::new(alloc);
    for number in numbers {
        if *number == 0 {
            put(&mut store, lits.as_slice())?;
            lits.clear();
        } else {
            lits.push(lit_of(*number))?;
        }
    }
    Ok(store)
}

// Whether each of the steps is taken over the clauses and those taken before it: `y` and `n` in turn.
fn answers(alloc: Global, vars: u32, clauses: &[i32], steps: &[i32]) -> Result<String, AllocError> {
    let mut checker = Checker::over(alloc, clauses_of(alloc, vars, clauses)?)?;
    checker.reserve(steps.len(), steps.len())?;
    let mut answers = String::new(alloc);
    let mut lits = Vec::new(alloc);
    for number in steps {
        if *number != 0 {
            lits.push(lit_of(*number))?;
        } else {
            if are_there(lits.as_slice(), checker.vars()) {
                let yes = checker.step(lits.as_slice())?;
                answers.push_str(if yes { "y" } else { "n" })?;
            }
            lits.clear();
        }
    }
    Ok(answers)
}

#[test]
fn takes_what_follows(rt: HostRuntime) -> Result<(), Fail> {
    let square = [1, 2, 0, 1, -2, 0, -1, 2, 0, -1, -2, 0];
    let cube = [
        1, 2, 3, 0, 1, 2, -3, 0, 1, -2, 3, 0, 1, -2, -3, 0, -1, 2, 3, 0, -1, 2, -3, 0, -1, -2, 3,
        0, -1, -2, -3, 0,
    ];
    let rows: [(&[i32], &[i32], &str); 9] = [
        (&[], &[1, -1, 0, 1, 0, 0], "nnn"),
        (&[1, 2, 0, -1, 2, 0], &[2, 0, 1, 0, 2, 3, 0], "yny"),
        (&[1, 0, -1, 0], &[2, -2, 0, 0, 2, 0], "yyy"),
        (&[1, 2, 0], &[1, 2, 0, 2, 1, 0, 1, 2, 3, 0, 1, 0], "yyyn"),
        (&square, &[0, 2, 0, 0, -2, 0], "nyyy"),
        (&[1, 0], &[1, 1, 0, -1, -1, 0], "yn"),
        (&[1, 2, 0], &[1, -1, 0, 1, -1, 2, 0, 3, 1, 0], "nyn"),
        (
            &[1, 2, 0, -1, 3, 0, -2, -3, 0],
            &[1, -1, 0, 1, 0, 1, -1, 3, 0],
            "yny",
        ),
        (&cube, &[0, 1, 0, 1, 2, 0, 1, 0, 0], "nnyyn"),
    ];
    for (clauses, steps, wanted) in rows {
        let got = answers(rt.alloc(), 3, clauses, steps)?;
        assert!(rt; got.as_str() == wanted);
    }
    Ok(())
}

// What is said of the log of these clauses, which names so many variables and clauses, over the formula of two variables.
fn judged(
    alloc: Global,
    formula: &[i32],
    named: (u32, u32),
    learned: &[i32],
    question: Option<usize>,
    closed: bool,
) -> Result<Option<Judgement>, AllocError> {
    let (vars, clauses) = named;
    let part = Part::new(clauses, clauses_of(alloc, vars, learned)?, closed);
    let count = part.learned().len();
    if count >= 100 {
        return Ok(None);
    }
    let log = match question {
        None => Log::of_part(alloc, part),
        Some(before) => {
            Log::with_sites(
                SiteKind::Fsync,
                Seq::new(alloc),
                part,
                Some(before.min(count)),
            )
        }
    };
    let judgement = accept(alloc, clauses_of(alloc, 2, formula)?, &log)?;
    Ok(Some(judgement))
}

fn refused(line: u32, kind: JudgeKind) -> Option<Judgement> {
    Some(Judgement::Refused { line, kind })
}

#[test]
fn judges_logs(rt: HostRuntime) -> Result<(), Fail> {
    let square: &[i32] = &[1, 2, 0, 1, -2, 0, -1, 2, 0, -1, -2, 0];
    let half: &[i32] = &[1, 2, 0, -1, 2, 0];
    let other = refused(3, JudgeKind::OtherFormula);
    let rows: [(
        &[i32],
        (u32, u32),
        &[i32],
        Option<usize>,
        bool,
        Option<Judgement>,
    ); 15] = [
        (
            square,
            (2, 4),
            &[1, 0],
            None,
            true,
            Some(Judgement::Accepted),
        ),
        (
            square,
            (2, 4),
            &[1, 0],
            Some(1),
            true,
            Some(Judgement::Accepted),
        ),
        (square, (2, 5), &[1, 0], None, true, other),
        (square, (3, 4), &[1, 0], None, true, other),
        (half, (2, 4), &[1, 0], Some(0), false, other),
        (
            square,
            (2, 4),
            &[1, 0],
            None,
            false,
            refused(5, JudgeKind::NoEmptyClause),
        ),
        (
            square,
            (2, 4),
            &[1, 0],
            Some(1),
            false,
            refused(6, JudgeKind::NoEmptyClause),
        ),
        (
            square,
            (2, 4),
            &[],
            None,
            true,
            refused(4, JudgeKind::NotRup),
        ),
        (
            half,
            (2, 2),
            &[2, 0, 1, 0],
            None,
            true,
            refused(5, JudgeKind::NotRup),
        ),
        (
            half,
            (2, 2),
            &[2, 0, 1, 0],
            Some(2),
            true,
            refused(5, JudgeKind::NotRup),
        ),
        (
            half,
            (2, 2),
            &[2, 0, 1, 0],
            Some(1),
            true,
            refused(6, JudgeKind::NotRup),
        ),
        (
            half,
            (2, 2),
            &[2, 0, 1, 0],
            Some(0),
            false,
            refused(6, JudgeKind::NotRup),
        ),
        (
            half,
            (2, 2),
            &[2, 0],
            None,
            true,
            refused(5, JudgeKind::NotRup),
        ),
        (
            half,
            (2, 2),
            &[2, 0],
            Some(1),
            true,
            refused(6, JudgeKind::NotRup),
        ),
        (
            half,
            (2, 2),
            &[1, -1, 0],
            None,
            true,
            refused(4, JudgeKind::NotRup),
        ),
    ];
    for (formula, named, learned, question, closed, wanted) in rows {
        let got = judged(rt.alloc(), formula, named, learned, question, closed)?;
        assert!(rt; got == wanted);
    }
    assert_eq!(rt; JudgeKind::OtherFormula.number(), 5);
    assert_eq!(rt; JudgeKind::NotRup.number(), 6);
    assert_eq!(rt; JudgeKind::NoEmptyClause.number(), 7);
    Ok(())
}
