ghost use Rattle.std.specs.Prelude.{◌≡◌, ◌⊎◌, ◌+◌, ◌≤◌, length, map, IfOk, OnOk, OnErr};
ghost use Rattle.order_coding.specs.Variables.{order_vars};
ghost use Rattle.order_coding.specs.Growth.{IsBeginning};
ghost use Rattle.value_coding.specs.QuestionCells.{cells};
ghost use Rattle.value_coding.specs.LastClauses.{last_vars, with_last_writers};
ghost use Rattle.value_coding.specs.CodedCells.{coded_cells};

use crate::cell::{Cells, CodedCell};
use crate::cells::{behind, coded_cells};
use crate::last_clauses::code_last_writers;
use clause_store::Store;
use fer_events::{Event, Events};
use litmus_syntax::Pred;
use std::alloc::{AllocError, Global};

/// Writes, behind the clauses of crashes, those that say which event wrote each cell of a question last, and answers the
/// cells with their writers and variables. The variables stand behind those of the order. Where memory is refused,
/// nothing is written yet, or the store has all variables and the first of these clauses.
pub fn code_cells(
    alloc: Global,
    store: &mut Store,
    events: &Events,
    pred: &Pred,
) -> Result<Cells, AllocError>
    requires { store.old.vars ≡ order_vars (length events.now.events) }
    ensures cells { IfOk result (λ coded. coded ≡ coded_cells events.now.events (order_vars (length events.now.events) + 1) (cells events.now pred.now)) }
    ensures ok { OnOk result (store.new ≡ with_last_writers events.now.events (cells events.now pred.now) store.old) }
    ensures err { OnErr result ((store.new ≡ store.old) ⊎ IsBeginning store.new (with_last_writers events.now.events (cells events.now pred.now) store.old)) }
{
    events.keeps_rules();
    let first = behind(store.vars(), 1)?;
    let cells = coded_cells(alloc, events, pred, first)?;
    add_cells(alloc, store, events.events(), cells.as_slice())?;
    Ok(cells)
}

// Raises the variables by those of the cells, and writes their clauses.
fn add_cells(
    alloc: Global,
    store: &mut Store,
    events: &[Event],
    cells: &[CodedCell],
) -> Result<(), AllocError>
    requires few { length events.now ≤ 128 }
    requires order { store.old.vars ≡ order_vars (length events.now) }
    requires coded { cells.now ≡ coded_cells events.now (store.old.vars + 1) (map (λ c. c.cell) cells.now) }
    ensures ok { OnOk result (store.new ≡ with_last_writers events.now (map (λ c. c.cell) cells.now) store.old) }
    ensures err { OnErr result ((store.new ≡ store.old) ⊎ IsBeginning store.new (with_last_writers events.now (map (λ c. c.cell) cells.now) store.old)) }
{
    let vars = vars_behind(store.vars(), cells)?;
    store.raise_vars(vars);
    code_last_writers(alloc, store, events.len() as u32, cells)?;
    Ok(())
}

// How many variables there are with those of the cells.
#[tactic(auto, using(crate::proofs::CodedSteps::sum_more))]
fn vars_behind(vars: u32, cells: &[CodedCell]) -> Result<u32, AllocError>
    ensures { IfOk result (λ all. all ≡ vars + last_vars (map (λ c. c.writers) cells.now)) }
{
    let mut all = vars;
    for cell in cells {
        all = last_var(all, cell.writers.as_slice())?;
    }
    Ok(all)
}

fn last_var(vars: u32, writers: &[u32]) -> Result<u32, AllocError>
    ensures { IfOk result (λ all. all ≡ vars + (length writers.now + 1)) }
{
    match u32::try_from(writers.len() + 1) {
        Err(_) => Err(AllocError),
        Ok(count) => behind(vars, count),
    }
}
