ghost use Rattle.std.specs.Prelude.{◌≡◌, ◌++◌, IfOk, OnOk};
ghost use Rattle.litmus_syntax.specs.Sites.{AreSyncs, StandOutside, inserted_at, with_sites};

use crate::call::{Call, Step};
use crate::copying::{copy_call, copy_pred, copy_text};
use crate::litmus::Litmus;
use fer_list::Seq;
use std::alloc::{AllocError, Global};

/// A sync to be inserted behind a call of a body.
#[derive(Debug, Drop)]
pub struct Site {
    /// The number of the body call, counted from 1.
    pub after: u32,
    pub call: Call,
}

/// Which syncs are tried behind the calls of a body.
#[derive(Clone, Copy, Debug)]
pub enum SiteKind {
    /// `fsync` of each file and directory that the body has touched.
    Fsync,
    /// `sync` alone.
    Sync,
    /// Both, the `fsync` of a call before its `sync`.
    All,
}

/// Copies of the steps.
fn copy_steps(alloc: Global, steps: &[Step]) -> Result<Seq<Step>, AllocError>
    ensures { IfOk result (λ copies. copies ≡ steps.now) }
{
    let mut copies = Seq::new(alloc);
    for step in steps {
        let line = step.line;
        let call = copy_call(alloc, &step.call)?;
        copies.push(Step { line, call })?;
    }
    Ok(copies)
}

/// Appends the calls of the sites behind the body call of this number.
fn push_sites(
    alloc: Global,
    body: &mut Seq<Step>,
    number: usize,
    line: u32,
    sites: &[Site],
) -> Result<(), AllocError>
    ensures { OnOk result (body.new ≡ body.old ++ inserted_at number line sites.now) }
{
    for site in sites {
        if site.after as usize == number {
            let call = copy_call(alloc, &site.call)?;
            body.push(Step { line, call })?;
        }
    }
    Ok(())
}

/// The calls of a body, each followed by the calls of its sites. An inserted call gets the line of the call before it.
#[tactic(auto, using(crate::proofs::Inserting::one_more_call))]
pub fn body_with_sites(
    alloc: Global,
    body: &[Step],
    sites: &[Site],
) -> Result<Seq<Step>, AllocError>
    ensures { IfOk result (λ steps. steps ≡ with_sites 1 body.now sites.now) }
{
    let mut steps = Seq::new(alloc);
    for (place, step) in body.iter().enumerate() {
        let line = step.line;
        let call = copy_call(alloc, &step.call)?;
        steps.push(Step { line, call })?;
        push_sites(alloc, &mut steps, place + 1, line, sites)?;
    }
    Ok(steps)
}

/// The test whose body has each site's call behind the body call of its number. All else is as in this test. Sites of
/// one body call are inserted in their order, and an inserted call gets the line of the call before it. A site behind a
/// call that the body lacks is inserted nowhere. No site may stand where a transaction is open.
pub fn insert(alloc: Global, litmus: &Litmus, sites: &[Site]) -> Result<Litmus, AllocError>
    requires syncs { AreSyncs sites.now }
    requires outside { StandOutside litmus.now.body sites.now }
    ensures { IfOk result (λ l. l ≡ record litmus.now { body = with_sites 1 litmus.now.body sites.now }) }
{
    let name = copy_text(alloc, litmus.name().as_slice())?;
    let setup = copy_steps(alloc, litmus.setup())?;
    let body = body_with_sites(alloc, litmus.body(), sites)?;
    let pred = copy_pred(alloc, litmus.pred())?;
    let block = litmus.block();
    let want = litmus.want();
    let version = litmus.version();
    let sector = litmus.sector();
    litmus.keeps_limits();
    Ok(Litmus::new(
        name,
        block,
        setup,
        body,
        want,
        pred,
        litmus.pred_line(),
        version,
        sector,
    ))
}
