ghost use Rattle.std.specs.Prelude.{◌≡◌, ℕ, ◌≤◌, List, [], IfOk, IfErr};
ghost use Rattle.fer_outside.specs.Causes.{Rose};
ghost use Rattle.call_events.specs.Resolved.{HasEvents};
ghost use Rattle.sync_repair.specs.Sets.{AreKept};
ghost use Rattle.ferrite_run.specs.Asking.{IsUnresolved, OnQuestion};
ghost use Rattle.ferrite_run.specs.Done.{Tells};
ghost use Rattle.ferrite_run.specs.Yields.{IsAskedOf, IsQuestionOf};
ghost use Rattle.ferrite_run.specs.Saying.{StopsWith};

use crate::question::Question;
use crate::reading::{litmus_of, model_of};
use crate::saying::{Stop, stopped};
use call_events::{CallFault, resolve};
use command_line::{FileName, ModelName};
use event_relations::kept;
use fer_events::{Events, Pairs};
use fer_outside::Library;
use litmus_syntax::Litmus;
use model_reader::Model;
use report::Outcome;
use std::alloc::{AllocError, Global};

/// The events that the calls of a test become.
fn events_of(alloc: Global, litmus: &Litmus) -> Result<Events, Stop>
    ensures resolved { IfOk result (λ events. HasEvents litmus.now [] events) }
    ensures unresolved { IfErr result (StopsWith (Tells (IsUnresolved litmus.now []))) }
{
    match resolve(alloc, litmus, &[]) {
        Ok(events) => Ok(events),
        Err(CallFault::Refused { line, kind }) => {
            let kind = kind.number();
            Err(stopped(alloc, &Outcome::LitmusRefused { line, kind }))
        }
        Err(CallFault::OutOfMemory) => Err(Stop::OutOfMemory),
    }
}

/// The pairs of the events that the model keeps.
pub fn pairs_of(alloc: Global, events: &Events, model: &Model) -> Result<Pairs, AllocError>
    ensures kept { IfOk result (λ pairs. AreKept model.now events.now.events pairs) }
{
    let pairs = kept(alloc, model, events)?;
    pairs.n();
    Ok(pairs)
}

/// The question that is asked of a test and a model.
pub fn asked_of(alloc: Global, litmus: Litmus, model: Model) -> Result<Question, Stop>
    ensures asked { IfOk result (IsAskedOf litmus model) }
    ensures unasked { IfErr result (StopsWith (Tells (IsUnresolved litmus []))) }
{
    let events = events_of(alloc, &litmus)?;
    let pairs = pairs_of(alloc, &events, &model)?;
    Ok(Question {
        litmus,
        model,
        events,
        pairs,
    })
}

/// The question that is asked of a litmus file and a model.
pub fn question_of<L: Library>(
    alloc: Global,
    litmus: &FileName,
    model: &ModelName,
    library: &mut L,
) -> Result<Question, Stop>
    ensures asked { IfOk result (IsQuestionOf (L.held library.old) litmus.now model.now) }
    ensures unasked { IfErr result (StopsWith (OnQuestion (L.held library.old) (λ other. Rose (L.faults library.old other) (L.faults library.new other)) litmus.now model.now (λ _ _. ⊥))) }
    ensures stays { L.held library.new ≡ L.held library.old }
    ensures never_falls { (other : List ℕ) → L.faults library.old other ≤ L.faults library.new other }
{
    let test = litmus_of(alloc, litmus, library)?;
    let model = model_of(alloc, model, library)?;
    let question = asked_of(alloc, test, model)?;
    Ok(question)
}
