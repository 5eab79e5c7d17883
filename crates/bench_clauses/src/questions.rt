//! The clauses of the questions of tests.

use call_events::resolve;
use clause_store::Store;
use event_relations::kept;
use fer_events::Events;
use fer_outside::{DiskLibrary, Library};
use line_files::MOST_BYTES;
use litmus_syntax::Litmus;
use model_library::shipped;
use model_reader::Model;
use predicate_coding::code;
use std::alloc::Global;
use std::rt::Files;

/// The test in the file of this name.
fn test_in(rt: &(impl AllocGlobal + Files), name: &str) -> Option<Litmus> {
    let mut library = DiskLibrary::new(rt);
    let bytes = library.fetch(rt.alloc(), name, MOST_BYTES).ok()?;
    let litmus = litmus_reader::read(rt.alloc(), bytes.as_slice()).ok()?;
    Some(litmus)
}

/// The model that comes with Ferrite under this name, which stands behind an `@`, or that is in the file of this name.
fn model_of(rt: &(impl AllocGlobal + Files), name: &str) -> Option<Model> {
    let mut library = DiskLibrary::new(rt);
    let read = match name.strip_prefix('@') {
        Some(word) => model_reader::read(rt.alloc(), shipped(word)?.text().as_bytes()),
        None => {
            let bytes = library.fetch(rt.alloc(), name, MOST_BYTES).ok()?;
            model_reader::read(rt.alloc(), bytes.as_slice())
        }
    };
    let model = read.ok()?;
    Some(model)
}

/// The coding of the test's question about these events, of which the model keeps pairs in order.
fn coded(alloc: Global, litmus: &Litmus, model: &Model, events: &Events) -> Option<Store> {
    events.keeps_rules();
    let pairs = kept(alloc, model, events).ok()?;
    let coded = code(alloc, events, &pairs, litmus.pred(), litmus.want()).ok()?;
    Some(coded.store)
}

/// The clauses that `check` asks about for the test of this name under the model of this name, as words of a command line
/// name them. None where one of the files is no such file, a call is refused or memory is wanting.
pub fn question(rt: &(impl AllocGlobal + Files), test: &str, model: &str) -> Option<Store> {
    let litmus = test_in(rt, test)?;
    let model = model_of(rt, model)?;
    let events = resolve(rt.alloc(), &litmus, &[]).ok()?;
    let store = coded(rt.alloc(), &litmus, &model, &events)?;
    Some(store)
}
