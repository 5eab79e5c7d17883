//! Laws of kept pairs. Each function does nothing: its contract is the law.

ghost use Rattle.std.specs.Prelude.{◌≡◌, ℕ, ◌<◌, ◌≤◌, List, length};
ghost use Rattle.fer_events.specs.declared.event.Event.{Event};
ghost use Rattle.model_reader.specs.declared.model.Model.{Model};
ghost use Rattle.event_relations.specs.Kept.{IsKept, IsKeptBy};
ghost use Rattle.event_relations.specs.Parts.{IsPart};

/// Each kept pair is of two events, the first of which comes first in program order.
pub fn kept_pairs_are_forward()
    ensures { (model : Model) (events : List Event) (a b : ℕ) → IsKept model events a b → (1 ≤ a) × (a < b) × (b ≤ length events) }
{}

/// More events only add kept pairs: where events are a part of others, each pair that is kept among the few is kept
/// among the many, at the places where its events stand there. So it is for each line of the model by itself.
pub fn kept_pairs_grow()
    ensures of_lines { (model : Model) (small large : List Event) (place : ℕ → ℕ) → IsPart small large place
        → (i a b : ℕ) → IsKeptBy model small i a b → IsKeptBy model large i (place a) (place b) }
    ensures of_models { (model : Model) (small large : List Event) (place : ℕ → ℕ) → IsPart small large place
        → (a b : ℕ) → IsKept model small a b → IsKept model large (place a) (place b) }
{}
