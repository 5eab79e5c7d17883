//! Laws of the models that come with Ferrite. Each function does nothing: its contract is the law.

ghost use Rattle.std.specs.Prelude.{◌≡◌, ℕ, ◌<◌, List};
ghost use Rattle.fer_events.specs.declared.event.Event.{Event};
ghost use Rattle.fer_events.specs.declared.event.Kind.TheVariants.{Sync};
ghost use Rattle.fer_events.specs.Orders.{IsEvent};
ghost use Rattle.model_library.specs.declared.texts.ShippedModel.{ShippedModel};
ghost use Rattle.model_library.specs.ShippedModels.{shipped_text};
ghost use Rattle.model_reader.specs.declared.model.Model.{Model};
ghost use Rattle.model_reader.specs.declared.fault.ModelKind.{ModelKind};
ghost use Rattle.model_reader.specs.ModelText.{IsModelText, IsModelRefused};
ghost use Rattle.event_relations.specs.Kept.{IsKept};
ghost use Rattle.shipped_meaning.specs.Shipped.{shipped_model};

use model_reader::one_reading;

/// The file of each model that comes with Ferrite is read as the relations that are written out here under its name, and
/// as nothing else, and it is never refused.
pub fn shipped_models_are_read()
    ensures read { (m : ShippedModel) → IsModelText (shipped_text m) (shipped_model m) }
    ensures nothing_else { (m : ShippedModel) (a : Model) → IsModelText (shipped_text m) a → a ≡ shipped_model m }
    ensures never_refused { (m : ShippedModel) (line : ℕ) (kind : ModelKind) → IsModelRefused (shipped_text m) line kind → ⊥ }
{
    one_reading();
}

/// Under each model that comes with Ferrite a `sync` divides the program: what stands before it in program order reaches
/// the disk before it, and what stands behind it after it.
pub fn shipped_models_keep_syncs()
    ensures before { (m : ShippedModel) (events : List Event) (a b : ℕ) (e f : Event)
        → a < b → IsEvent events a e → IsEvent events b f → f.kind ≡ Sync → IsKept (shipped_model m) events a b }
    ensures behind { (m : ShippedModel) (events : List Event) (a b : ℕ) (e f : Event)
        → a < b → IsEvent events a e → IsEvent events b f → e.kind ≡ Sync → IsKept (shipped_model m) events a b }
{}
