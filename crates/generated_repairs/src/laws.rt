ghost use Rattle.std.specs.Prelude.{ℕ, []};
ghost use Rattle.litmus_syntax.specs.Test.{Test};
ghost use Rattle.litmus_syntax.specs.declared.site.SiteKind.TheVariants.{Sync};
ghost use Rattle.fer_events.specs.Tables.{Trace};
ghost use Rattle.call_events.specs.Resolved.{HasEvents};
ghost use Rattle.model_reader.specs.declared.model.Model.{Model};
ghost use Rattle.model_library.specs.Generated.{generated};
ghost use Rattle.sync_sites.specs.SiteLists.{sites_of};
ghost use Rattle.sync_parts.specs.Reaching.{IsReachable};
ghost use Rattle.generated_repairs.specs.Keeping.{KeepsSyncs};

/// With a `sync` behind each call of its body, a generated test is repaired: under a model that keeps what stands around a
/// `sync`, no crash makes its question true. This holds for every seed and for every number of calls.
pub fn syncs_repair_generated_tests()
    ensures { (seed calls : ℕ) (model : Model) (t : Trace) → KeepsSyncs model → HasEvents (generated seed calls) [] t
        → IsReachable (generated seed calls) model (sites_of Sync (generated seed calls).body t) → ⊥ }
{}
