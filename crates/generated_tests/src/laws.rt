ghost use Rattle.std.specs.Prelude.{◌≡◌, ◌≤◌, ℕ, [], length};
ghost use Rattle.litmus_syntax.specs.declared.site.SiteKind.TheVariants.{Sync};
ghost use Rattle.fer_events.specs.Tables.{Trace};
ghost use Rattle.call_events.specs.Resolved.{HasEvents};
ghost use Rattle.sync_sites.specs.SiteLists.{sites_of, AreTooMany};
ghost use Rattle.model_library.specs.Generated.{generated};

/// A test that a seed makes is never refused: neither one of its calls, of which there are at most 32, nor its question.
/// Each call is one event. As no transaction is ever open, a `sync` may stand behind each call, and with all of these there
/// are never too many events.
pub fn generated_tests_are_accepted()
    ensures accepted { (seed calls : ℕ) → calls ≤ 32 → (t : Trace) × HasEvents (generated seed calls) [] t × (length t.events ≡ calls) }
    ensures sites { (seed calls : ℕ) (t : Trace) → length (sites_of Sync (generated seed calls).body t) ≡ calls }
    ensures never_too_many { (seed calls line : ℕ) (t : Trace) → calls ≤ 32 → HasEvents (generated seed calls) [] t → AreTooMany Sync (generated seed calls).body t line → ⊥ }
{}
