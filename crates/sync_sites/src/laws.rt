//! Laws of sites. Each function does nothing: its contract is the law.

ghost use Rattle.std.specs.Prelude.{◌≡◌, ◌↔◌, ◌≤◌, ◌<◌, ◌+◌, ℕ, List, [], length, All};
ghost use Rattle.std.specs.List.Sorted.{IsNonDecreasingBy};
ghost use Rattle.litmus_syntax.specs.declared.call.Step.{Step};
ghost use Rattle.litmus_syntax.specs.declared.site.SiteKind.{SiteKind};
ghost use Rattle.litmus_syntax.specs.Sites.{AreSyncs, StandOutside};
ghost use Rattle.litmus_syntax.specs.Limits.{IsWithinLimits};
ghost use Rattle.litmus_syntax.specs.Test.{Test};
ghost use Rattle.fer_events.specs.Tables.{Trace, IsTrace};
ghost use Rattle.call_events.specs.Resolved.{HasEvents};
ghost use Rattle.sync_sites.specs.SiteLists.{sites_of, AreTooMany};

/// Sites may be inserted: they are formed syncs, each behind a call of the body where no transaction is open, and in the
/// order of these calls.
pub fn sites_are_syncs()
    ensures syncs { (kind : SiteKind) (body : List Step) (t : Trace) → IsTrace t → AreSyncs (sites_of kind body t) }
    ensures outside { (kind : SiteKind) (body : List Step) (t : Trace) → StandOutside body (sites_of kind body t) }
    ensures behind { (kind : SiteKind) (body : List Step) (t : Trace) → All (λ site. (1 ≤ site.after) × (site.after ≤ length body)) (sites_of kind body t) }
    ensures in_order { (kind : SiteKind) (body : List Step) (t : Trace) → IsNonDecreasingBy (λ site. site.after) (sites_of kind body t) }
{}

/// There are too many events exactly where those of the body and all sites are more than 128, and then at one line.
pub fn too_many_or_few()
    ensures too_many { (kind : SiteKind) (body : List Step) (t : Trace) → IsTrace t → ((line : ℕ) × AreTooMany kind body t line) ↔ (128 < length t.events + length (sites_of kind body t)) }
    ensures one_line { (kind : SiteKind) (body : List Step) (t : Trace) (i j : ℕ) → AreTooMany kind body t i → AreTooMany kind body t j → i ≡ j }
{}

/// Sites are never refused as calls: where they aren't too many, the test has events with them.
pub fn sites_are_accepted()
    ensures { (kind : SiteKind) (litmus : Test) (t : Trace) → IsWithinLimits litmus → HasEvents litmus [] t → length t.events + length (sites_of kind litmus.body t) ≤ 128
        → (u : Trace) × HasEvents litmus (sites_of kind litmus.body t) u }
{}
