//! Propagating.

ghost use Rattle.std.specs.Prelude.{◌≡◌, length, IfSome, IfNone};
ghost use Rattle.conflict_cut.specs.Cut.{IsConflict};
ghost use Rattle.unit_closure.specs.Search.{IsSound, Spreads};

use clause_store::Store;
use trail_core::Trail;
use watch_lists::Watches;

/// Propagates, and answers the number of a clause that is false, if there is one. With `None` all is gone through.
pub fn spread(store: &Store, watches: &mut Watches, trail: &mut Trail) -> Option<usize>
    requires { IsSound store.now watches.old trail.old }
    ensures sound { IsSound store.now watches.new trail.new }
    ensures spreads { Spreads trail.old trail.new }
    ensures conflict { IfSome result (λ id. IsConflict store.now.clauses trail.new.entries id) }
    ensures seen { IfNone result (trail.new.seen ≡ length trail.new.entries) }
{
    let found = watches.propagate(store, trail);
    let _values = trail.values();
    found
}
