//! Laws of the walk. Each function does nothing: its contract is the law, of any oracle.

ghost use Rattle.std.specs.Prelude.{◌≡◌, ◌≢◌, ℕ, List, Bool};
ghost use Rattle.sync_shrink.specs.Sets.{IsPart};
ghost use Rattle.sync_shrink.specs.Walk.{Walk};

use crate::Oracle;

/// The walk leaves one set at each thing.
pub fn one_walk<O: Oracle>()
    ensures { (oracle : O) (k : ℕ) (s t : List Bool) → Walk (O.bad oracle) (O.things oracle) k s → Walk (O.bad oracle) (O.things oracle) k t → s ≡ t }
{}

/// What the walk keeps isn't bad, and each part of it that isn't all of it is bad: no fewer of these things do.
pub fn kept_sets_are_least<O: Oracle>()
    ensures fine { (oracle : O) (s : List Bool) → Walk (O.bad oracle) (O.things oracle) (O.things oracle) s → O.bad oracle s → ⊥ }
    ensures least { (oracle : O) (s t : List Bool) → Walk (O.bad oracle) (O.things oracle) (O.things oracle) s → IsPart t s → t ≢ s → O.bad oracle t }
{}
