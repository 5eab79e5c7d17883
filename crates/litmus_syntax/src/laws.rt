//! Laws of litmus tests. Each function does nothing: its contract is the law.

ghost use Rattle.std.specs.Prelude.{◌≡◌, List};
ghost use Rattle.litmus_syntax.specs.declared.site.Site.{Site};
ghost use Rattle.litmus_syntax.specs.Test.{Test};
ghost use Rattle.litmus_syntax.specs.Limits.{IsWithinLimits};
ghost use Rattle.litmus_syntax.specs.Sites.{AreSyncs, StandOutside, with_sites};
ghost use Rattle.litmus_syntax.specs.Same.{IsSameTest};
ghost use Rattle.litmus_syntax.specs.LitmusText.{litmus_text};

/// Tests that are the same but for their lines have one canonical text.
pub fn same_text()
    ensures { (l m : Test) → IsSameTest l m → litmus_text l ≡ litmus_text m }
{}

/// A test into whose body syncs are inserted, where no transaction is open, keeps to the limits.
pub fn inserted_within_limits()
    ensures { (l : Test) (sites : List Site) → AreSyncs sites → StandOutside l.body sites → IsWithinLimits l
        → IsWithinLimits (record l { body = with_sites 1 l.body sites }) }
{}
