ghost use Rattle.std.specs.Prelude.{◌≡◌, ◌⊎◌, ◌↔◌, ℕ, List, [], length};
ghost use Rattle.litmus_syntax.specs.Test.{Test};
ghost use Rattle.litmus_syntax.specs.Same.{IsSameTest};
ghost use Rattle.litmus_syntax.specs.Sites.{with_sites};
ghost use Rattle.litmus_syntax.specs.declared.site.Site.{Site};
ghost use Rattle.fer_events.specs.Orders.{numbers};
ghost use Rattle.fer_events.specs.Tables.{Trace};
ghost use Rattle.fer_events.specs.States.{start_state, after_numbers};
ghost use Rattle.call_events.specs.declared.files.Files.{Files};
ghost use Rattle.call_events.specs.declared.call_kind.CallKind.{CallKind};
ghost use Rattle.fer_events.specs.Truth.{held_file};
ghost use Rattle.call_events.specs.Found.{file_of};
ghost use Rattle.call_events.specs.Meaning.{Leaves, state_of};
ghost use Rattle.call_events.specs.Resolved.{HasEvents, IsCallRefused};

/// A test with sites has one list of events, or is refused at one line for one reason: exactly one of the two.
pub fn one_outcome()
    ensures one_trace { (litmus : Test) (sites : List Site) (t u : Trace) → HasEvents litmus sites t → HasEvents litmus sites u → t ≡ u }
    ensures one_refusal { (litmus : Test) (sites : List Site) (i j : ℕ) (k m : CallKind) → IsCallRefused litmus sites i k → IsCallRefused litmus sites j m → (i ≡ j) × (k ≡ m) }
    ensures events_or_refused { (litmus : Test) (sites : List Site) (t : Trace) (i : ℕ) (k : CallKind) → HasEvents litmus sites t → IsCallRefused litmus sites i k → ⊥ }
    ensures one_of_them { (litmus : Test) (sites : List Site) → ((t : Trace) × HasEvents litmus sites t) ⊎ ((i : ℕ) × (k : CallKind) × IsCallRefused litmus sites i k) }
{}

/// A test with syncs inserted means what the test means with these syncs as sites: it has the same events, and is refused
/// at the same line for the same reason.
pub fn inserted_first()
    ensures same_events { (litmus : Test) (sites : List Site) (t : Trace) → HasEvents (record litmus { body = with_sites 1 litmus.body sites }) [] t ↔ HasEvents litmus sites t }
    ensures same_refusal { (litmus : Test) (sites : List Site) (i : ℕ) (k : CallKind) → IsCallRefused (record litmus { body = with_sites 1 litmus.body sites }) [] i k ↔ IsCallRefused litmus sites i k }
{}

/// A test has the same meaning in the second version of the grammar, for all sites.
pub fn upgraded_alike()
    ensures same_events { (litmus : Test) (sites : List Site) (t : Trace) → HasEvents (record litmus { version = 2 }) sites t ↔ HasEvents litmus sites t }
    ensures same_refusal { (litmus : Test) (sites : List Site) (i : ℕ) (k : CallKind) → IsCallRefused (record litmus { version = 2 }) sites i k ↔ IsCallRefused litmus sites i k }
{}

/// Tests that are the same but for their lines have the same events.
pub fn same_tests_alike()
    ensures { (l m : Test) (sites : List Site) (t : Trace) → IsSameTest l m → HasEvents l sites t → HasEvents m sites t }
{}

/// The files that the calls of a test leave are those of the setup with all events of the body applied in program order.
/// So what a call finds is what the events before it leave. A path names the file that it holds in that state.
pub fn one_meaning()
    ensures left { (litmus : Test) (sites : List Site) (t : Trace) → HasEvents litmus sites t → (files : Files) × Leaves litmus sites files }
    ensures same { (litmus : Test) (sites : List Site) (t : Trace) (files : Files) → HasEvents litmus sites t → Leaves litmus sites files
        → after_numbers t.events (start_state t) (numbers (length t.events)) ≡ state_of t files }
    ensures paths { (litmus : Test) (sites : List Site) (t : Trace) (files : Files) (path : List (List ℕ)) → HasEvents litmus sites t → Leaves litmus sites files
        → held_file t (state_of t files) path ≡ file_of files path }
{}
