//! Laws of the coding, for every number of events. Each function does nothing: its contract is the law.

ghost use Rattle.std.specs.Prelude.{◌≡◌, ◌↔◌, ℕ, ◌<◌, ◌≤◌, Bool, true, List, [], ◌++◌, length, drop, IsPermutation};
ghost use Rattle.std.specs.List.{All, Contains};
ghost use Rattle.std.specs.List.Sorted.{IsNonDecreasingBy, IsStrictlyIncreasing};
ghost use Rattle.clause_store.specs.Clauses.{InVars};
ghost use Rattle.clause_store.specs.Truth.{MakesAllTrue};
ghost use Rattle.fer_events.specs.declared.event.Event.{Event};
ghost use Rattle.fer_events.specs.declared.event.Crash.{Crash};
ghost use Rattle.fer_events.specs.Orders.{numbers, before_cut, AreForward, IsCrash, StandsBefore};
ghost use Rattle.order_coding.specs.Tournament.{IsTournament, HasNoCycle, rank};
ghost use Rattle.order_coding.specs.Variables.{IsNumber, order_vars};
ghost use Rattle.order_coding.specs.Families.{kept_pairs, order_clauses, order_formula};
ghost use Rattle.order_coding.specs.Decoded.{is_in, is_before, IsDecoded, Describes, HasValues};

/// A choice of one direction for each two numbers, without cycles of three, is a linear order, and the number of
/// predecessors is the place in it.
pub fn tournaments_without_cycles_are_orders()
    ensures transitive { (xs : List ℕ) (before : ℕ → ℕ → Bool) → IsTournament xs before → HasNoCycle xs before
        → (x y z : ℕ) → Contains xs x → Contains xs y → Contains xs z
        → before x y ≡ true → before y z ≡ true → before x z ≡ true }
    ensures place { (xs : List ℕ) (before : ℕ → ℕ → Bool) → IsTournament xs before → HasNoCycle xs before
        → (x y : ℕ) → Contains xs x → Contains xs y
        → (before x y ≡ true) ↔ (rank xs before x < rank xs before y) }
    ensures one_place { (xs : List ℕ) (before : ℕ → ℕ → Bool) → IsTournament xs before → HasNoCycle xs before
        → (x y : ℕ) → Contains xs x → Contains xs y → rank xs before x ≡ rank xs before y → x ≡ y }
    ensures within { (xs : List ℕ) (before : ℕ → ℕ → Bool) → IsTournament xs before
        → (x : ℕ) → Contains xs x → rank xs before x < length xs }
{}

/// Every crash has values that describe it and make all clauses true.
pub fn crashes_have_values()
    ensures { (events : List Event) (kept : List (ℕ × ℕ)) (crash : Crash) → AreForward (length events) kept
        → IsCrash events kept crash → HasValues (length events) crash (order_formula events kept) }
{}

/// Values that make the clauses true describe the crash that is decoded of them, as far as the cut.
pub fn decoded_crashes_are_described()
    ensures order { (events : List Event) (values : List Bool) (crash : Crash) → IsDecoded (length events) values crash
        → IsPermutation (numbers (length events)) crash.order }
    ensures ascends { (events : List Event) (values : List Bool) (crash : Crash) → IsDecoded (length events) values crash
        → IsStrictlyIncreasing (drop crash.cut crash.order) }
    ensures inside { (events : List Event) (values : List Bool) (crash : Crash) → IsDecoded (length events) values crash
        → (e : ℕ) → IsNumber (length events) e → (is_in values e ≡ true) ↔ Contains (before_cut crash) e }
    ensures before { (events : List Event) (kept : List (ℕ × ℕ)) (values : List Bool) (crash : Crash)
        → MakesAllTrue values (order_clauses events kept) → IsDecoded (length events) values crash
        → (a b : ℕ) → Contains (before_cut crash) a → Contains (before_cut crash) b
        → (is_before (length events) values a b ≡ true) ↔ StandsBefore (before_cut crash) a b }
{}

/// The crash that is decoded of values which make the clauses true is a crash that keeps the pairs, where the events are
/// in the order of their transactions.
pub fn decoded_crashes_are_crashes()
    ensures { (events : List Event) (kept : List (ℕ × ℕ)) (values : List Bool) (crash : Crash)
        → IsNonDecreasingBy (λ e. e.txn) events → AreForward (length events) kept
        → MakesAllTrue values (order_clauses events kept) → IsDecoded (length events) values crash → IsCrash events kept crash }
{}

/// Values for further variables describe the same crash.
pub fn longer_values_describe_the_same()
    ensures { (n : ℕ) (values more : List Bool) (crash : Crash) → order_vars n ≤ length values
        → Describes n values crash → Describes n (values ++ more) crash }
{}

/// Each clause is over the coding's variables.
pub fn clauses_are_over_their_variables()
    ensures { (events : List Event) (kept : List (ℕ × ℕ)) → AreForward (length events) kept
        → All (All (InVars (order_vars (length events)))) (order_clauses events kept) }
{}

/// The clauses of the kept pairs come first, and the others are the same whatever pairs are kept.
pub fn kept_pairs_come_first()
    ensures { (events : List Event) (kept : List (ℕ × ℕ))
        → order_clauses events kept ≡ kept_pairs (length events) kept ++ order_clauses events [] }
{}
