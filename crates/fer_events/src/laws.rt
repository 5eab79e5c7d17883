//! Laws of orders, pairs and names. Each function does nothing: its contract is the law.

ghost use Rattle.std.specs.Prelude.{◌≡◌, ◌↔◌, ℕ, true, List, position, All, IsTrue};
ghost use Rattle.std.specs.List.{Contains};
ghost use Rattle.litmus_syntax.specs.declared.call.Call.TheVariants.{Fsync, FsyncDir};
ghost use Rattle.litmus_syntax.specs.Forms.{is_formed_call};
ghost use Rattle.fer_events.specs.Orders.{numbers, all_pairs, IsValidOrder};
ghost use Rattle.fer_events.specs.Pairs.{has_pair};
ghost use Rattle.fer_events.specs.Tables.{Trace, IsTrace};
ghost use Rattle.fer_events.specs.Paths.{same_path, slot_path};
ghost use Rattle.fer_events.specs.Truth.{slot_number};

/// Where every pair is kept, program order is a valid order, and the only one.
pub fn all_pairs_keep_program_order()
    ensures valid { (n : ℕ) → IsValidOrder n (all_pairs n) (numbers n) }
    ensures only { (n : ℕ) (order : List ℕ) → IsValidOrder n (all_pairs n) order → order ≡ numbers n }
{}

/// A pair is found in a list exactly where it is one of the list's.
pub fn pairs_are_found()
    ensures { (pairs : List (ℕ × ℕ)) (a b : ℕ) → (has_pair pairs a b ≡ true) ↔ Contains pairs (a, b) }
{}

/// A path's slot is the one whose directory and name make up the path.
pub fn paths_have_their_slots()
    ensures { (t : Trace) (path : List (List ℕ)) → IsTrace t → slot_number t path ≡ position (λ slot. same_path (slot_path t.dirs slot) path) t.slots }
{}

/// A sync on a file's path or on a directory of a trace is a formed call.
pub fn syncs_are_formed()
    ensures files { (t : Trace) → IsTrace t → All (λ slot. IsTrue (is_formed_call (Fsync (slot_path t.dirs slot)))) t.slots }
    ensures dirs { (t : Trace) → IsTrace t → All (λ dir. IsTrue (is_formed_call (FsyncDir dir))) t.dirs }
{}
