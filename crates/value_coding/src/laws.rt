//! Laws of cells and their writers. Each function does nothing: its contract is the law.

ghost use Rattle.std.specs.Prelude.{◌≡◌, ◌≢◌, ◌↔◌, ℕ, ◌+◌, ◌-◌, ◌<◌, ◌≤◌, Bool, true, false, List, [], ◌∷◌, length, take, drop, slice_index, Option, Some, None, slice_get, unwrap_or, IfSome, Contains, All, AllPairs};
ghost use Rattle.std.specs.List.{list_any};
ghost use Rattle.std.specs.List.Sorted.{IsStrictlyIncreasing};
ghost use Rattle.litmus_syntax.specs.declared.pred.Pred.{Pred};
ghost use Rattle.clause_store.specs.Clauses.{InVars};
ghost use Rattle.clause_store.specs.Truth.{is_true, MakesAllTrue};
ghost use Rattle.fer_events.specs.declared.event.Event.{Event};
ghost use Rattle.fer_events.specs.declared.event.Crash.{Crash};
ghost use Rattle.fer_events.specs.Orders.{before_cut, IsCrash, StandsBefore};
ghost use Rattle.fer_events.specs.Tables.{Trace, IsTrace, file_count};
ghost use Rattle.fer_events.specs.States.{after_numbers, after_crash, start_state};
ghost use Rattle.fer_events.specs.Truth.{size_of};
ghost use Rattle.order_coding.specs.Variables.{IsNumber};
ghost use Rattle.fer_events.specs.Orders.{AreForward};
ghost use Rattle.order_coding.specs.Decoded.{IsDecoded, Describes, HasValues};
ghost use Rattle.value_coding.specs.declared.cell.Cell.{Cell};
ghost use Rattle.value_coding.specs.declared.cell.Cell.TheVariants.{SlotOf, SizeOf, AttrOf, Segment};
ghost use Rattle.value_coding.specs.Cells.{Held, Filled, IsThere, cell_value};
ghost use Rattle.value_coding.specs.Runs.{AllOrNone, runs, IsRun};
ghost use Rattle.value_coding.specs.LastClauses.{last_lit, named_writer, first_var, value_formula, SaysLast};
ghost use Rattle.value_coding.specs.declared.reading.Part.{Part};
ghost use Rattle.value_coding.specs.declared.reading.Part.TheVariants.{Size, Key, Places};
ghost use Rattle.value_coding.specs.Readings.{readings, parts, may_hold};
ghost use Rattle.value_coding.specs.Segments.{segments};
ghost use Rattle.value_coding.specs.QuestionCells.{cells};
ghost use Rattle.value_coding.specs.WordMarks.{is_mark};
ghost use Rattle.value_coding.specs.Undivided.{IsUndivided};
ghost use Rattle.value_coding.specs.Writers.{is_writer, writers, value_by};
ghost use Rattle.value_coding.specs.LastWriter.{last_writer};

/// After any events, in any order, a cell holds what the last of them that writes it gave it, and what it held at the
/// start where none of them writes it.
pub fn the_last_writer_decides()
    ensures cell { (t : Trace) (cell : Cell) (order : List ℕ) → IsTrace t → IsThere t cell → IsUndivided t.events cell
        → cell_value (after_numbers t.events (start_state t) order) cell
        ≡ value_by t cell (last_writer t.events cell order) }
    ensures question { (t : Trace) (pred : Pred) (cell : Cell) (order : List ℕ) → IsTrace t
        → Contains (cells t pred) cell
        → cell_value (after_numbers t.events (start_state t) order) cell
        ≡ value_by t cell (last_writer t.events cell order) }
{}

/// Each run of places is read, has no edge inside and can't be longer, and each read place is in one.
pub fn runs_have_no_edge_inside()
    ensures runs { (reads : ℕ → Bool) (edges : List ℕ) (n : ℕ) (run : ℕ × ℕ)
        → Contains (runs reads edges n) run → IsRun reads edges n run.0 run.1 }
    ensures all { (reads : ℕ → Bool) (edges : List ℕ) (n place : ℕ) → place < n → reads place ≡ true
        → (run : ℕ × ℕ) × Contains (runs reads edges n) run × (run.0 ≤ place) × (place < run.0 + run.1) }
{}

/// Each event of a file, and each range that a question reads of it, has all of a segment or none of it; and each place
/// that is read is in a segment.
pub fn segments_are_not_divided()
    ensures events { (t : Trace) (pred : Pred) (file : ℕ) (run : ℕ × ℕ) → Contains (segments t pred file) run
        → IsUndivided t.events (Segment file run.0 run.1) }
    ensures readings { (t : Trace) (pred : Pred) (file : ℕ) (run : ℕ × ℕ) (at len : ℕ)
        → Contains (segments t pred file) run → Contains (parts t pred file) (Places at len) → 0 < len
        → AllOrNone run.0 run.1 at (at + len) }
    ensures all { (t : Trace) (pred : Pred) (file at len place : ℕ) → Contains (parts t pred file) (Places at len)
        → at ≤ place → place < at + len → place < 65536
        → (run : ℕ × ℕ) × Contains (segments t pred file) run × (run.0 ≤ place) × (place < run.0 + run.1) }
    ensures cells { (t : Trace) (pred : Pred) (cell : Cell) → Contains (cells t pred) cell
        → IsThere t cell × IsUndivided t.events cell }
{}

/// Of the variables of a cell, values that make the clauses true make exactly one true: that of the last writer among
/// the events that are in, in the order that is decoded. So it names the value that the cell has after the crash.
pub fn one_writer_is_last()
    ensures says { (events : List Event) (kept : List (ℕ × ℕ)) (cells : List Cell) (values : List Bool) (crash : Crash)
        (i : ℕ) (cell : Cell) → MakesAllTrue values (value_formula events kept cells).clauses
        → IsDecoded (length events) values crash → slice_get cells i ≡ Some cell
        → SaysLast values (first_var events cells i) (writers events cell) (last_writer events cell (before_cut crash)) }
    ensures described { (events : List Event) (kept : List (ℕ × ℕ)) (cells : List Cell) (values : List Bool) (crash : Crash)
        (i : ℕ) (cell : Cell) → IsCrash events kept crash → Describes (length events) values crash
        → MakesAllTrue values (value_formula events kept cells).clauses → slice_get cells i ≡ Some cell
        → SaysLast values (first_var events cells i) (writers events cell) (last_writer events cell (before_cut crash)) }
    ensures value { (t : Trace) (kept : List (ℕ × ℕ)) (pred : Pred) (values : List Bool) (crash : Crash)
        (i j : ℕ) (cell : Cell) → IsTrace t → MakesAllTrue values (value_formula t.events kept (cells t pred)).clauses
        → IsDecoded (length t.events) values crash → slice_get (cells t pred) i ≡ Some cell
        → j ≤ length (writers t.events cell) → is_true values (last_lit (first_var t.events (cells t pred) i) j) ≡ true
        → cell_value (after_crash t crash) cell ≡ value_by t cell (named_writer (writers t.events cell) j) }
{
    order_coding::laws::decoded_crashes_are_described();
}

/// Every crash has values that describe it and make all clauses true, the last writers' too.
pub fn crashes_have_last_writers()
    ensures { (events : List Event) (kept : List (ℕ × ℕ)) (cells : List Cell) (crash : Crash)
        → AreForward (length events) kept → IsCrash events kept crash
        → HasValues (length events) crash (value_formula events kept cells) }
{
    order_coding::laws::crashes_have_values();
    order_coding::laws::longer_values_describe_the_same();
    order_coding::laws::clauses_are_over_their_variables();
    clause_store::laws::longer_values_change_nothing();
}

/// Each clause is over the variables of the order and of the cells.
pub fn last_writers_are_over_their_variables()
    ensures { (events : List Event) (kept : List (ℕ × ℕ)) (cells : List Cell) → length events ≤ 128
        → AreForward (length events) kept
        → All (All (InVars (value_formula events kept cells).vars)) (value_formula events kept cells).clauses }
{
    order_coding::laws::clauses_are_over_their_variables();
}

/// The bytes of a range that a question reads are a text exactly where each segment in the range has its part of it.
pub fn segments_decide_a_range()
    ensures { (t : Trace) (pred : Pred) (file at : ℕ) (text row : List ℕ)
        → Contains (parts t pred file) (Places at (length text)) → at + length text ≤ 65536 → length row ≡ 65536
        → (take (length text) (drop at row) ≡ text) ↔ ((run : ℕ × ℕ) → Contains (segments t pred file) run
        → at ≤ run.0 → run.0 + run.1 ≤ at + length text
        → take run.1 (drop run.0 row) ≡ take run.1 (drop (run.0 - at) text)) }
{}

/// A slot is given only its candidates to hold.
pub fn slots_hold_candidates()
    ensures { (t : Trace) (slot file : ℕ) (writer : Option ℕ)
        → value_by t (SlotOf slot) writer ≡ Held (Some file) → may_hold t slot file ≡ true }
{}

/// In an order without repetition the last writer is the one that all other writers of it stand before.
pub fn the_last_writer_is_behind_all_others()
    ensures none { (events : List Event) (cell : Cell) (order : List ℕ)
        → (last_writer events cell order ≡ None)
        ↔ ((a : ℕ) → Contains order a → is_writer events cell a ≡ true → ⊥) }
    ensures some { (events : List Event) (cell : Cell) (order : List ℕ) (w : ℕ) → AllPairs (λ a b. a ≢ b) order
        → (last_writer events cell order ≡ Some w)
        ↔ (Contains order w × (is_writer events cell w ≡ true)
        × ((a : ℕ) → Contains order a → is_writer events cell a ≡ true → a ≢ w → StandsBefore order a w)) }
{}

/// The writers of a cell are the numbers of the events that write it, ascending.
pub fn writers_ascend()
    ensures ascend { (events : List Event) (cell : Cell) → IsStrictlyIncreasing (writers events cell) }
    ensures all { (events : List Event) (cell : Cell) (a : ℕ) → Contains (writers events cell) a
        ↔ (IsNumber (length events) a × (is_writer events cell a ≡ true)) }
{}

/// What a question reads has its cells, of each candidate file.
pub fn readings_have_cells()
    ensures slots { (t : Trace) (pred : Pred) (slot : ℕ) (part : Part) → slot < length t.slots
        → Contains (readings t pred) (slot, part) → Contains (cells t pred) (SlotOf slot) }
    ensures sizes { (t : Trace) (pred : Pred) (slot file : ℕ) → file < file_count t
        → Contains (readings t pred) (slot, Size) → may_hold t slot file ≡ true
        → Contains (cells t pred) (SizeOf file) }
    ensures attrs { (t : Trace) (pred : Pred) (slot file key : ℕ) → file < file_count t → key < length t.keys
        → Contains (readings t pred) (slot, Key key) → may_hold t slot file ≡ true
        → Contains (cells t pred) (AttrOf file key) }
    ensures segments { (t : Trace) (pred : Pred) (file : ℕ) (run : ℕ × ℕ) → file < file_count t
        → Contains (segments t pred file) run → Contains (cells t pred) (Segment file run.0 run.1) }
{}

/// A byte of a segment's value is the value of that place alone, by the same writer.
pub fn bytes_stand_in_segments()
    ensures { (t : Trace) (file at len place : ℕ) (writer : Option ℕ) (bytes : List ℕ) → IsTrace t
        → file < file_count t → at + len ≤ 65536
        → IfSome writer (λ w. is_writer t.events (Segment file at len) w ≡ true)
        → value_by t (Segment file at len) writer ≡ Filled bytes → at ≤ place → place < at + len
        → value_by t (Segment file place 1) writer ≡ Filled (slice_index bytes (place - at) ∷ []) }
{}

/// After any events a word was seen exactly where one of them is a mark of it.
pub fn words_are_seen_by_their_marks()
    ensures { (t : Trace) (word : ℕ) (order : List ℕ) → word < length t.words
        → unwrap_or (slice_get (after_numbers t.events (start_state t) order).seen word) false
        ≡ list_any (is_mark t.events word) order }
{}

/// After any events each file has its 65,536 bytes, and its size isn't above that.
pub fn files_keep_their_places()
    ensures bytes { (t : Trace) (file : ℕ) (order : List ℕ) → IsTrace t → file < file_count t
        → length (unwrap_or (slice_get (after_numbers t.events (start_state t) order).bytes file) []) ≡ 65536 }
    ensures size { (t : Trace) (file : ℕ) (order : List ℕ) → IsTrace t → file < file_count t
        → size_of (after_numbers t.events (start_state t) order) file ≤ 65536 }
{}
