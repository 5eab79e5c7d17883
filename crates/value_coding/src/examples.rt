//! Small files, on which the definitions are computed. Each function does nothing: its contract is the example.

ghost use Rattle.std.specs.Prelude.{◌≡◌, ℕ, ◌∷◌, [], Some, codes, length};
ghost use Rattle.fer_events.specs.States.{after_numbers, start_state};
ghost use Rattle.value_coding.specs.declared.cell.Cell.TheVariants.{SlotOf, SizeOf, Segment};
ghost use Rattle.value_coding.specs.Cells.{Sized, cell_value};
ghost use Rattle.value_coding.specs.Segments.{segments};
ghost use Rattle.value_coding.specs.QuestionCells.{cells};
ghost use Rattle.value_coding.specs.LastWriter.{last_writer};
ghost use Rattle.value_coding.specs.Writers.{value_by};
ghost use Rattle.value_coding.specs.LastClauses.{value_formula};
ghost use Rattle.value_coding.specs.Examples.{one_write, two_writes, two_extends, replaced, content_is};

/// Of two events that set a size, the one that reaches the disk last decides, also where it is the earlier call.
pub fn a_size_by_the_order_of_the_disk()
    ensures last { last_writer two_extends.events (SizeOf 0) (2 ∷ 1 ∷ []) ≡ Some 1 }
    ensures size { value_by two_extends (SizeOf 0) (Some 1) ≡ Sized 3 }
    ensures after { cell_value (after_numbers two_extends.events (start_state two_extends) (2 ∷ 1 ∷ [])) (SizeOf 0) ≡ Sized 3 }
    ensures forward { cell_value (after_numbers two_extends.events (start_state two_extends) (1 ∷ 2 ∷ [])) (SizeOf 0) ≡ Sized 7 }
{}

/// One write of all four bytes gives one segment; a write of the second byte cuts it in three.
pub fn segments_of_four_bytes()
    ensures one { segments one_write (content_is (codes "aaaa")) 0 ≡ (0, 4) ∷ [] }
    ensures two { segments two_writes (content_is (codes "abaa")) 0 ≡ (0, 1) ∷ (1, 1) ∷ (2, 2) ∷ [] }
{}

/// The cells of two questions, and how many variables and clauses they have together with those of the order.
pub fn cells_of_questions()
    ensures one { cells one_write (content_is (codes "aaaa")) ≡ SlotOf 0 ∷ SizeOf 0 ∷ Segment 0 0 4 ∷ [] }
    ensures one_vars { (value_formula one_write.events [] (SlotOf 0 ∷ SizeOf 0 ∷ Segment 0 0 4 ∷ [])).vars ≡ 5 }
    ensures one_clauses { length (value_formula one_write.events [] (SlotOf 0 ∷ SizeOf 0 ∷ Segment 0 0 4 ∷ [])).clauses ≡ 5 }
    ensures replaced { cells replaced (content_is (codes "")) ≡ SlotOf 0 ∷ SizeOf 0 ∷ SizeOf 1 ∷ [] }
    ensures replaced_vars { (value_formula replaced.events ((1, 3) ∷ (1, 4) ∷ (3, 4) ∷ []) (SlotOf 0 ∷ SizeOf 0 ∷ SizeOf 1 ∷ [])).vars ≡ 15 }
    ensures replaced_clauses { length (value_formula replaced.events ((1, 3) ∷ (1, 4) ∷ (3, 4) ∷ []) (SlotOf 0 ∷ SizeOf 0 ∷ SizeOf 1 ∷ [])).clauses ≡ 32 }
{}
