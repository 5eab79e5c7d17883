//! Laws of the coding. Each function does nothing: its contract is the law.

ghost use Rattle.std.specs.Prelude.{◌≡◌, ℕ, Bool, List, length};
ghost use Rattle.litmus_syntax.specs.declared.pred.Pred.{Pred};
ghost use Rattle.clause_store.specs.Truth.{is_true, MakesAllTrue};
ghost use Rattle.fer_events.specs.declared.event.Crash.{Crash};
ghost use Rattle.fer_events.specs.States.{after_crash};
ghost use Rattle.fer_events.specs.Tables.{Trace, IsTrace};
ghost use Rattle.fer_events.specs.Truth.{truth};
ghost use Rattle.fer_events.specs.Witness.{IsWitness};
ghost use Rattle.fer_events.specs.Orders.{AreForward};
ghost use Rattle.order_coding.specs.Decoded.{IsDecoded, HasValues};
ghost use Rattle.predicate_coding.specs.Nodes.{own_lit};
ghost use Rattle.predicate_coding.specs.Coding.{node_in, coding};
ghost use Rattle.predicate_coding.specs.Parts.{StandsAt};

/// Values that make the coding true give the variable of each node the truth of its part after the crash that is decoded.
/// So that crash answers the question.
pub fn true_values_are_witnesses()
    ensures nodes { (t : Trace) (kept : List (ℕ × ℕ)) (pred : Pred) (want : Bool) (values : List Bool) (crash : Crash)
        (part : Pred) (first : ℕ) → IsTrace t → MakesAllTrue values (coding t kept pred want).clauses
        → IsDecoded (length t.events) values crash → StandsAt t pred part first
        → is_true values (own_lit (node_in t pred part) first) ≡ truth t (after_crash t crash) part }
    ensures witness { (t : Trace) (kept : List (ℕ × ℕ)) (pred : Pred) (want : Bool) (values : List Bool) (crash : Crash)
        → IsTrace t → AreForward (length t.events) kept → MakesAllTrue values (coding t kept pred want).clauses
        → IsDecoded (length t.events) values crash → IsWitness t kept pred want crash }
{
    order_coding::laws::decoded_crashes_are_described();
    order_coding::laws::decoded_crashes_are_crashes();
    value_coding::laws::one_writer_is_last();
}

/// Every crash that answers the question has values, one for each variable, that describe it and make the coding true.
pub fn witnesses_have_values()
    ensures { (t : Trace) (kept : List (ℕ × ℕ)) (pred : Pred) (want : Bool) (crash : Crash) → IsTrace t
        → AreForward (length t.events) kept → IsWitness t kept pred want crash
        → HasValues (length t.events) crash (coding t kept pred want) }
{
    value_coding::laws::crashes_have_last_writers();
    value_coding::laws::one_writer_is_last();
    value_coding::laws::last_writers_are_over_their_variables();
    order_coding::laws::longer_values_describe_the_same();
    clause_store::laws::longer_values_change_nothing();
}
