//! Laws of answers. Each function does nothing: its contract is the law.

ghost use Rattle.std.specs.Prelude.{◌≡◌, ℕ, ◌<◌, ◌≤◌, ◌^◌, List, [], length, Some};
ghost use Rattle.fer_outside.specs.Held.{Held};
ghost use Rattle.litmus_syntax.specs.declared.site.Site.{Site};
ghost use Rattle.litmus_syntax.specs.declared.site.SiteKind.{SiteKind};
ghost use Rattle.litmus_syntax.specs.Limits.{IsWithinLimits};
ghost use Rattle.litmus_syntax.specs.LitmusText.{litmus_text};
ghost use Rattle.litmus_syntax.specs.Same.{IsSameTest};
ghost use Rattle.litmus_syntax.specs.Sites.{AreSyncs, StandOutside};
ghost use Rattle.litmus_syntax.specs.Test.{Test};
ghost use Rattle.litmus_reader.specs.LitmusText.{IsLitmusText};
ghost use Rattle.fer_events.specs.Tables.{Trace};
ghost use Rattle.call_events.specs.Resolved.{HasEvents};
ghost use Rattle.predicate_coding.specs.Coding.{coding};
ghost use Rattle.fer_events.specs.declared.event.Event.{Event};
ghost use Rattle.fer_events.specs.Orders.{all_pairs};
ghost use Rattle.fer_events.specs.Pairs.{PairList};
ghost use Rattle.model_library.specs.declared.texts.ShippedModel.TheVariants.{Sequential};
ghost use Rattle.model_library.specs.ShippedModels.{shipped_text};
ghost use Rattle.model_reader.specs.declared.model.Model.{Model};
ghost use Rattle.model_reader.specs.ModelText.{IsModelText};
ghost use Rattle.clause_store.specs.Clauses.{Formula};
ghost use Rattle.proof_log.specs.Logs.{Derivation, IsDerivation};
ghost use Rattle.proof_log.specs.LogText.{log_text};
ghost use Rattle.proof_log.specs.LogFiles.{IsLogText};
ghost use Rattle.rup_checker.specs.Accepting.{IsAccepted, IsOpenLog};
ghost use Rattle.crash_question.specs.Answers.{IsRefutation, IsOpenPart};
ghost use Rattle.sync_repair.specs.Sets.{AreKept};
ghost use Rattle.sync_repair.specs.declared.findings.Findings.{Findings};
ghost use Rattle.sync_repair.specs.Findings.{AreClosed, AreOpen};
ghost use Rattle.ferrite_run.specs.Repair.{sited_log};
ghost use Rattle.ferrite_run.specs.Sites.{repaired_by};
ghost use Rattle.ferrite_run.specs.Check.{plain_log};
ghost use Rattle.ferrite_run.specs.Agreeing.{Agree};
ghost use Rattle.ferrite_run.specs.Answers.{IsAnswer};
ghost use Rattle.ferrite_run.specs.Done.{Done};

use call_events::{inserted_first, one_outcome, same_tests_alike};
use clause_store::laws::new_clauses_are_few;
use command_line::one_command;
use litmus_round_trip::reads_back;
use litmus_syntax::inserted_within_limits;
use proof_log::{one_log, one_refusal, printed_logs_are_read};
use sync_repair::kept_pairs_say_what_is_reached;
use sync_sites::too_many_or_few;
use witness_replay::{one_crash, one_judgement};

/// Without faults, what a library holds and the words give one answer, but for the crash that shows that a question is
/// allowed or that no syncs suffice, the log that shows that it is forbidden, the crashes that show syncs needed, and where a
/// search that met its limit leaves a question open. So a repair gives one test.
pub fn one_answer()
    ensures one { (held : Held) (words choices : List (List ℕ)) (x y : Done) → IsAnswer (Some held) (λ name. ⊥) words choices x → IsAnswer (Some held) (λ name. ⊥) words choices y → Agree x y }
{
    one_command();
    one_outcome();
    one_crash();
    one_judgement();
    one_log();
    one_refusal();
    too_many_or_few();
    kept_pairs_say_what_is_reached();
    rup_checker::laws::one_judgement();
    litmus_reader::one_reading();
    model_reader::one_reading();
}

/// The log that `check` keeps of a `forbidden` is accepted, and the one that it keeps where a limit was met leaves the
/// question open, with fewer clauses than 4 to the number of variables. Where its text has at most 64 MiB, it is read as
/// that log.
pub fn kept_logs_are_logs()
    ensures accepted { (f : Formula) (part : Derivation) → IsRefutation f part → IsAccepted f (plain_log part) }
    ensures open_log { (f : Formula) (part : Derivation) → IsOpenPart f part → IsOpenLog f (plain_log part) }
    ensures few { (f : Formula) (part : Derivation) → IsDerivation part → IsOpenPart f part → length part.learned < 4 ^ f.vars }
    ensures read { (part : Derivation) → IsDerivation part → length (log_text (plain_log part)) ≤ 67108864 → IsLogText (log_text (plain_log part)) (plain_log part) }
{
    new_clauses_are_few();
    printed_logs_are_read();
}

/// The log that `repair` keeps of a repaired test is accepted over the formula that it is about, and the one that it keeps
/// where a limit was met leaves that formula's question open, with fewer clauses than 4 to the number of variables. Where its
/// text has at most 64 MiB, it is read as that log.
pub fn repair_logs_are_logs()
    ensures accepted { (litmus : Test) (model : Model) (sites : List Site) (f : Findings) (kind : SiteKind) → (is : AreClosed litmus model sites f)
        → IsAccepted (coding is.all is.kept.pairs litmus.pred litmus.want) (sited_log kind f) }
    ensures open_log { (litmus : Test) (model : Model) (sites : List Site) (limit : ℕ) (f : Findings) (kind : SiteKind) → (is : AreOpen litmus model sites limit f)
        → IsOpenLog (coding is.all is.kept.pairs litmus.pred litmus.want) (sited_log kind f) }
    ensures few { (litmus : Test) (model : Model) (sites : List Site) (limit : ℕ) (f : Findings) → IsDerivation f.part → (is : AreOpen litmus model sites limit f)
        → length f.part.learned < 4 ^ (coding is.all is.kept.pairs litmus.pred litmus.want).vars }
    ensures read { (kind : SiteKind) (f : Findings) → IsDerivation f.part → length f.set ≤ 4294967295 → f.before ≤ length f.part.learned
        → length (log_text (sited_log kind f)) ≤ 67108864 → IsLogText (log_text (sited_log kind f)) (sited_log kind f) }
{
    new_clauses_are_few();
    printed_logs_are_read();
}

/// A repaired test can be read: its canonical text, where it isn't longer than a litmus file may be, is read as that test, in
/// everything but the lines, and what is read has the events that the test has with the sites of the repair.
pub fn repaired_tests_are_read()
    ensures read { (litmus : Test) (sites : List Site) → IsWithinLimits litmus → AreSyncs sites → StandOutside litmus.body sites
        → length (litmus_text (repaired_by litmus sites)) ≤ 65536
        → (m : Test) × IsLitmusText (litmus_text (repaired_by litmus sites)) m × IsSameTest (repaired_by litmus sites) m }
    ensures same_events { (litmus : Test) (sites : List Site) (m : Test) (t : Trace) → IsSameTest (repaired_by litmus sites) m → HasEvents litmus sites t → HasEvents m [] t }
{
    reads_back();
    inserted_within_limits();
    inserted_first();
    same_tests_alike();
}

/// The sequential model keeps every pair of events in program order.
pub fn sequential_keeps_all()
    ensures all { (model : Model) (events : List Event) (pairs : PairList) → IsModelText (shipped_text Sequential) model → AreKept model events pairs → pairs.pairs ≡ all_pairs (length events) }
{
    model_reader::one_reading();
}
