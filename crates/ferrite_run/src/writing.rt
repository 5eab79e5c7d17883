ghost use Rattle.std.specs.Prelude.{ℕ, ◌≤◌, ⊤, List, MatchBool};
ghost use Rattle.fer_outside.specs.Causes.{Rose, Grew};
ghost use Rattle.ferrite_run.specs.Delivering.{IsProperFront};

use fer_outside::Sink;

/// Writes the text, and tells whether it was written whole. Else a write failed, and a part of the text from its
/// beginning on was written.
pub fn write_whole<K: Sink>(out: &mut K, text: &[u8]) -> bool
    ensures whole { MatchBool result (Grew (K.written out.old) (K.written out.new) text.now) ((front : List ℕ) × IsProperFront front text.now × Grew (K.written out.old) (K.written out.new) front) }
    ensures failed { MatchBool result ⊤ (Rose (K.faults out.old) (K.faults out.new)) }
    ensures never_falls { K.faults out.old ≤ K.faults out.new }
{
    let mut done = 0;
    while done < text.len() {
        let (_, rest) = text.split_at(done);
        match out.write(rest) {
            Ok(count) => done += count,
            Err(_) => return false,
        }
    }
    true
}
