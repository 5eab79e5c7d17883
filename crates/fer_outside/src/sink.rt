ghost use Rattle.std.specs.Prelude.{◌≡◌, ℕ, ◌<◌, ◌≤◌, List, Option, IfOk, OnErr, length, take};
ghost use Rattle.fer_outside.specs.Causes.{Rose, Grew};

/// A write failed, and the sink counted it.
#[derive(Clone, Copy, Debug, PartialEq, Eq)]
pub struct Failed;

/// A place to write to.
pub trait Sink {
    /// What was written, from the first byte on, where the sink tells it.
    ghost written: { Self → Option (List ℕ) };

    /// How many writes failed.
    ghost faults: { Self → ℕ };

    /// Writes the first bytes of `bytes`, and answers how many: at least one. It takes no memory.
    ///
    /// `Failed`: the count of faults rose in this call, and nothing was written.
    fn write(&mut self, bytes: &[u8]) -> Result<usize, Failed>
        requires { 0 < length bytes.now }
        ensures some { IfOk result (λ n. 0 < n) }
        ensures within { IfOk result (λ n. n ≤ length bytes.now) }
        ensures grew { IfOk result (λ n. Grew (written self.old) (written self.new) (take n bytes.now)) }
        ensures failed { OnErr result (Rose (faults self.old) (faults self.new)) }
        ensures stays { OnErr result (written self.new ≡ written self.old) }
        ensures never_falls { faults self.old ≤ faults self.new };
}
