ghost use Rattle.std.specs.Prelude.{◌≡◌, ◌<◌, ◌≤◌, None, IfOk, OnOk, OnErr, length};
ghost use Rattle.fer_outside.specs.Causes.{one_more};

use crate::sink::{Failed, Sink};
use std::marker::Model;

/// Standard output. Contracts know nothing of what reaches it, and see a `StdSink` as its count of faults.
#[derive(Drop)]
pub struct StdSink<'a, R: Print> {
    rt: &'a R,
    faults: u64,
}

impl<'a, R: Print> Model for StdSink<'a, R> {
    ghost use Rattle.std.specs.Prelude.{ℕ};

    ghost Value = { ℕ };

    ghost view = { λ s. s.faults };
}

impl<'a, R: Print> StdSink<'a, R> {
    /// The standard output of `rt`, with no fault so far. It takes no memory.
    pub fn new(rt: &'a R) -> StdSink<'a, R>
        ensures { result ≡ 0 }
    {
        StdSink { rt, faults: 0 }
    }
}

impl<R: Print> Sink for StdSink<'_, R> {
    ghost written = { λ s. None };

    ghost faults = { λ s. s };

    /// A write that the system refuses, or of which it takes nothing, is a fault.
    fn write(&mut self, bytes: &[u8]) -> Result<usize, Failed>
        requires { 0 < length bytes.now }
        ensures some { IfOk result (λ n. 0 < n) }
        ensures within { IfOk result (λ n. n ≤ length bytes.now) }
        ensures ok { OnOk result (self.new ≡ self.old) }
        ensures failed { OnErr result (self.new ≡ one_more self.old) }
        ensures never_falls { self.old ≤ self.new }
    {
        match self.rt.write_some(bytes) {
            Ok(count) if count > 0 => Ok(count),
            _ => {
                self.faults = self.faults.saturating_add(1);
                Err(Failed)
            }
        }
    }
}
