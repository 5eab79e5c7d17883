ghost use Rattle.std.specs.Prelude.{◌≡◌, ◌≤◌, ◌↔◌, IsTrue, OnOk, OnErr};
ghost use Rattle.fer_outside.specs.Calls.{IsToFail, no_calls, with_failing, after_success, after_failure};

use fer_list::Seq;
use std::alloc::{AllocError, Global};
use std::marker::Model;

/// Which calls are to fail, and how many were made and failed. Calls are numbered from 1. At the end of
/// their type both counts stand still.
#[derive(Debug, Drop)]
pub struct CallPlan {
    failing: Seq<u64>,
    made: u64,
    failed: u64,
}

impl Model for CallPlan {
    ghost use Rattle.fer_outside.specs.Calls.{Calls};

    ghost Value = { Calls };

    ghost view = { λ p. record { failing = p.failing; made = p.made; failed = p.failed } };
}

impl CallPlan {
    /// No call was made, and none is to fail. It takes no memory.
    pub fn new(alloc: Global) -> CallPlan
        ensures { result ≡ no_calls }
    {
        CallPlan {
            failing: Seq::new(alloc),
            made: 0,
            failed: 0,
        }
    }

    /// Puts `call` into the list of the calls that are to fail. Where memory is refused, nothing changes.
    pub fn fail_at(&mut self, call: u64) -> Result<(), AllocError>
        ensures ok { OnOk result (self.new ≡ with_failing self.old call) }
        ensures err { OnErr result (self.new ≡ self.old) }
    {
        self.failing.push(call)?;
        Ok(())
    }

    /// Whether the next call is to fail.
    pub fn is_to_fail(&self) -> bool
        ensures { IsTrue result ↔ IsToFail self.now }
    {
        let next = self.made.saturating_add(1);
        self.failing.as_slice().contains(&next)
    }

    /// Counts a call that doesn't fail.
    pub fn count_success(&mut self)
        ensures { self.new ≡ after_success self.old }
    {
        self.made = self.made.saturating_add(1);
    }

    /// Counts a call that fails.
    pub fn count_failure(&mut self)
        ensures counted { self.new ≡ after_failure self.old }
        ensures never_falls { self.old.failed ≤ self.new.failed }
    {
        self.made = self.made.saturating_add(1);
        self.failed = self.failed.saturating_add(1);
    }
}
