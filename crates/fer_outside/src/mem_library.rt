ghost use Rattle.std.specs.Prelude.{◌≡◌, ◌≤◌, ◌↔◌, Some, None, OnOk, OnErr, IfOk, IsErrOf, length};
ghost use Rattle.fer_outside.specs.Held.{HoldsMore, held_under, nothing_held, with_held};
ghost use Rattle.fer_outside.specs.Calls.{IsToFail, no_calls, with_failing, after_success, after_failure};

use crate::calls::CallPlan;
use crate::library::{FetchError, KeepError, Library};
use crate::shelf::Shelf;
use std::alloc::{AllocError, Global};
use std::marker::Model;

/// A library in memory, of which chosen calls fail. Its calls of `fetch` and `keep` are counted together.
#[derive(Debug, Drop)]
pub struct MemLibrary {
    shelf: Shelf,
    plan: CallPlan,
}

impl Model for MemLibrary {
    ghost use Rattle.fer_outside.specs.Memory.{HeldAndCalls, library_code};

    ghost Value = { HeldAndCalls };

    ghost coded = { library_code };

    ghost view = { λ l. record { held = l.shelf; calls = l.plan } };
}

impl MemLibrary {
    /// A library that holds nothing, of which no call is to fail. It takes no memory.
    pub fn new(alloc: Global) -> MemLibrary
        ensures { result ≡ record { held = nothing_held; calls = no_calls } }
    {
        MemLibrary {
            shelf: Shelf::new(alloc),
            plan: CallPlan::new(alloc),
        }
    }

    /// Makes the name hold exactly these bytes. Where memory is refused, nothing changes.
    pub fn put(&mut self, name: &str, bytes: &[u8]) -> Result<(), AllocError>
        ensures ok { OnOk result
            (self.new ≡ record self.old { held = with_held self.old.held name.now bytes.now }) }
        ensures err { OnErr result (self.new ≡ self.old) }
    {
        self.shelf.put(name, bytes)?;
        Ok(())
    }

    /// Makes the call of this number fail, the first call being 1. Where memory is refused, nothing changes.
    pub fn fail_at(&mut self, call: u64) -> Result<(), AllocError>
        ensures ok { OnOk result (self.new ≡ record self.old { calls = with_failing self.old.calls call }) }
        ensures err { OnErr result (self.new ≡ self.old) }
    {
        self.plan.fail_at(call)?;
        Ok(())
    }
}

impl Library for MemLibrary {
    ghost held = { λ l. Some l.held };

    ghost faults = { λ l name. l.calls.failed };

    /// Fails exactly where the number of this call is in the list of the calls that are to fail.
    fn fetch(&mut self, alloc: Global, name: &str, limit: usize) -> Result<Vec<u8>, FetchError>
        ensures bytes { IfOk result (λ v. held_under self.old.held name.now ≡ Some v.items) }
        ensures within { IfOk result (λ v. length v.items ≤ limit) }
        ensures missing { IsErrOf result FetchError.Missing → held_under self.old.held name.now ≡ None }
        ensures too_long { IsErrOf result FetchError.TooLong → HoldsMore self.old.held name.now limit }
        ensures failed { IsErrOf result FetchError.Failed ↔ IsToFail self.old.calls }
        ensures never_falls { self.old.calls.failed ≤ self.new.calls.failed }
        ensures failure { IsErrOf result FetchError.Failed →
            self.new ≡ record self.old { calls = after_failure self.old.calls } }
        ensures success { ¬ IsErrOf result FetchError.Failed →
            self.new ≡ record self.old { calls = after_success self.old.calls } }
    {
        if self.plan.is_to_fail() {
            self.plan.count_failure();
            return Err(FetchError::Failed);
        }
        self.plan.count_success();
        self.shelf.fetch(alloc, name, limit)
    }

    /// Fails exactly where the number of this call is in the list of the calls that are to fail; then the name holds what
    /// it held.
    fn keep(&mut self, _alloc: Global, name: &str, bytes: &[u8]) -> Result<(), KeepError>
        ensures failed { IsErrOf result KeepError.Failed ↔ IsToFail self.old.calls }
        ensures failure { IsErrOf result KeepError.Failed →
            self.new ≡ record self.old { calls = after_failure self.old.calls } }
        ensures refused { IsErrOf result KeepError.OutOfMemory →
            self.new ≡ record self.old { calls = after_success self.old.calls } }
        ensures success { OnOk result
            (self.new ≡ record { held = with_held self.old.held name.now bytes.now; calls = after_success self.old.calls }) }
        ensures never_falls { self.old.calls.failed ≤ self.new.calls.failed }
    {
        if self.plan.is_to_fail() {
            self.plan.count_failure();
            return Err(KeepError::Failed);
        }
        self.plan.count_success();
        self.shelf.keep(name, bytes)
    }
}
