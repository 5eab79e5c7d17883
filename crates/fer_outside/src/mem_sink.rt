ghost use Rattle.std.specs.Prelude.{◌≡◌, ◌<◌, ◌≤◌, ◌⊎◌, ◌↔◌, [], Some, OnOk, OnErr, IfOk, IsErr, length};
ghost use Rattle.fer_outside.specs.Calls.{IsToFail, no_calls, with_failing, after_failure};
ghost use Rattle.fer_outside.specs.Memory.{taken, after_write};

use crate::calls::CallPlan;
use crate::sink::{Failed, Sink};
use std::alloc::{AllocError, Global};
use std::marker::Model;

/// A sink in memory, with a fixed room, which takes its bytes in pieces. Chosen calls fail, and so does
/// each call once the room is used up.
#[derive(Debug, Drop)]
pub struct MemSink {
    bytes: Vec<u8>,
    room: usize,
    piece: usize,
    plan: CallPlan,
}

impl Model for MemSink {
    ghost use Rattle.std.specs.Prelude.{◌+◌, ◌<◌, ◌≤◌, vec_len};
    ghost use Rattle.std.specs.Vec.{vec_capacity};
    ghost use Rattle.fer_outside.specs.Memory.{Tape};

    ghost Value = { Tape };

    ghost view = { λ s. record { written = s.bytes.items; room = s.room; piece = s.piece; calls = s.plan } };

    // The memory for all of the room is there, so that no write has to ask for any.
    ghost invariant = { λ s. (0 < s.piece) × (vec_len s.bytes + s.room ≤ vec_capacity s.bytes) };
}

impl MemSink {
    /// A sink with room for `room` bytes, which takes at most `piece` bytes a call. No call is to fail. All
    /// the memory that its writes need is taken here.
    pub fn new(alloc: Global, room: usize, piece: usize) -> Result<MemSink, AllocError>
        requires { 0 < piece }
        ensures { IfOk result (λ s. s ≡ record { written = []; room = room; piece = piece; calls = no_calls }) }
    {
        let bytes = Vec::with_capacity(alloc, room)?;
        Ok(MemSink {
            bytes,
            room,
            piece,
            plan: CallPlan::new(alloc),
        })
    }

    /// Makes the call of this number fail, the first call being 1. Where memory is refused, nothing changes.
    pub fn fail_at(&mut self, call: u64) -> Result<(), AllocError>
        ensures ok { OnOk result (self.new ≡ record self.old { calls = with_failing self.old.calls call }) }
        ensures err { OnErr result (self.new ≡ self.old) }
    {
        self.plan.fail_at(call)?;
        Ok(())
    }

    /// What was written.
    pub fn bytes(&self) -> &[u8]
        ensures { result.now ≡ self.now.written }
    {
        self.bytes.as_slice()
    }
}

impl Sink for MemSink {
    ghost written = { λ s. Some s.written };

    ghost faults = { λ s. s.calls.failed };

    /// Takes as many bytes as the least of the length of `bytes`, the piece and the room that is left.
    /// Fails exactly where the number of this call is in the list of the calls that are to fail, or the
    /// room is used up.
    fn write(&mut self, bytes: &[u8]) -> Result<usize, Failed>
        requires { 0 < length bytes.now }
        ensures fails { IsErr result ↔ (IsToFail self.old.calls ⊎ (self.old.room ≡ 0)) }
        ensures some { IfOk result (λ n. 0 < n) }
        ensures taken { IfOk result (λ n. n ≡ taken self.old bytes.now) }
        ensures success { IfOk result (λ n. self.new ≡ after_write self.old bytes.now n) }
        ensures never_falls { self.old.calls.failed ≤ self.new.calls.failed }
        ensures failure { OnErr result (self.new ≡ record self.old { calls = after_failure self.old.calls }) }
    {
        if self.room == 0 || self.plan.is_to_fail() {
            self.plan.count_failure();
            return Err(Failed);
        }
        self.plan.count_success();
        let count = bytes.len().min(self.piece).min(self.room);
        let (front, _) = bytes.split_at(count);
        // The memory is there since `new`, so this can't fail.
        let _appended = self.bytes.extend_from_slice(front);
        self.room -= count;
        Ok(count)
    }
}
