ghost use Rattle.std.specs.Prelude.{◌≡◌, ℕ, ◌≤◌, List, Option, IfOk, OnOk, IsErrOf, length};
ghost use Rattle.fer_outside.specs.Held.{Held};
ghost use Rattle.fer_outside.specs.Causes.{Rose, IsHeld, IsMissing, IsTooLong, Keeps, IsOpenAt};

use std::alloc::Global;
use thiserror::Error;

/// Why no bytes were fetched.
#[derive(Clone, Copy, Debug, PartialEq, Eq, Error)]
pub enum FetchError {
    /// Nothing is held under the name.
    #[error("there is no such file")]
    Missing,
    /// More bytes are held under the name than the caller's limit.
    #[error("the file is too long")]
    TooLong,
    /// The library met a fault, and counted it.
    #[error("reading failed")]
    Failed,
    /// Memory was refused.
    #[error("out of memory")]
    OutOfMemory,
}

/// Why bytes weren't kept.
#[derive(Clone, Copy, Debug, PartialEq, Eq, Error)]
pub enum KeepError {
    /// The library met a fault, and counted it.
    #[error("writing failed")]
    Failed,
    /// Memory was refused.
    #[error("out of memory")]
    OutOfMemory,
}

/// Bytes under names.
pub trait Library {
    /// What is held, where the library tells it.
    ghost held: { Self → Option Held };

    /// How many faults were met on calls with the name.
    ghost faults: { Self → List ℕ → ℕ };

    /// The bytes that are held under `name`, if there are at most `limit` of them. What is held stays.
    ///
    /// - `Failed`: the count of faults of `name` rose in this call.
    /// - `Missing`: nothing is held under `name`. A library that doesn't tell what it holds answers it
    ///   only where the count of faults of `name` rose in this call.
    /// - `TooLong`: more than `limit` bytes are held under `name`.
    /// - `OutOfMemory`: memory was refused.
    ///
    /// Over a library that tells what it holds, the causes of `Ok`, `Missing` and `TooLong` exclude one
    /// another and leave no other case. So a call that neither failed nor wanted memory answers each of
    /// them exactly where its cause stands.
    fn fetch(&mut self, alloc: Global, name: &str, limit: usize) -> Result<Vec<u8>, FetchError>
        ensures bytes { IfOk result (λ v. IsHeld (held self.old) name.now v.items) }
        ensures within { IfOk result (λ v. length v.items ≤ limit) }
        ensures missing { IsErrOf result FetchError.Missing → IsMissing (held self.old) name.now
            (Rose (faults self.old name.now) (faults self.new name.now)) }
        ensures too_long { IsErrOf result FetchError.TooLong → IsTooLong (held self.old) name.now limit }
        ensures failed { IsErrOf result FetchError.Failed →
            Rose (faults self.old name.now) (faults self.new name.now) }
        ensures never_falls { (other : List ℕ) → faults self.old other ≤ faults self.new other }
        ensures stays { held self.new ≡ held self.old };

    /// Makes `name` hold exactly these bytes. All other names hold what they held.
    ///
    /// - `Failed`: the count of faults of `name` rose in this call, and what is held under `name` is open.
    /// - `OutOfMemory`: memory was refused, and what is held stays.
    fn keep(&mut self, alloc: Global, name: &str, bytes: &[u8]) -> Result<(), KeepError>
        ensures kept { OnOk result (Keeps (held self.old) (held self.new) name.now bytes.now) }
        ensures cause { IsErrOf result KeepError.Failed →
            Rose (faults self.old name.now) (faults self.new name.now) }
        ensures others { IsErrOf result KeepError.Failed → IsOpenAt (held self.old) (held self.new) name.now }
        ensures unkept { IsErrOf result KeepError.OutOfMemory → held self.new ≡ held self.old }
        ensures rises { (other : List ℕ) → faults self.old other ≤ faults self.new other };
}
