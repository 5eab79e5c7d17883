ghost use Rattle.std.specs.Prelude.{◌≡◌, ℕ, ◌≤◌, List, None, OnOk, IsErrOf};
ghost use Rattle.fer_outside.specs.Causes.{Rose};
ghost use Rattle.fer_outside.specs.declared.library.KeepError.TheVariants.{Failed, OutOfMemory};
ghost use Rattle.ferrite_run.specs.Done.{held_after};
ghost use Rattle.ferrite_run.specs.Saying.{kept_in};
ghost use Rattle.ferrite_run.specs.Delivering.{IsUnkept};
ghost use Rattle.ferrite_run.specs.Delivered.{IsDelivered};

use crate::saying::{Kept, Said};
use crate::writing::write_whole;
use fer_outside::{KeepError, Library, Sink};
use std::alloc::Global;

/// The status where the text couldn't be written whole.
const WRITE_FAULT: u8 = 8;

/// The status where memory was wanting.
pub const OUT_OF_MEMORY: u8 = 9;

/// Keeps what is to be kept, if anything is.
fn keep<L: Library>(alloc: Global, kept: &Option<Kept>, library: &mut L) -> Result<(), KeepError>
    ensures kept { OnOk result (L.held library.new ≡ held_after (L.held library.old) (kept_in kept.now)) }
    ensures unkept { IsErrOf result Failed → IsUnkept (L.held library.old) (L.held library.new) (λ name. Rose (L.faults library.old name) (L.faults library.new name)) (kept_in kept.now) }
    ensures wanting { IsErrOf result OutOfMemory → L.held library.new ≡ L.held library.old }
    ensures untouched { kept.now ≡ None → library.new ≡ library.old }
    ensures never_falls { (other : List ℕ) → L.faults library.old other ≤ L.faults library.new other }
{
    match kept {
        None => Ok(()),
        Some(kept) => library.keep(alloc, kept.name.as_str(), kept.bytes.as_slice()),
    }
}

/// Keeps what is to be kept and writes the text, and answers the status.
pub fn deliver<L: Library, K: Sink>(alloc: Global, said: &Said, library: &mut L, out: &mut K) -> u8
    ensures delivered { IsDelivered (L.held library.old) (L.held library.new) (λ name. Rose (L.faults library.old name) (L.faults library.new name)) (K.written out.old) (K.written out.new) (Rose (K.faults out.old) (K.faults out.new)) (out.new ≡ out.old) said.now result }
    ensures untouched { said.now.kept ≡ None → library.new ≡ library.old }
    ensures never_falls { (other : List ℕ) → L.faults library.old other ≤ L.faults library.new other }
    ensures write_faults_stay { K.faults out.old ≤ K.faults out.new }
{
    match keep(alloc, &said.kept, library) {
        Err(KeepError::OutOfMemory) => OUT_OF_MEMORY,
        Err(KeepError::Failed) => WRITE_FAULT,
        Ok(()) => {
            if write_whole(out, said.text.as_slice()) {
                said.status
            } else {
                WRITE_FAULT
            }
        }
    }
}
