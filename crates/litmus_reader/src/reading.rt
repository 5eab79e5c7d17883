ghost use Rattle.std.specs.Prelude.{◌≡◌, ℕ, IfOk, Err};
ghost use Rattle.litmus_reader.specs.declared.fault.LitmusKind.{LitmusKind};
ghost use Rattle.litmus_reader.specs.declared.fault.LitmusFault.TheVariants.{Refused};
ghost use Rattle.litmus_reader.specs.LitmusText.{IsLitmusText, IsLitmusRefused};

use crate::draft::Draft;
use crate::fault::{LitmusFault, LitmusKind};
use line_files::{FileFault, take_lines};
use litmus_syntax::Litmus;
use std::alloc::Global;

/// The litmus test that the bytes are. Where they are none, the answer is the number of the first bad line, counted
/// from 1, and the kind of its fault; bytes that are too many are refused at line 0. `OutOfMemory` comes only where
/// memory is refused.
pub fn read(alloc: Global, bytes: &[u8]) -> Result<Litmus, LitmusFault>
    ensures read { IfOk result (λ litmus. IsLitmusText bytes.now litmus) }
    ensures refused { (line : ℕ) (kind : LitmusKind) → result ≡ Err (Refused line kind) → IsLitmusRefused bytes.now line kind }
{
    let mut draft = Draft::new(alloc);
    let count = match take_lines(&mut draft, alloc, bytes) {
        Ok(count) => count,
        Err(FileFault::Refused { line, kind }) => {
            return Err(LitmusFault::Refused { line, kind });
        }
        Err(FileFault::OutOfMemory) => return Err(LitmusFault::OutOfMemory),
    };
    match draft.finish() {
        Some(litmus) => Ok(litmus),
        None => Err(LitmusFault::Refused {
            line: count + 1,
            kind: LitmusKind::EndsEarly,
        }),
    }
}
