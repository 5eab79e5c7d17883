ghost use Rattle.std.specs.Prelude.{◌≡◌, ℕ, IfOk, Err};
ghost use Rattle.model_reader.specs.declared.fault.ModelKind.{ModelKind};
ghost use Rattle.model_reader.specs.declared.fault.ModelFault.TheVariants.{Refused};
ghost use Rattle.model_reader.specs.ModelText.{IsModelText, IsModelRefused};

use crate::draft::Draft;
use crate::fault::{ModelFault, ModelKind};
use crate::model::Model;
use line_files::{FileFault, take_lines};
use std::alloc::Global;

/// The model that the bytes are. Where they are none, the answer is the number of the first bad line, counted from 1, and
/// the kind of its fault; bytes that are too many are refused at line 0. `OutOfMemory` comes only where memory is refused.
pub fn read(alloc: Global, bytes: &[u8]) -> Result<Model, ModelFault>
    ensures read { IfOk result (λ model. IsModelText bytes.now model) }
    ensures refused { (line : ℕ) (kind : ModelKind) → result ≡ Err (Refused line kind) → IsModelRefused bytes.now line kind }
{
    let mut draft = Draft::new(alloc);
    let count = match take_lines(&mut draft, alloc, bytes) {
        Ok(count) => count,
        Err(FileFault::Refused { line, kind }) => {
            return Err(ModelFault::Refused { line, kind });
        }
        Err(FileFault::OutOfMemory) => return Err(ModelFault::OutOfMemory),
    };
    match draft.finish() {
        Some(model) => Ok(model),
        None => Err(ModelFault::Refused {
            line: count + 1,
            kind: ModelKind::EndsEarly,
        }),
    }
}
