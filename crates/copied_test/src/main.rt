//! Writes the canonical text of a copy of the litmus test in the named file: of the test with no sync inserted. No command
//! of Ferrite's copies a test yet, so this program stands in for one where the deepest questions are copied on a small
//! stack. It stands on `litmus_reader` and `litmus_syntax`.
#![tactic(auto)]

ghost use Rattle.std.specs.Prelude.{◌≡◌, [], IfOk};
ghost use Rattle.litmus_syntax.specs.LitmusText.{litmus_text};
ghost use Rattle.litmus_syntax.specs.Sites.{with_sites};

use fer_outside::{DiskLibrary, Library};
use line_files::MOST_BYTES;
use litmus_reader::read;
use litmus_syntax::{Litmus, insert, print};
use std::alloc::{AllocError, Global};
use std::env;
use std::env::Env;
use std::process::ExitCode;
use std::rt::Files;

/// The text of a copy of the test.
fn copied_text(alloc: Global, litmus: &Litmus) -> Result<Vec<u8>, AllocError>
    ensures { IfOk result (λ text. text.items ≡ litmus_text (record litmus.now { body = with_sites 1 litmus.now.body [] })) }
{
    let copy = insert(alloc, litmus, &[])?;
    let text = print(alloc, &copy)?;
    Ok(text)
}

/// Copies the test in the file of this name to standard output. Whether it did.
fn copy_file(rt: &(impl AllocGlobal + Files + Print), name: &str) -> bool {
    let mut library = DiskLibrary::new(rt);
    let Ok(bytes) = library.fetch(rt.alloc(), name, MOST_BYTES) else {
        return false;
    };
    let Ok(litmus) = read(rt.alloc(), bytes.as_slice()) else {
        return false;
    };
    let Ok(text) = copied_text(rt.alloc(), &litmus) else {
        return false;
    };
    let Ok(text) = str::from_utf8(text.as_slice()) else {
        return false;
    };
    print!(rt; "{text}").is_ok()
}

fn main(rt: HostRuntime) -> ExitCode {
    let Ok(args) = env::args(&rt) else {
        return ExitCode::FAILURE;
    };
    for name in args.skip(1) {
        if !copy_file(&rt, name.as_str()) {
            return ExitCode::FAILURE;
        }
    }
    ExitCode::SUCCESS
}
