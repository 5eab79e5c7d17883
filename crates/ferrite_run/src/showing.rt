ghost use Rattle.std.specs.Prelude.{◌≡◌, ℕ, ◌≤◌, List};
ghost use Rattle.fer_outside.specs.Causes.{Rose};
ghost use Rattle.ferrite_run.specs.Reading.{OnLitmus};
ghost use Rattle.ferrite_run.specs.Done.{Tells};
ghost use Rattle.ferrite_run.specs.Show.{IsShown};
ghost use Rattle.ferrite_run.specs.Saying.{Replies};

use crate::reading::litmus_of;
use crate::saying::{Said, Stop, replied};
use command_line::FileName;
use fer_outside::Library;
use litmus_syntax::Litmus;
use report::Outcome;
use std::alloc::Global;

/// The test in its canonical text, in the second version of the grammar, which says the sizes of all pieces.
fn canonical(alloc: Global, litmus: &mut Litmus) -> Result<Said, Stop>
    ensures shown { Replies (Tells (IsShown litmus.old)) result }
{
    litmus.upgrade();
    replied(alloc, &Outcome::Shown { litmus })
}

/// The litmus file in its canonical text.
pub fn show<L: Library>(alloc: Global, litmus: &FileName, library: &mut L) -> Result<Said, Stop>
    ensures answered { Replies (OnLitmus (L.held library.old) (λ other. Rose (L.faults library.old other) (L.faults library.new other)) litmus.now (λ test. Tells (IsShown test))) result }
    ensures stays { L.held library.new ≡ L.held library.old }
    ensures never_falls { (other : List ℕ) → L.faults library.old other ≤ L.faults library.new other }
{
    let mut test = litmus_of(alloc, litmus, library)?;
    canonical(alloc, &mut test)
}
