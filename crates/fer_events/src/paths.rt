ghost use Rattle.std.specs.Prelude.{◌≡◌, ◌<◌, length, option_map, IfSome};
ghost use Rattle.fer_events.specs.Paths.{split_last, directory_number, entry_number};

use crate::tables::SlotName;
use litmus_syntax::{Path, Text};

/// A path as its parent and its last component; None exactly where it is the root.
#[tactic(auto, using(crate::proofs::Splitting::split_at_last))]
pub fn parent_and_name(path: &[Text]) -> Option<(&[Text], &Text)>
    ensures { option_map (λ p. (p.0.now, p.1.now)) result ≡ split_last path.now }
{
    match path.split_last() {
        None => None,
        Some((name, parent)) => Some((parent, name)),
    }
}

/// The place of the directory that has the path.
pub fn directory_place(dirs: &[Path], path: &[Text]) -> Option<usize>
    ensures place { result ≡ directory_number dirs.now path.now }
    ensures within { IfSome result (λ p. p < length dirs.now) }
{
    dirs.iter().position(|dir| dir.as_slice() == path)
}

/// The place of the slot that is this name in the directory.
pub fn entry_place(slots: &[SlotName], dir: usize, name: &Text) -> Option<usize>
    ensures place { result ≡ entry_number slots.now (record { dir = dir; name = name.now }) }
    ensures within { IfSome result (λ p. p < length slots.now) }
{
    slots
        .iter()
        .position(|slot| slot.dir as usize == dir && slot.name == *name)
}
