ghost use Rattle.std.specs.Prelude.{◌≡◌, ◌<◌, ◌≤◌, length, slice_get, unwrap_or, [], IfOk, IfSome};
ghost use Rattle.litmus_syntax.specs.Texts.{path_text};
ghost use Rattle.fer_events.specs.Paths.{slot_path};
ghost use Rattle.sync_sites.specs.SiteLists.{is_lesser, lesser, least, names_of, name_texts};

use fer_events::{Events, SlotName};
use fer_list::Seq;
use litmus_syntax::{Path, Text, copy_path, copy_text, push_path};
use std::alloc::{AllocError, Global};

/// The path that a slot names.
pub fn slot_path(alloc: Global, dirs: &[Path], slot: &SlotName) -> Result<Path, AllocError>
    requires { slot.now.dir < length dirs.now }
    ensures { IfOk result (λ path. path ≡ slot_path dirs.now slot.now) }
{
    let mut path = copy_path(alloc, dirs[slot.dir as usize].as_slice())?;
    path.push(copy_text(alloc, slot.name.as_slice())?)?;
    Ok(path)
}

/// The text of the path that a slot names.
fn name_text(alloc: Global, dirs: &[Path], slot: &SlotName) -> Result<Text, AllocError>
    requires { slot.now.dir < length dirs.now }
    ensures { IfOk result (λ text. text ≡ path_text (slot_path dirs.now slot.now)) }
{
    let path = slot_path(alloc, dirs, slot)?;
    let mut text = Vec::new(alloc);
    push_path(&mut text, &path)?;
    Ok(Seq::from_vec(text))
}

/// The text of each slot's path.
pub fn name_texts(alloc: Global, events: &Events) -> Result<Seq<Text>, AllocError>
    ensures { IfOk result (λ texts. texts ≡ name_texts events.now) }
{
    events.keeps_rules();
    let mut texts = Seq::new(alloc);
    for slot in events.slots() {
        texts.push(name_text(alloc, events.dirs(), slot)?)?;
    }
    Ok(texts)
}

/// Whether the one slot's path has the lesser text.
fn is_lesser(texts: &[Text], a: usize, b: usize) -> bool
    requires there { (a < length texts.now) × (b < length texts.now) }
    ensures { result ≡ is_lesser texts.now a b }
{
    texts[a].as_slice().cmp(texts[b].as_slice()).is_lt()
}

/// The lesser of a slot and the least of others.
fn lesser(texts: &[Text], least: Option<usize>, slot: usize) -> Option<usize>
    requires slot { slot < length texts.now }
    requires least { IfSome least (λ s. s < length texts.now) }
    ensures lesser { result ≡ lesser texts.now least slot }
    ensures there { IfSome result (λ s. s < length texts.now) }
{
    match least {
        None => Some(slot),
        Some(least) => {
            if is_lesser(texts, slot, least) {
                Some(slot)
            } else {
                Some(least)
            }
        }
    }
}

/// The slot that holds the file and whose path has the least text.
pub fn least_name(texts: &[Text], held: &[Option<u32>], file: u32) -> Option<usize>
    requires { length held.now ≤ length texts.now }
    ensures least { result ≡ least texts.now (names_of held.now file) }
    ensures there { IfSome result (λ s. s < length texts.now) }
{
    let mut least = None;
    for slot in 0..held.len() {
        if held[slot] == Some(file) {
            least = lesser(texts, least, slot);
        }
    }
    least
}
