ghost use Rattle.std.specs.Prelude.{◌≡◌, false, ◌<◌, ◌≤◌, ◌+◌, ◌-◌, ◌++◌, ◌∷◌, [], length, take, drop, slice_set, ◌^◌, IfSome, OnOk, IfOk};
ghost use Rattle.call_events.specs.Found.{is_dir, file_of, content_of};
ghost use Rattle.call_events.specs.Changes.{noted, with_slot, with_names, with_file, value_place, with_attr, changed};
ghost use Rattle.call_events.specs.Small.{IsSmall, CanTake};
ghost use Rattle.litmus_syntax.specs.declared.call.Call.TheVariants.{Rename};

use crate::files::Files;
use crate::finding::{number_in, slot_place};
use crate::making::are_one;
use fer_events::AttrValue;
use litmus_syntax::{Call, Path, Text, copy_path};
use name_tables::Numbered;
use std::alloc::{AllocError, Global};

/// Puts a text behind a table that hasn't it yet.
fn note(alloc: Global, table: &mut Numbered<u8>, text: &Text) -> Result<(), AllocError>
    ensures { OnOk result (table.new ≡ noted table.old text.now) }
{
    let text = Vec::from_slice(alloc, text.as_slice())?;
    table.note(text)?;
    Ok(())
}

/// Gives a new directory the next number.
fn add_dir(alloc: Global, files: &mut Files, path: &Path) -> Result<(), AllocError>
    requires { is_dir files.old path.now ≡ false }
    ensures { OnOk result (files.new ≡ record files.old { dirs = files.old.dirs ++ path.now ∷ [] }) }
{
    let path = copy_path(alloc, path.as_slice())?;
    files.dirs.note(path.into_vec())?;
    Ok(())
}

/// Gives a path a slot where it is a name that has none yet. The slot holds no file.
pub fn note_slot(alloc: Global, files: &mut Files, path: &Path) -> Result<(), AllocError>
    requires { length files.old.dirs ≤ 16 }
    ensures { OnOk result (files.new ≡ with_slot files.old path.now) }
{
    let Some((dir, name)) = files.entry_of(path) else {
        return Ok(());
    };
    if slot_place(&files.slots, dir, name).is_some() {
        return Ok(());
    }
    files.slots.note(alloc, dir, name.as_slice())?;
    files.held.push(None)?;
    Ok(())
}

/// Gives numbers to the names that a call uses for the first time, and to the file that it creates.
pub fn note_names(alloc: Global, files: &mut Files, call: &Call) -> Result<(), AllocError>
    requires { IsSmall files.old }
    ensures { OnOk result (files.new ≡ with_names files.old call.now) }
{
    match call {
        Call::Create { path } => {
            note_slot(alloc, files, path)?;
            files.contents.add(alloc)?;
        }
        Call::Link { to, .. } | Call::Rename { to, .. } => note_slot(alloc, files, to)?,
        Call::Attr { key, .. } => note(alloc, &mut files.keys, key)?,
        Call::Mark { word } => note(alloc, &mut files.words, word)?,
        _ => {}
    }
    Ok(())
}

/// Lets a path name the file, or nothing.
fn set_file(files: &mut Files, path: &Path, file: Option<u32>)
    requires { IsSmall files.old }
    ensures { files.new ≡ with_file files.old path.now file }
{
    if let Some(slot) = files.slot_of(path) {
        files.held.set(slot as usize, file);
    }
}

/// The place of the value of a file's key.
fn value_place(attrs: &[AttrValue], file: u32, key: u32) -> Option<usize>
    ensures place { result ≡ value_place attrs.now file key }
    ensures within { IfSome result (λ p. p < length attrs.now) }
{
    attrs
        .iter()
        .position(|attr| attr.file == file && attr.key == key)
}

/// Gives a file's key a value.
fn set_value(
    files: &mut Files,
    file: Option<u32>,
    key: Option<u32>,
    value: u32,
) -> Result<(), AllocError>
    ensures { OnOk result (files.new ≡ with_attr files.old file key value) }
{
    let (Some(file), Some(key)) = (file, key) else {
        return Ok(());
    };
    let attr = AttrValue { file, key, value };
    match value_place(files.attrs.as_slice(), file, key) {
        None => files.attrs.push(attr)?,
        Some(place) => files.attrs.set(place, attr),
    }
    Ok(())
}

/// Moves a name, unless both names are names of one file.
fn rename(files: &mut Files, from: &Path, to: &Path)
    requires { IsSmall files.old }
    ensures { files.new ≡ changed files.old (Rename from.now to.now) }
{
    if are_one(files, from, to) {
        return;
    }
    let file = files.file_of(from);
    set_file(files, to, file);
    set_file(files, from, None);
}

/// Changes the files as the call says, the names that it uses having their numbers.
pub fn change(alloc: Global, files: &mut Files, call: &Call) -> Result<(), AllocError>
    requires small { IsSmall files.old }
    requires room { CanTake files.old call.now }
    ensures { OnOk result (files.new ≡ changed files.old call.now) }
{
    match call {
        Call::Mkdir { path } => add_dir(alloc, files, path)?,
        Call::Create { path } => {
            let newest = files.contents.len() as u32 - 1;
            set_file(files, path, Some(newest));
        }
        Call::Write { path, at, text } => {
            let file = files.file_of(path);
            let at = *at as usize;
            files.contents.overwrite(file, at, text.as_slice())?;
        }
        Call::Append { path, text } => {
            let file = files.file_of(path);
            let size = files.content_of(file).len();
            files.contents.overwrite(file, size, text.as_slice())?;
        }
        Call::Truncate { path, size } => {
            let file = files.file_of(path);
            files.contents.resize(file, *size as usize)?;
        }
        Call::Link { from, to } => {
            let file = files.file_of(from);
            set_file(files, to, file);
        }
        Call::Unlink { path } => set_file(files, path, None),
        Call::Rename { from, to } => rename(files, from, to),
        Call::Attr { path, key, value } => {
            let file = files.file_of(path);
            let key = number_in(&files.keys, key);
            set_value(files, file, key, *value)?;
        }
        Call::Fsync { .. }
        | Call::FsyncDir { .. }
        | Call::Sync
        | Call::Mark { .. }
        | Call::Begin
        | Call::Commit => {}
    }
    Ok(())
}
