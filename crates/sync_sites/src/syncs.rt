ghost use Rattle.std.specs.Prelude.{◌≡◌, ◌<◌, ◌≤◌, ◌++◌, [], length, if◌then◌else◌, IfOk, OnOk};
ghost use Rattle.std.specs.List.{flat_map, list_any, range_with_len};
ghost use Rattle.fer_events.specs.Tables.{file_count};
ghost use Rattle.sync_sites.specs.SiteLists.{touches_file, touches_dir, held_behind, name_texts, file_sync, dir_sync, single_syncs, syncs_behind};

use crate::held::held_behind;
use crate::names::{least_name, slot_path};
use fer_events::{Event, Events};
use fer_list::Seq;
use litmus_syntax::{Call, SiteKind, Text, copy_path};
use std::alloc::{AllocError, Global};

/// Whether an event of the first calls carries the file.
fn touches_file(events: &Events, number: u32, file: u32) -> bool
    ensures { result ≡ touches_file number events.now file }
{
    events
        .events()
        .iter()
        .any(|event| event.call <= number && event.file == Some(file))
}

/// Whether an event of the first calls carries the directory.
fn touches_dir(events: &Events, number: u32, dir: u32) -> bool
    ensures { result ≡ touches_dir number events.now dir }
{
    events
        .events()
        .iter()
        .any(|event| event.call <= number && event.dir == Some(dir))
}

/// Appends the sync of a file behind the first calls, if it has one.
fn push_file_sync(
    alloc: Global,
    syncs: &mut Seq<Call>,
    events: &Events,
    texts: &[Text],
    held: &[Option<u32>],
    number: u32,
    file: u32,
) -> Result<(), AllocError>
    requires texts { texts.now ≡ name_texts events.now }
    requires held { held.now ≡ held_behind number events.now }
    ensures { OnOk result (syncs.new ≡ syncs.old ++ file_sync number events.now file) }
{
    events.keeps_rules();
    if !touches_file(events, number, file) {
        return Ok(());
    }
    if let Some(slot) = least_name(texts, held, file) {
        let path = slot_path(alloc, events.dirs(), &events.slots()[slot])?;
        syncs.push(Call::Fsync { path })?;
    }
    Ok(())
}

/// Appends the syncs of the files behind the first calls.
fn push_file_syncs(
    alloc: Global,
    syncs: &mut Seq<Call>,
    events: &Events,
    texts: &[Text],
    number: u32,
) -> Result<(), AllocError>
    requires texts { texts.now ≡ name_texts events.now }
    ensures { OnOk result (syncs.new ≡ syncs.old ++ flat_map (file_sync number events.now) (range_with_len 0 (file_count events.now))) }
{
    events.keeps_rules();
    let held = held_behind(alloc, events.start().slots(), events.events(), number)?;
    let count = events.start().contents().len() as u32;
    for file in 0..count {
        push_file_sync(alloc, syncs, events, texts, held.as_slice(), number, file)?;
    }
    Ok(())
}

/// Appends the sync of a directory behind the first calls, if it has one.
fn push_dir_sync(
    alloc: Global,
    syncs: &mut Seq<Call>,
    events: &Events,
    number: u32,
    dir: u32,
) -> Result<(), AllocError>
    requires { dir < length events.now.dirs }
    ensures { OnOk result (syncs.new ≡ syncs.old ++ dir_sync number events.now dir) }
{
    if touches_dir(events, number, dir) {
        let path = copy_path(alloc, events.dirs()[dir as usize].as_slice())?;
        syncs.push(Call::FsyncDir { path })?;
    }
    Ok(())
}

/// Appends the syncs of the directories behind the first calls.
fn push_dir_syncs(
    alloc: Global,
    syncs: &mut Seq<Call>,
    events: &Events,
    number: u32,
) -> Result<(), AllocError>
    ensures { OnOk result (syncs.new ≡ syncs.old ++ flat_map (dir_sync number events.now) (range_with_len 0 (length events.now.dirs))) }
{
    events.keeps_rules();
    let count = events.dirs().len() as u32;
    for dir in 0..count {
        push_dir_sync(alloc, syncs, events, number, dir)?;
    }
    Ok(())
}

/// The syncs of files, then those of directories, behind the first calls.
fn single_syncs(
    alloc: Global,
    events: &Events,
    texts: &[Text],
    number: u32,
) -> Result<Seq<Call>, AllocError>
    requires texts { texts.now ≡ name_texts events.now }
    ensures { IfOk result (λ syncs. syncs ≡ single_syncs number events.now) }
{
    let mut syncs = Seq::new(alloc);
    push_file_syncs(alloc, &mut syncs, events, texts, number)?;
    push_dir_syncs(alloc, &mut syncs, events, number)?;
    Ok(syncs)
}

/// The syncs of a kind behind the first calls, as many as the number says.
pub fn syncs_behind(
    alloc: Global,
    kind: SiteKind,
    events: &Events,
    texts: &[Text],
    number: u32,
) -> Result<Seq<Call>, AllocError>
    requires texts { texts.now ≡ name_texts events.now }
    ensures { IfOk result (λ syncs. syncs ≡ syncs_behind kind number events.now) }
{
    let mut syncs = match kind {
        SiteKind::Fsync | SiteKind::All => single_syncs(alloc, events, texts, number)?,
        SiteKind::Sync => Seq::new(alloc),
    };
    if let SiteKind::Sync | SiteKind::All = kind {
        syncs.push(Call::Sync)?;
    }
    Ok(syncs)
}
