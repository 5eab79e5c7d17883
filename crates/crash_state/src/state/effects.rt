ghost use Rattle.std.specs.Prelude.{◌≡◌, ◌+◌, ◌-◌, ◌<◌, ◌≤◌, length, slice_get, All, IfSome, true};
ghost use Rattle.fer_events.specs.States.{after_event, after_option, at_place, written, cleared};
ghost use Rattle.crash_state.specs.Fits.{Fits};
ghost use Rattle.crash_state.specs.Whole.{HasRoom};

use crate::state::State;
use fer_events::{Effect, Event, Events};

impl State {
    /// Applies the effect of the event of this number, counted from 1.
    pub fn apply(&mut self, events: &Events, event: u32)
        requires fits { Fits self.old events.now }
        requires there { (1 ≤ event) × (event ≤ length events.now.events) }
        ensures after { self.new ≡ after_option self.old (slice_get events.now.events (event - 1)) }
        ensures fits { Fits self.new events.now }
    {
        events.keeps_rules();
        let event = &events.events()[event as usize - 1];
        self.take_effect(event);
    }

    /// Applies the effect of an event.
    fn take_effect(&mut self, event: &Event)
        requires { HasRoom self.old event.now }
        ensures { self.new ≡ after_event self.old event.now }
    {
        match &event.effect {
            Effect::Bytes { at, text } => self.write(event.file, *at, text.as_slice()),
            Effect::Grow {
                at,
                text,
                size: end,
            } => {
                self.write(event.file, *at, text.as_slice());
                self.set_size(event.file, *end);
            }
            Effect::Cut { size } => {
                self.clear_from(event.file, *size);
                self.set_size(event.file, *size);
            }
            Effect::SetAttr { key, value } => self.set_value(event.file, *key, *value),
            Effect::PutName => self.put_file(event.slot, event.file),
            Effect::ClearName => self.put_file(event.slot, None),
            Effect::See { word } => self.see(*word),
            Effect::Nothing => {}
        }
    }

    /// Writes the text at a place of the file.
    fn write(&mut self, file: Option<u32>, at: u32, text: &[u8])
        requires there { IfSome file (λ f. f < length self.old.bytes) }
        requires room { at + length text.now ≤ 65536 }
        ensures { self.new ≡ record self.old { bytes = at_place file (written at text.now) self.old.bytes } }
    {
        if let Some(file) = file {
            self.bytes[file as usize].write(at, text);
        }
    }

    /// Makes every byte of the file from the size on zero.
    fn clear_from(&mut self, file: Option<u32>, size: u32)
        requires there { IfSome file (λ f. f < length self.old.bytes) }
        requires room { size ≤ 65536 }
        ensures { self.new ≡ record self.old { bytes = at_place file (cleared size) self.old.bytes } }
    {
        if let Some(file) = file {
            self.bytes[file as usize].clear_from(size);
        }
    }

    /// Gives the file a size.
    fn set_size(&mut self, file: Option<u32>, size: u32)
        requires there { IfSome file (λ f. f < length self.old.sizes) }
        requires room { size ≤ 65536 }
        ensures { self.new ≡ record self.old { sizes = at_place file (λ _. size) self.old.sizes } }
    {
        if let Some(file) = file {
            self.sizes[file as usize] = size;
        }
    }

    /// Gives the file's key a value.
    fn set_value(&mut self, file: Option<u32>, key: u32, value: u32)
        requires there { IfSome file (λ f. All (λ values. f < length values) self.old.attrs) }
        requires key { key < length self.old.attrs }
        ensures { self.new ≡ record self.old { attrs = at_place (Some key) (at_place file (λ _. Some value)) self.old.attrs } }
    {
        if let Some(file) = file {
            self.attrs[key as usize].set(file as usize, Some(value));
        }
    }

    /// Puts the file into the slot, or nothing.
    fn put_file(&mut self, slot: Option<u32>, file: Option<u32>)
        requires there { IfSome slot (λ n. n < length self.old.slots) }
        requires file { IfSome file (λ f. f < length self.old.sizes) }
        ensures { self.new ≡ record self.old { slots = at_place slot (λ _. file) self.old.slots } }
    {
        if let Some(slot) = slot {
            self.slots[slot as usize] = file;
        }
    }

    /// Notes that the word was seen.
    fn see(&mut self, word: u32)
        requires { word < length self.old.seen }
        ensures { self.new ≡ record self.old { seen = at_place (Some word) (λ _. true) self.old.seen } }
    {
        self.seen[word as usize] = true;
    }
}
