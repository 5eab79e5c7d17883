ghost use Rattle.std.specs.Prelude.{◌≡◌, ◌≤◌, ◌^◌, length, map, All};
ghost use Rattle.std.specs.List.{range_with_len};
ghost use Rattle.fer_events.specs.States.{padded, start_state, value_set};
ghost use Rattle.crash_state.specs.Fits.{Fits};

use crate::file_bytes::FileBytes;
use crate::state::State;
use fer_events::{AttrValue, Events};
use fer_list::Seq;
use litmus_syntax::Text;

impl State {
    /// Makes it the state after the setup of the events.
    pub fn reset(&mut self, events: &Events)
        requires { Fits self.old events.now }
        ensures start { self.new ≡ start_state events.now }
        ensures fits { Fits self.new events.now }
    {
        events.keeps_rules();
        let start = events.start();
        self.slots.copy_from_slice(start.slots());
        set_sizes(self.sizes.as_mut_slice(), start.contents());
        set_bytes(self.bytes.as_mut_slice(), start.contents());
        set_values(
            self.attrs.as_mut_slice(),
            start.attrs(),
            start.contents().len(),
        );
        self.seen.fill(false);
    }
}

/// Makes each size that of the content.
fn set_sizes(sizes: &mut [u32], contents: &[Text])
    requires agree { length sizes.old ≡ length contents.now }
    requires fit { All (λ content. length content ≤ 65536) contents.now }
    ensures { sizes.new ≡ map (λ content. length content) contents.now }
{
    for (file, content) in contents.iter().enumerate() {
        sizes[file] = content.len() as u32;
    }
}

/// Makes each file's bytes those of the content.
fn set_bytes(files: &mut [FileBytes], contents: &[Text])
    requires agree { length files.old ≡ length contents.now }
    requires fit { All (λ content. length content ≤ 65536) contents.now }
    ensures { files.new ≡ map padded contents.now }
{
    for (file, content) in contents.iter().enumerate() {
        files[file].fill(content.as_slice());
    }
}

/// Makes each key's values those that the setup gave the files.
fn set_values(keys: &mut [Seq<Option<u32>>], attrs: &[AttrValue], files: usize)
    requires few_keys { length keys.old ≤ 16 }
    requires few_files { files ≤ 32 }
    requires files { All (λ values. length values ≡ files) keys.old }
    ensures { keys.new ≡ map (λ key. map (λ file. value_set attrs.now file key) (range_with_len 0 files)) (range_with_len 0 (length keys.old)) }
{
    for key in 0..keys.len() {
        set_values_of(&mut keys[key], attrs, key as u32);
    }
}

/// Makes the values of the key those that the setup gave the files.
fn set_values_of(values: &mut Seq<Option<u32>>, attrs: &[AttrValue], key: u32)
    requires { length values.old ≤ 32 }
    ensures { values.new ≡ map (λ file. value_set attrs.now file key) (range_with_len 0 (length values.old)) }
{
    for file in 0..values.len() {
        values.set(file, starting_value(attrs, file as u32, key));
    }
}

/// The value that the setup gave the file's key.
fn starting_value(attrs: &[AttrValue], file: u32, key: u32) -> Option<u32>
    ensures { result ≡ value_set attrs.now file key }
{
    attrs
        .iter()
        .find(|attr| attr.file == file && attr.key == key)
        .map(|attr| attr.value)
}
