//! Tests that a seed makes.

ghost use Rattle.std.specs.Prelude.{◌≡◌, ◌≤◌, ◌++◌, length, IfOk, OnOk};
ghost use Rattle.litmus_syntax.specs.declared.pred.Pred.TheVariants.{Or};
ghost use Rattle.model_library.specs.Generated.{begun, words_of, numbered, path_of, generated_write, generated_change, generated_call, generated_calls, generated_file, generated_setup, lost_before, generated_pred, generated};

use fer_list::Seq;
use litmus_syntax::{Call, Litmus, Path, Pred, Step, Text, copy_text, push_number};
use rand_core::SeedableRng;
use rand_core::utils::NextWord;
use rand_pcg::Lcg64Xsh32;
use sqlite_items::Boxed;
use std::alloc::{AllocError, Global};

// The first words of a seed.
#[tactic(auto, using(crate::proofs::Words::words_more, crate::proofs::Words::after_more), unfolding(crate::specs::Drawing::after, crate::specs::Generated::words_of))]
fn draw(alloc: Global, seed: u64, count: u32) -> Result<Vec<u32>, AllocError>
    ensures { IfOk result (λ words. words.items ≡ words_of (begun seed) count) }
{
    let mut source = Lcg64Xsh32::seed_from_u64(seed);
    let mut words = Vec::new(alloc);
    for _ in 0..count {
        words.push(source.next_word())?;
    }
    Ok(words)
}

// A letter with a number behind it.
fn numbered(alloc: Global, letter: u8, number: u32) -> Result<Text, AllocError>
    ensures { IfOk result (λ text. text ≡ numbered letter number) }
{
    let mut bytes = Vec::new(alloc);
    bytes.push(letter)?;
    push_number(&mut bytes, number)?;
    Ok(Seq::from_vec(bytes))
}

// The path of a name in the root.
fn path_of(alloc: Global, name: Text) -> Result<Path, AllocError>
    ensures { IfOk result (λ path. path ≡ path_of name) }
{
    let mut path = Seq::new(alloc);
    path.push(name)?;
    Ok(path)
}

// The path of a name that is given by its bytes.
fn path_to(alloc: Global, name: &[u8]) -> Result<Path, AllocError>
    ensures { IfOk result (λ path. path ≡ path_of name.now) }
{
    let name = copy_text(alloc, name)?;
    let path = path_of(alloc, name)?;
    Ok(path)
}

// The path of a letter with a number behind it.
fn numbered_path(alloc: Global, letter: u8, number: u32) -> Result<Path, AllocError>
    ensures { IfOk result (λ path. path ≡ path_of (numbered letter number)) }
{
    let name = numbered(alloc, letter, number)?;
    let path = path_of(alloc, name)?;
    Ok(path)
}

// A write of the number's last digit, at one of the first eight places.
fn write(alloc: Global, name: &[u8], number: u32, word: u32) -> Result<Call, AllocError>
    ensures { IfOk result (λ call. call ≡ generated_write name.now number word) }
{
    let digit = b'0' + (number % 10) as u8;
    Ok(Call::Write {
        path: path_to(alloc, name)?,
        at: word / 5 % 8,
        text: copy_text(alloc, &[digit])?,
    })
}

// What the word says.
#[tactic(auto, unfolding(crate::specs::Generated::generated_change))]
fn change(alloc: Global, number: u32, word: u32) -> Result<Call, AllocError>
    ensures { IfOk result (λ call. call ≡ generated_change number word) }
{
    let call = match word % 5 {
        0 => write(alloc, b"a", number, word)?,
        1 => write(alloc, b"b", number, word)?,
        2 => Call::Attr {
            path: path_to(alloc, b"a")?,
            key: copy_text(alloc, b"k")?,
            value: number,
        },
        3 => Call::Truncate {
            path: path_to(alloc, b"b")?,
            size: 8,
        },
        _ => Call::Link {
            from: path_to(alloc, b"a")?,
            to: numbered_path(alloc, b'l', number)?,
        },
    };
    Ok(call)
}

// The call of this number, from 1.
#[tactic(auto, unfolding(crate::specs::Generated::generated_call))]
fn make_call(alloc: Global, number: u32, word: u32) -> Result<Call, AllocError>
    ensures { IfOk result (λ call. call ≡ generated_call number word) }
{
    let call = match number % 8 {
        0 => Call::Mark {
            word: numbered(alloc, b'm', number)?,
        },
        1 => Call::Create {
            path: numbered_path(alloc, b'n', number)?,
        },
        _ => change(alloc, number, word)?,
    };
    Ok(call)
}

// The calls of the body, one for each word.
fn make_body(alloc: Global, words: &[u32]) -> Result<Seq<Step>, AllocError>
    requires { length words.now ≤ 32 }
    ensures { IfOk result (λ body. body ≡ generated_calls 1 words.now) }
{
    let mut body = Seq::new(alloc);
    for place in 0..words.len() {
        let number = place as u32 + 1;
        let call = make_call(alloc, number, words[place])?;
        body.push(Step {
            line: 8 + number,
            call,
        })?;
    }
    Ok(body)
}

// Appends the calls that make a file of eight zeros, in this line and the next.
fn push_file(alloc: Global, setup: &mut Seq<Step>, name: &[u8], line: u32) -> Result<(), AllocError>
    requires { line ≤ 6 }
    ensures { OnOk result (setup.new ≡ setup.old ++ generated_file name.now line) }
{
    setup.push(Step {
        line,
        call: Call::Create {
            path: path_to(alloc, name)?,
        },
    })?;
    setup.push(Step {
        line: line + 1,
        call: Call::Write {
            path: path_to(alloc, name)?,
            at: 0,
            text: copy_text(alloc, b"00000000")?,
        },
    })?;
    Ok(())
}

// The calls of the setup.
fn make_setup(alloc: Global) -> Result<Seq<Step>, AllocError>
    ensures { IfOk result (λ setup. setup ≡ generated_setup) }
{
    let mut setup = Seq::new(alloc);
    push_file(alloc, &mut setup, b"a", 4)?;
    push_file(alloc, &mut setup, b"b", 6)?;
    Ok(setup)
}

// The predicate in a box.
#[inline(never)]
fn boxed(alloc: Global, pred: Pred) -> Result<Boxed<Pred>, AllocError>
    ensures { IfOk result (λ boxed. boxed ≡ pred) }
{
    let pred = Boxed::new(alloc, pred)?;
    Ok(pred)
}

// The mark of this number was seen, and the file that was made seven calls before it isn't there.
fn lost_before(alloc: Global, number: u32) -> Result<Boxed<Pred>, AllocError>
    requires { 7 ≤ number }
    ensures { IfOk result (λ pred. pred ≡ lost_before number) }
{
    let word = numbered(alloc, b'm', number)?;
    let left = boxed(alloc, Pred::Seen { word })?;
    let path = numbered_path(alloc, b'n', number - 7)?;
    let inner = boxed(alloc, Pred::Exists { path })?;
    let right = boxed(alloc, Pred::Not { inner })?;
    let pred = boxed(alloc, Pred::And { left, right })?;
    Ok(pred)
}

// The one or the other.
#[inline(never)]
fn either(alloc: Global, left: Boxed<Pred>, right: Boxed<Pred>) -> Result<Boxed<Pred>, AllocError>
    ensures { IfOk result (λ pred. pred ≡ Or left right) }
{
    let pred = Boxed::new(alloc, Pred::Or { left, right })?;
    Ok(pred)
}

// The question over this many marks.
fn make_pred(alloc: Global, marks: u32) -> Result<Boxed<Pred>, AllocError>
    requires { marks ≤ 4 }
    ensures { IfOk result (λ pred. pred ≡ generated_pred marks) }
{
    if marks == 0 {
        let pred = boxed(alloc, Pred::False)?;
        return Ok(pred);
    }
    let mut pred = lost_before(alloc, 8)?;
    for mark in 1..marks {
        let next = lost_before(alloc, 8 * (mark + 1))?;
        pred = either(alloc, pred, next)?;
    }
    Ok(pred)
}

/// The litmus test `work` of a seed: as many calls as are asked for, from 1 to 32, and a question over its marks. One seed
/// makes one test everywhere.
pub fn make(alloc: Global, seed: u64, calls: u32) -> Result<Litmus, AllocError>
    requires some { 1 ≤ calls }
    requires few { calls ≤ 32 }
    ensures { IfOk result (λ litmus. litmus ≡ generated seed calls) }
{
    let words = draw(alloc, seed, calls)?;
    let name = copy_text(alloc, b"work")?;
    let setup = make_setup(alloc)?;
    let body = make_body(alloc, words.as_slice())?;
    let pred = make_pred(alloc, calls / 8)?;
    let pred = pred.into_inner();
    Ok(Litmus::new(name, 4, setup, body, true, pred, 9 + calls, 1, 4))
}
