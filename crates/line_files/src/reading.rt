ghost use Rattle.std.specs.Prelude.{◌≡◌, ◌≢◌, ◌⊎◌, ℕ, ◌≤◌, [], ◌∷◌, ◌++◌, Err, OnOk, IfOk, List, length, All, IsTrue};
ghost use Rattle.text_scan.specs.Lines.{lines_of};
ghost use Rattle.lexeme_reader.specs.declared.reading.Lexeme.{Lexeme};
ghost use Rattle.lexeme_reader.specs.Lexemes.{is_formed};
ghost use Rattle.line_files.specs.declared.fault.SharedFault.{SharedFault};
ghost use Rattle.line_files.specs.declared.fault.LineFault.TheVariants.{Bad};
ghost use Rattle.line_files.specs.declared.fault.FileFault.TheVariants.{Refused};
ghost use Rattle.line_files.specs.Grammars.{Grammar};
ghost use Rattle.line_files.specs.StatedLines.{Stated, stated_in, statements};
ghost use Rattle.line_files.specs.FirstFaults.{IsFirst, IsSound, IsLineFault, IsFirstFault};
ghost use Rattle.line_files.specs.Refusals.{IsRefused};
ghost use Rattle.line_files.specs.TakenLines.{AreTaken, IsTaken};

use crate::fault::{FileFault, LineFault, SharedFault};
use lexeme_reader::{Lexeme, lexemes};
use std::alloc::Global;
use text_scan::{ScanError, first_line};

/// The most bytes of a file.
pub const MOST_BYTES: usize = 65536;

/// What keeps the lines of a file that were taken so far. The ghost members are the type of the statements, their
/// grammar, and what it means that these statements are kept.
pub trait TakeLine {
    /// The kinds of faults.
    type Kind;

    ghost statement: { Type 0 };

    ghost grammar: { Grammar statement Self.Kind };

    ghost keeps: { Self → List (Stated statement) → Type 0 };

    /// The kind of a fault that files of all grammars may have.
    fn shared_kind(fault: SharedFault) -> Self::Kind
        ensures { result ≡ grammar.shared_kind fault };

    /// Takes what the line of this number says, which isn't blank; or answers the kind of its first fault.
    fn take(
        &mut self,
        alloc: Global,
        line: u32,
        lexemes: &[Lexeme],
    ) -> Result<(), LineFault<Self::Kind>>
        requires kept { (stated : List (Stated statement)) × keeps self.old stated }
        requires some { lexemes.now ≢ [] }
        requires formed { All (λ l. IsTrue (is_formed l)) lexemes.now }
        ensures taken { OnOk result ((stated : List (Stated statement)) → keeps self.old stated
            → (s : statement) × (lexemes.now ≡ grammar.lexemes_of s) × IsSound grammar (statements stated) (grammar.lexemes_of s)
            × keeps self.new (stated ++ stated_in line s ∷ [])) }
        ensures fault { (kind : Self.Kind) → result ≡ Err (Bad kind) → (stated : List (Stated statement)) → keeps self.old stated
            → IsFirst (grammar.Has (statements stated) lexemes.now) grammar.kinds kind };
}

/// Takes a line of the file.
fn take_line<T: TakeLine>(
    taker: &mut T,
    alloc: Global,
    number: u32,
    line: &[u8],
) -> Result<(), LineFault<T::Kind>>
    requires { (stated : List (Stated T.statement)) × T.keeps taker.old stated }
    ensures taken { OnOk result ((stated : List (Stated T.statement)) → T.keeps taker.old stated
        → IsTaken T.grammar (T.keeps taker.new) stated number line.now) }
    ensures fault { (kind : T.Kind) → result ≡ Err (Bad kind) → (stated : List (Stated T.statement)) → T.keeps taker.old stated
        → IsLineFault T.grammar (statements stated) line.now kind }
{
    let said = match lexemes(alloc, line) {
        Ok(said) => said,
        Err(ScanError::BadByte) => return Err(LineFault::Bad(T::shared_kind(SharedFault::BadByte))),
        Err(ScanError::BadToken) => return Err(LineFault::Bad(T::shared_kind(
            SharedFault::BadToken,
        ))),
        Err(ScanError::OutOfMemory) => return Err(LineFault::OutOfMemory),
    };
    if said.is_empty() {
        return Ok(());
    }
    taker.take(alloc, number, said.as_slice())
}

/// The fault of a file, of which this line has that fault.
fn fault_in<K>(line: u32, fault: LineFault<K>) -> FileFault<K>
    ensures { (at : ℕ) (kind : K) → result ≡ Refused at kind → (at ≡ line) × (fault ≡ Bad kind) }
{
    match fault {
        LineFault::Bad(kind) => FileFault::Refused { line, kind },
        LineFault::OutOfMemory => FileFault::OutOfMemory,
    }
}

/// Takes all lines of a file, and answers how many there are. Where one is bad, the answer is the number of the first bad
/// line, counted from 1, and the kind of its fault; bytes that are too many are refused at line 0.
pub fn take_lines<T: TakeLine>(
    taker: &mut T,
    alloc: Global,
    bytes: &[u8],
) -> Result<u32, FileFault<T::Kind>>
    requires { T.keeps taker.old [] }
    ensures taken { OnOk result (AreTaken T.grammar (T.keeps taker.new) (lines_of bytes.now)) }
    ensures counted { IfOk result (λ count. count ≡ length (lines_of bytes.now)) }
    ensures few_bytes { OnOk result (length bytes.now ≤ 65536) }
    ensures few_lines { IfOk result (λ count. count ≤ length bytes.now) }
    ensures refused { (line : ℕ) (kind : T.Kind) → result ≡ Err (Refused line kind) → IsRefused T.grammar bytes.now line kind }
{
    if bytes.len() > MOST_BYTES {
        return Err(FileFault::Refused {
            line: 0,
            kind: T::shared_kind(SharedFault::TooLong),
        });
    }
    let mut count = 0;
    let mut rest = bytes;
    while let Some((line, behind)) = first_line(rest) {
        count += 1;
        if let Err(fault) = take_line(taker, alloc, count, line) {
            return Err(fault_in(count, fault));
        }
        rest = behind;
    }
    Ok(count)
}
