ghost use Rattle.std.specs.Prelude.{◌≡◌, ℕ, Some, None, bytes_eq, MatchOption, length, ◌≤◌};
ghost use Rattle.std.specs.List.{position};
ghost use Rattle.model_reader.specs.declared.words.Vocabulary.{Vocabulary};
ghost use Rattle.model_reader.specs.declared.words.BaseWord.{BaseWord};
ghost use Rattle.model_reader.specs.declared.words.KindWord.{KindWord};
ghost use Rattle.model_reader.specs.Words.{looked_up, base_words, kind_words, name_of, word_of, bit_of};
ghost use Rattle.model_reader.specs.WordTexts.{base_text, base_expr, kind_text, kind_bit};

use crate::expr::Expr;
use litmus_syntax::Text;

/// Which words an expression is made of.
#[derive(Clone, Copy, Debug)]
pub enum Vocabulary {
    /// Each word is taken, so that an expression is told by its form alone.
    EachWord,
    /// Outside brackets the base words and some names, and each word in brackets.
    KnownNames,
    /// Outside brackets the base words and some names, and the kind words in brackets.
    KnownWords,
}

/// The base words.
#[derive(Clone, Copy, Debug)]
enum BaseWord {
    Po,
    Id,
    Any,
    File,
    Block,
    Dir,
    Name,
    Call,
    Txn,
}

/// The words for kinds of events.
#[derive(Clone, Copy, Debug)]
enum KindWord {
    Write,
    Extend,
    Trunc,
    Attr,
    Link,
    Unlink,
    Fsync,
    FsyncDir,
    Sync,
    Mark,
}

/// The base word that this is.
fn base_word(word: &[u8]) -> Option<BaseWord>
    ensures { MatchOption result ((b : BaseWord) → word.now ≡ base_text b → ⊥) (λ b. word.now ≡ base_text b) }
{
    match word {
        b"po" => Some(BaseWord::Po),
        b"id" => Some(BaseWord::Id),
        b"any" => Some(BaseWord::Any),
        b"file" => Some(BaseWord::File),
        b"block" => Some(BaseWord::Block),
        b"dir" => Some(BaseWord::Dir),
        b"name" => Some(BaseWord::Name),
        b"call" => Some(BaseWord::Call),
        b"txn" => Some(BaseWord::Txn),
        _ => None,
    }
}

/// The kind word that this is.
fn kind_word(word: &[u8]) -> Option<KindWord>
    ensures { MatchOption result ((k : KindWord) → word.now ≡ kind_text k → ⊥) (λ k. word.now ≡ kind_text k) }
{
    match word {
        b"write" => Some(KindWord::Write),
        b"extend" => Some(KindWord::Extend),
        b"trunc" => Some(KindWord::Trunc),
        b"attr" => Some(KindWord::Attr),
        b"link" => Some(KindWord::Link),
        b"unlink" => Some(KindWord::Unlink),
        b"fsync" => Some(KindWord::Fsync),
        b"fsyncdir" => Some(KindWord::FsyncDir),
        b"sync" => Some(KindWord::Sync),
        b"mark" => Some(KindWord::Mark),
        _ => None,
    }
}

impl BaseWord {
    /// What the word is as an expression.
    fn expr(self) -> Expr
        ensures { result ≡ base_expr self }
    {
        match self {
            BaseWord::Po => Expr::Po,
            BaseWord::Id => Expr::Id,
            BaseWord::Any => Expr::Any,
            BaseWord::File => Expr::SameFile,
            BaseWord::Block => Expr::SameBlock,
            BaseWord::Dir => Expr::SameDir,
            BaseWord::Name => Expr::SameName,
            BaseWord::Call => Expr::SameCall,
            BaseWord::Txn => Expr::SameTxn,
        }
    }
}

impl KindWord {
    /// The bit of the kind.
    fn bit(self) -> u16
        ensures { result ≡ kind_bit self }
    {
        match self {
            KindWord::Write => 1,
            KindWord::Extend => 2,
            KindWord::Trunc => 4,
            KindWord::Attr => 8,
            KindWord::Link => 16,
            KindWord::Unlink => 32,
            KindWord::Fsync => 64,
            KindWord::FsyncDir => 128,
            KindWord::Sync => 256,
            KindWord::Mark => 512,
        }
    }
}

/// Whether the word is a base word.
#[tactic(auto, using(crate::proofs::WordTables::base_is, crate::proofs::WordTables::base_isnt))]
pub fn base_of(word: &[u8]) -> Option<Expr>
    ensures { result ≡ looked_up base_words word.now }
{
    match base_word(word) {
        None => None,
        Some(base) => Some(base.expr()),
    }
}

/// The bit of the kind that this word names.
#[tactic(auto, using(crate::proofs::WordTables::kind_is, crate::proofs::WordTables::kind_isnt))]
fn kind_bit_of(word: &[u8]) -> Option<u16>
    ensures { result ≡ looked_up kind_words word.now }
{
    match kind_word(word) {
        None => None,
        Some(kind) => Some(kind.bit()),
    }
}

/// The bit of a word in brackets: that of a kind word, or none where each word is taken.
pub fn bit_of(words: Vocabulary, word: &[u8]) -> Option<u16>
    ensures { result ≡ bit_of words word.now }
{
    match words {
        Vocabulary::EachWord | Vocabulary::KnownNames => Some(0),
        Vocabulary::KnownWords => kind_bit_of(word),
    }
}

/// The place of a name, counted from 0.
fn place_of(names: &[Text], word: &[u8]) -> Option<usize>
    ensures { result ≡ position (bytes_eq word.now) names.now }
{
    names.iter().position(|name| word == name.as_slice())
}

/// What a known word outside brackets is, a base word or a name.
fn known_word(names: &[Text], word: &[u8]) -> Option<Expr>
    requires { length names.now ≤ 256 }
    ensures { result ≡ word_of Vocabulary.KnownNames names.now word.now }
{
    if let Some(base) = base_of(word) {
        return Some(base);
    }
    match place_of(names, word) {
        None => None,
        Some(place) => Some(Expr::Named {
            index: place as u32,
        }),
    }
}

/// What a word outside brackets is: a base word, or a name of these; where each word is taken, it doesn't matter which.
pub fn word_of(words: Vocabulary, names: &[Text], word: &[u8]) -> Option<Expr>
    requires { length names.now ≤ 256 }
    ensures { result ≡ word_of words names.now word.now }
{
    match words {
        Vocabulary::EachWord => Some(Expr::Id),
        Vocabulary::KnownNames | Vocabulary::KnownWords => known_word(names, word),
    }
}
