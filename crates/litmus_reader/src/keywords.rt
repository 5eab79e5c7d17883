ghost use Rattle.std.specs.Prelude.{◌≡◌, MatchOption};
ghost use Rattle.litmus_reader.specs.declared.keywords.Keyword.{Keyword};
ghost use Rattle.litmus_reader.specs.Keywords.{keyword_text};

/// The words that a line may begin with.
#[derive(Clone, Copy, Debug, PartialEq, Eq)]
pub enum Keyword {
    Litmus,
    Block,
    Sector,
    Setup,
    Body,
    Exists,
    Always,
    Mkdir,
    Create,
    Write,
    Append,
    Truncate,
    Link,
    Unlink,
    Rename,
    Attr,
    Fsync,
    FsyncDir,
    Sync,
    Mark,
    Begin,
    Commit,
}

/// The keyword that this word is.
pub fn keyword_of(word: &[u8]) -> Option<Keyword>
    ensures { MatchOption result ((k : Keyword) → word.now ≡ keyword_text k → ⊥) (λ k. word.now ≡ keyword_text k) }
{
    match word {
        b"litmus" => Some(Keyword::Litmus),
        b"block" => Some(Keyword::Block),
        b"sector" => Some(Keyword::Sector),
        b"setup" => Some(Keyword::Setup),
        b"body" => Some(Keyword::Body),
        b"exists" => Some(Keyword::Exists),
        b"always" => Some(Keyword::Always),
        b"mkdir" => Some(Keyword::Mkdir),
        b"create" => Some(Keyword::Create),
        b"write" => Some(Keyword::Write),
        b"append" => Some(Keyword::Append),
        b"truncate" => Some(Keyword::Truncate),
        b"link" => Some(Keyword::Link),
        b"unlink" => Some(Keyword::Unlink),
        b"rename" => Some(Keyword::Rename),
        b"attr" => Some(Keyword::Attr),
        b"fsync" => Some(Keyword::Fsync),
        b"fsyncdir" => Some(Keyword::FsyncDir),
        b"sync" => Some(Keyword::Sync),
        b"mark" => Some(Keyword::Mark),
        b"begin" => Some(Keyword::Begin),
        b"commit" => Some(Keyword::Commit),
        _ => None,
    }
}
