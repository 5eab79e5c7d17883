ghost use Rattle.std.specs.Prelude.{◌≡◌, IfOk};

use std::alloc::{AllocError, Global};
use std::marker::Model;

/// The name under which a library holds a file, as a word of the command line gives it.
#[derive(Debug, Drop)]
pub struct FileName {
    name: String,
}

impl Model for FileName {
    ghost use Rattle.std.specs.Prelude.{List, ℕ, string_bytes};

    ghost Value = { List ℕ };

    ghost view = { λ n. string_bytes n.name };
}

impl FileName {
    /// The name that is this word.
    pub fn new(alloc: Global, word: &str) -> Result<FileName, AllocError>
        ensures copied { IfOk result (λ name. name ≡ word.now) }
    {
        let name = String::from_str(alloc, word)?;
        Ok(FileName { name })
    }

    /// The name as a text.
    pub fn as_str(&self) -> &str
        ensures lent { result.now ≡ self.now }
    {
        self.name.as_str()
    }
}
