ghost use Rattle.std.specs.Prelude.{◌≡◌, MatchOption};
ghost use Rattle.model_library.specs.declared.texts.ShippedModel.{ShippedModel};
ghost use Rattle.model_library.specs.ShippedModels.{shipped_text, shipped_word};

/// A model that comes with Ferrite.
#[derive(Clone, Copy, Debug)]
pub enum ShippedModel {
    /// All events reach the disk in program order.
    Sequential,
    /// What a journaling file system like ext4 with ordered data keeps.
    Ext4like,
    /// Only a `sync` orders events.
    Loose,
}

/// The model of this name, or None exactly where the word names none of them.
pub fn shipped(word: &str) -> Option<ShippedModel>
    ensures named { MatchOption result ((m : ShippedModel) → word.now ≡ shipped_word m → ⊥) (λ m. word.now ≡ shipped_word m) }
{
    match word {
        "sequential" => Some(ShippedModel::Sequential),
        "ext4like" => Some(ShippedModel::Ext4like),
        "loose" => Some(ShippedModel::Loose),
        _ => None,
    }
}

impl ShippedModel {
    /// The model's file.
    pub fn text(self) -> &'static str
        ensures written { result.now ≡ shipped_text self }
    {
        match self {
            ShippedModel::Sequential => "model sequential\nkeep po\nend\n",
            ShippedModel::Ext4like => {
                "model ext4like\nlet names = [link unlink]\nlet meta = [extend trunc attr]\nkeep po & block\nkeep meta ; (po & file) ; meta\nkeep [write] ; (po & file) ; [extend trunc]\nkeep names ; (po & dir) ; names\nkeep [write extend trunc attr] ; (po & file) ; [fsync]\nkeep names ; (po & dir) ; [fsyncdir]\nkeep po ; [sync]\nkeep [fsync fsyncdir sync mark] ; po\nend\n"
            }
            ShippedModel::Loose => "model loose\nkeep po ; [sync]\nkeep [sync] ; po\nend\n",
        }
    }
}
