ghost use Rattle.std.specs.Prelude.{◌≡◌, MatchOption};
ghost use Rattle.command_line.specs.declared.verbs.Verb.{Verb};
ghost use Rattle.command_line.specs.Verbs.{verb_text};

/// Which command it is.
#[derive(Clone, Copy, Debug)]
pub enum Verb {
    Check,
    Repair,
    Verify,
    Replay,
    Events,
    Show,
    Models,
    Work,
    Explain,
    Hint,
    Trim,
    Flush,
}

impl Verb {
    /// The command that begins with this word.
    pub fn named(word: &str) -> Option<Verb>
        ensures { MatchOption result ((verb : Verb) → word.now ≡ verb_text verb → ⊥) (λ verb. word.now ≡ verb_text verb) }
    {
        match word {
            "check" => Some(Verb::Check),
            "repair" => Some(Verb::Repair),
            "verify" => Some(Verb::Verify),
            "replay" => Some(Verb::Replay),
            "events" => Some(Verb::Events),
            "show" => Some(Verb::Show),
            "models" => Some(Verb::Models),
            "work" => Some(Verb::Work),
            "explain" => Some(Verb::Explain),
            "hint" => Some(Verb::Hint),
            "trim" => Some(Verb::Trim),
            "flush" => Some(Verb::Flush),
            _ => None,
        }
    }
}
