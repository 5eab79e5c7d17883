ghost use Rattle.std.specs.Prelude.{◌≡◌};
ghost use Rattle.litmus_reader.specs.Stages.{stage_behind};

use crate::statements::Form;

/// How far the lines of a file have come.
#[derive(Clone, Copy, Debug, PartialEq, Eq)]
pub enum Stage {
    /// Before the head.
    Start,
    /// Directly behind the head.
    BehindHead,
    /// Directly behind the block line.
    BehindBlock,
    /// Directly behind the sector line.
    BehindSector,
    InSetup,
    InBody,
    /// Behind the question.
    End,
}

impl Stage {
    /// The stage behind a line of this form, if one may stand here.
    pub fn behind(self, form: Form) -> Option<Stage>
        ensures { result ≡ stage_behind self form }
    {
        match (self, form) {
            (Stage::Start, Form::Head) => Some(Stage::BehindHead),
            (Stage::BehindHead, Form::Block) => Some(Stage::BehindBlock),
            (Stage::BehindHead | Stage::BehindBlock, Form::Sector) => Some(Stage::BehindSector),
            (Stage::BehindHead | Stage::BehindBlock | Stage::BehindSector, Form::Setup) => {
                Some(Stage::InSetup)
            }
            (
                Stage::BehindHead | Stage::BehindBlock | Stage::BehindSector | Stage::InSetup,
                Form::Body,
            ) => Some(Stage::InBody),
            (Stage::InSetup, Form::Call) => Some(Stage::InSetup),
            (Stage::InBody, Form::Call) => Some(Stage::InBody),
            (Stage::InBody, Form::Question) => Some(Stage::End),
            _ => None,
        }
    }
}
