ghost use Rattle.std.specs.Prelude.{◌≡◌, ◌⊎◌, ℕ, ◌+◌, ◌<◌, ◌≤◌, ◌∷◌, ◌++◌, [], Bool, true, false, List, length, All, OnOk, IsTrue, MatchBool, MatchOption, if◌then◌else◌};
ghost use Rattle.std.specs.List.{Contains};
ghost use Rattle.litmus_syntax.specs.declared.pred.Pred.{Pred};
ghost use Rattle.litmus_syntax.specs.CallKinds.{is_sync, is_setup_call, is_body_call};
ghost use Rattle.litmus_syntax.specs.Transactions.{open_behind, suits};
ghost use Rattle.lexeme_reader.specs.declared.reading.Lexeme.{Lexeme};
ghost use Rattle.lexeme_reader.specs.Lexemes.{is_formed};
ghost use Rattle.predicate_reader.specs.Counts.{IsShort};
ghost use Rattle.predicate_reader.specs.Predicates.{AreInRange, IsPredicate};
ghost use Rattle.litmus_reader.specs.Statements.{Statement, Question, statement_lexemes};
ghost use Rattle.litmus_reader.specs.Versions.{version_named};
ghost use Rattle.litmus_reader.specs.Faults.{pairs};
ghost use Rattle.litmus_reader.specs.Read.{statement_of};
ghost use Rattle.line_files.specs.StatedLines.{stated_in, statements};
ghost use Rattle.line_files.specs.Refusals.{IsUnended};
ghost use Rattle.litmus_reader.specs.LitmusText.{shared_kind, litmus_grammar};
ghost use Rattle.litmus_reader.specs.StatedLines.{Stated};
ghost use Rattle.litmus_reader.specs.WholeFiles.{IsTest};
ghost use Rattle.litmus_reader.specs.Drafts.{step_in, IsExpected, IsDraft};
ghost use Rattle.litmus_reader.specs.TakenLines.{IsTaken, IsFirstKind};

use crate::call_kinds::{is_body_call, is_open_behind, is_setup_call, is_sync, suits};
use crate::fault::LitmusKind;
use crate::stages::Stage;
use crate::statements::{Said, said_by};
use fer_list::Seq;
use lexeme_reader::Lexeme;
use line_files::{LineFault, SharedFault, TakeLine};
use litmus_syntax::{
    Call, Litmus, MOST_BLOCK, MOST_BODY_CALLS, MOST_SETUP_CALLS, Pred, Step, Text, USUAL_BLOCK,
    copy_text,
};
use predicate_reader::{are_in_range, is_short, kept_limits, predicate};
use std::alloc::{AllocError, Global};

/// The question of a file, with its line.
#[derive(Debug, Drop)]
pub struct Asked {
    line: u32,
    want: bool,
    pred: Pred,
}

/// What the lines so far say.
#[derive(Debug, Drop)]
pub struct Draft {
    stage: Stage,
    name: Text,
    version: u32,
    block: u32,
    sector: u32,
    setup: Seq<Step>,
    body: Seq<Step>,
    /// How many calls of the body aren't syncs.
    changes: usize,
    /// Whether a transaction of the body is open.
    in_transaction: bool,
    question: Option<Asked>,
}

impl Draft {
    /// Nothing is read yet.
    pub fn new(alloc: Global) -> Draft
        ensures { IsDraft [] result }
    {
        Draft {
            stage: Stage::Start,
            name: Seq::new(alloc),
            version: 1,
            block: USUAL_BLOCK,
            sector: USUAL_BLOCK,
            setup: Seq::new(alloc),
            body: Seq::new(alloc),
            changes: 0,
            in_transaction: false,
            question: None,
        }
    }

    /// Notes the name of the test and the version that the head names.
    fn set_head(
        &mut self,
        alloc: Global,
        name: &Text,
        version: Option<u32>,
    ) -> Result<(), LineFault<LitmusKind>>
        ensures set { OnOk result (self.new ≡ record self.old { name = name.now; version = version_named version }) }
        ensures no_fault { (kind : LitmusKind) → result ≡ Err (LineFault.Bad kind) → ⊥ }
    {
        self.name = copy_text(alloc, name.as_slice())?;
        self.version = version.unwrap_or(1);
        Ok(())
    }

    /// Notes the size of a block, which is that of a sector too where no line names one.
    fn set_block(&mut self, size: u32) -> Result<(), LineFault<LitmusKind>>
        ensures set { OnOk result ((1 ≤ size) × (size ≤ 65536) × (self.new ≡ record self.old { block = size; sector = size })) }
        ensures fault { (kind : LitmusKind) → result ≡ Err (LineFault.Bad kind)
            → (kind ≡ LitmusKind.NumberRange) × ((size ≡ 0) ⊎ (65536 < size)) }
    {
        if size == 0 {
            return Err(LineFault::Bad(LitmusKind::NumberRange));
        }
        if size > MOST_BLOCK {
            return Err(LineFault::Bad(LitmusKind::NumberRange));
        }
        self.block = size;
        self.sector = size;
        Ok(())
    }

    /// Notes the size of a sector.
    fn set_sector(&mut self, size: u32) -> Result<(), LineFault<LitmusKind>>
        ensures set { OnOk result ((1 ≤ size) × (size ≤ self.old.block) × (self.new ≡ record self.old { sector = size })) }
        ensures fault { (kind : LitmusKind) → result ≡ Err (LineFault.Bad kind)
            → (kind ≡ LitmusKind.NumberRange) × ((size ≡ 0) ⊎ (self.old.block < size)) }
    {
        if size == 0 {
            return Err(LineFault::Bad(LitmusKind::NumberRange));
        }
        if size > self.block {
            return Err(LineFault::Bad(LitmusKind::NumberRange));
        }
        self.sector = size;
        Ok(())
    }

    /// Notes a call of the setup.
    fn push_setup(&mut self, line: u32, call: Call) -> Result<(), LineFault<LitmusKind>>
        ensures pushed { OnOk result ((is_setup_call call ≡ true) × (length self.old.setup < 256)
            × (self.new ≡ record self.old { setup = self.old.setup ++ step_in line call ∷ [] })) }
        ensures fault { (kind : LitmusKind) → result ≡ Err (LineFault.Bad kind)
            → ((kind ≡ LitmusKind.NotHere) × (is_setup_call call ≡ false))
            ⊎ ((kind ≡ LitmusKind.TooLong) × (is_setup_call call ≡ true) × (256 ≤ length self.old.setup)) }
    {
        if !is_setup_call(&call) {
            return Err(LineFault::Bad(LitmusKind::NotHere));
        }
        if self.setup.len() >= MOST_SETUP_CALLS {
            return Err(LineFault::Bad(LitmusKind::TooLong));
        }
        self.setup.push(Step { line, call })?;
        Ok(())
    }

    /// Notes a call of the body.
    fn push_body(&mut self, line: u32, call: Call) -> Result<(), LineFault<LitmusKind>>
        ensures pushed { OnOk result ((is_body_call call ≡ true) × (suits self.old.in_transaction call ≡ true)
            × (is_sync call ≡ false → self.old.changes < 128)
            × (self.new ≡ record self.old {
              body = self.old.body ++ step_in line call ∷ [];
              changes = (if is_sync call then self.old.changes else self.old.changes + 1);
              in_transaction = open_behind self.old.in_transaction call;
            })) }
        ensures fault { (kind : LitmusKind) → result ≡ Err (LineFault.Bad kind)
            → ((kind ≡ LitmusKind.NotHere) × ((is_body_call call ≡ false) ⊎ (suits self.old.in_transaction call ≡ false)))
            ⊎ ((kind ≡ LitmusKind.TooLong) × (is_body_call call ≡ true) × (suits self.old.in_transaction call ≡ true)
            × (is_sync call ≡ false) × (128 ≤ self.old.changes)) }
    {
        if !is_body_call(&call) {
            return Err(LineFault::Bad(LitmusKind::NotHere));
        }
        if !suits(self.in_transaction, &call) {
            return Err(LineFault::Bad(LitmusKind::NotHere));
        }
        let inside = is_open_behind(self.in_transaction, &call);
        if is_sync(&call) {
            self.body.push(Step { line, call })?;
            self.in_transaction = inside;
            return Ok(());
        }
        if self.changes >= MOST_BODY_CALLS {
            return Err(LineFault::Bad(LitmusKind::TooLong));
        }
        self.body.push(Step { line, call })?;
        self.changes += 1;
        self.in_transaction = inside;
        Ok(())
    }

    /// Notes the question.
    fn ask(
        &mut self,
        alloc: Global,
        line: u32,
        want: bool,
        asked: &[Lexeme],
    ) -> Result<(), LineFault<LitmusKind>>
        requires { AreInRange asked.now }
        ensures asked { OnOk result (IsShort asked.now × ((pred : Pred) × IsPredicate asked.now pred
            × (self.new ≡ record self.old { question = Some (record { line = line; want = want; pred = pred }) }))) }
        ensures fault { (kind : LitmusKind) → result ≡ Err (LineFault.Bad kind)
            → ((kind ≡ LitmusKind.TooLong) × (IsShort asked.now → ⊥))
            ⊎ ((kind ≡ LitmusKind.BadPredicate) × IsShort asked.now × ((p : Pred) → IsPredicate asked.now p → ⊥)) }
    {
        if !is_short(asked) {
            return Err(LineFault::Bad(LitmusKind::TooLong));
        }
        let Some(pred) = predicate(alloc, asked)? else {
            return Err(LineFault::Bad(LitmusKind::BadPredicate));
        };
        self.question = Some(Asked { line, want, pred });
        Ok(())
    }

    /// Notes what a line states, at the stage that it leads to.
    fn state(
        &mut self,
        alloc: Global,
        line: u32,
        stage: Stage,
        said: Said,
    ) -> Result<(), LineFault<LitmusKind>>
        requires { IsExpected self.old stage (statement_of said) }
        ensures taken { OnOk result ((stated : List Stated) → IsDraft stated self.old → IsTaken stated line (statement_of said.entry) self.new) }
        ensures fault { (kind : LitmusKind) → result ≡ Err (LineFault.Bad kind)
            → (stated : List Stated) → IsDraft stated self.old → IsFirstKind (statements stated) (statement_of said.entry) kind }
    {
        self.stage = stage;
        match said {
            Said::Head(name, version) => self.set_head(alloc, name, version),
            Said::Block(size) => self.set_block(size),
            Said::Sector(size) => self.set_sector(size),
            Said::Setup => Ok(()),
            Said::Body => Ok(()),
            Said::Called(call) => match stage {
                Stage::InBody => self.push_body(line, call),
                _ => self.push_setup(line, call),
            },
            Said::Question(want, asked) => self.ask(alloc, line, want, asked),
        }
    }

    /// Whether the line would begin a transaction in another, commit one that isn't open, or ask while one is open.
    fn is_unpaired(&self, said: &Said) -> bool
        ensures { MatchBool result
            ((self.now.stage ≡ Stage.InBody) × (pairs self.now.in_transaction (statement_of said.now) ≡ false))
            (self.now.stage ≡ Stage.InBody → pairs self.now.in_transaction (statement_of said.now) ≡ true) }
    {
        match self.stage {
            Stage::InBody => !said.pairs(self.in_transaction),
            _ => false,
        }
    }

    /// The test that the lines make, if they end with a question.
    pub fn finish(self) -> Option<Litmus>
        requires { (stated : List Stated) × IsDraft stated self }
        ensures { (stated : List Stated) → IsDraft stated self → MatchOption result
            (IsUnended litmus_grammar stated)
            (λ litmus. IsTest stated litmus) }
    {
        let Draft {
            stage: _,
            name,
            version,
            block,
            sector,
            setup,
            body,
            changes: _,
            in_transaction: _,
            question,
        } = self;
        let Some(Asked { line, want, pred }) = question else {
            return None;
        };
        kept_limits();
        Some(Litmus::new(name, block, setup, body, want, pred, line, version, sector))
    }
}

impl TakeLine for Draft {
    type Kind = LitmusKind;

    ghost statement = { Statement };

    ghost grammar = { litmus_grammar };

    ghost keeps = { λ d stated. IsDraft stated d };

    fn shared_kind(fault: SharedFault) -> LitmusKind {
        match fault {
            SharedFault::BadByte => LitmusKind::BadByte,
            SharedFault::BadToken => LitmusKind::BadToken,
            SharedFault::EndsEarly => LitmusKind::EndsEarly,
            SharedFault::TooLong => LitmusKind::TooLong,
        }
    }

    fn take(
        &mut self,
        alloc: Global,
        line: u32,
        lexemes: &[Lexeme],
    ) -> Result<(), LineFault<LitmusKind>> {
        let Some(said) = said_by(alloc, lexemes)? else {
            return Err(LineFault::Bad(LitmusKind::BadLine));
        };
        if !said.is_of_version(self.version) {
            return Err(LineFault::Bad(LitmusKind::BadLine));
        }
        let Some(stage) = self.stage.behind(said.form()) else {
            return Err(LineFault::Bad(LitmusKind::OutOfOrder));
        };
        if self.is_unpaired(&said) {
            return Err(LineFault::Bad(LitmusKind::OutOfOrder));
        }
        if !are_in_range(lexemes) {
            return Err(LineFault::Bad(LitmusKind::NumberRange));
        }
        self.state(alloc, line, stage, said)
    }
}
