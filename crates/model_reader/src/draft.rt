ghost use Rattle.std.specs.Prelude.{◌≡◌, ◌≢◌, ◌⊎◌, ℕ, ◌<◌, ◌≤◌, [], ◌∷◌, ◌++◌, Err, Some, None, false, List, length, codes, IfOk, OnOk, MatchBool, MatchOption};
ghost use Rattle.line_files.specs.declared.fault.LineFault.TheVariants.{Bad};
ghost use Rattle.line_files.specs.StatedLines.{Stated, stated_in, statements};
ghost use Rattle.lexeme_reader.specs.declared.reading.Lexeme.{Lexeme};
ghost use Rattle.model_reader.specs.declared.expr.Expr.{Expr};
ghost use Rattle.model_reader.specs.declared.words.Vocabulary.{Vocabulary};
ghost use Rattle.model_reader.specs.Words.{word_of};
ghost use Rattle.model_reader.specs.Statements.{Statement, statement_lexemes, version_named};
ghost use Rattle.model_reader.specs.Faults.{names_for, Begin};
ghost use Rattle.line_files.specs.FirstFaults.{AreSound};
ghost use Rattle.line_files.specs.Refusals.{IsUnended};
ghost use Rattle.model_reader.specs.ModelText.{model_grammar, shared_kind, IsModel};
ghost use Rattle.model_reader.specs.Drafts.{statement_of, IsValue, IsValueFault, IsDraft, IsFirstKind, IsTaken, is_barred, HasRoom};

use crate::expr::Expr;
use crate::fault::ModelKind;
use crate::model::{Definition, Model};
use crate::statements::{Said, said_by};
use crate::values::value_of;
use crate::words::{Vocabulary, word_of};
use fer_list::Seq;
use lexeme_reader::{Lexeme, behind_word, is_deep};
use line_files::{LineFault, SharedFault, TakeLine};
use litmus_syntax::{Text, copy_text};
use std::alloc::Global;

/// The most definitions, and the most kept expressions.
const MOST_RULES: usize = 256;

/// The most tokens of a line.
const MOST_TOKENS: usize = 512;

/// How far the lines of a file have come.
#[derive(Clone, Copy, Debug, PartialEq, Eq)]
pub enum Stage {
    BeforeHead,
    /// Behind the head, where definitions and kept expressions stand.
    Rules,
    BehindEnd,
}

/// What the lines so far say.
#[derive(Debug, Drop)]
pub struct Draft {
    stage: Stage,
    name: Text,
    version: u32,
    /// The names of the definitions.
    names: Seq<Text>,
    lets: Seq<Definition>,
    keeps: Seq<Expr>,
}

impl Draft {
    /// Nothing is read yet.
    pub fn new(alloc: Global) -> Draft
        ensures { IsDraft [] result }
    {
        Draft {
            stage: Stage::BeforeHead,
            name: Seq::new(alloc),
            version: 1,
            names: Seq::new(alloc),
            lets: Seq::new(alloc),
            keeps: Seq::new(alloc),
        }
    }

    /// Whether the tokens are too many, or begin a definition or a kept expression too many.
    pub fn is_one_too_many(&self, lexemes: &[Lexeme]) -> bool
        ensures { MatchBool result
            ((512 < length lexemes.now) ⊎ (Begin (codes "let") lexemes.now × (256 ≤ length self.now.names))
            ⊎ (Begin (codes "keep") lexemes.now × (256 ≤ length self.now.keeps)))
            ((length lexemes.now ≤ 512) × (Begin (codes "let") lexemes.now → length self.now.names < 256)
            × (Begin (codes "keep") lexemes.now → length self.now.keeps < 256)) }
    {
        if lexemes.len() > MOST_TOKENS {
            return true;
        }
        if let Some(_rest) = behind_word(lexemes, b"let") {
            return self.names.len() >= MOST_RULES;
        }
        if let Some(_rest) = behind_word(lexemes, b"keep") {
            return self.keeps.len() >= MOST_RULES;
        }
        false
    }

    /// Whether the line may not stand here, or not in a file of this version.
    pub fn is_barred(&self, said: &Said) -> bool
        ensures { result ≡ is_barred self.now.stage self.now.version (statement_of said.now) }
    {
        match (self.stage, said) {
            (Stage::BeforeHead, Said::Head(_, None)) => false,
            (Stage::BeforeHead, Said::Head(_, Some(named))) => !(*named == 1 || *named == 2),
            (Stage::Rules, Said::Let(true, ..)) => self.version != 2,
            (Stage::Rules, Said::Let(false, ..) | Said::Keep(_) | Said::End) => false,
            _ => true,
        }
    }

    /// Whether the name is a base word, or was defined before.
    fn is_taken(&self, name: &Text) -> bool
        requires { length self.now.names ≤ 256 }
        ensures { MatchBool result
            ((e : Expr) × (word_of Vocabulary.KnownNames self.now.names name.now ≡ Some e))
            (word_of Vocabulary.KnownNames self.now.names name.now ≡ None) }
    {
        match word_of(
            Vocabulary::KnownNames,
            self.names.as_slice(),
            name.as_slice(),
        ) {
            None => false,
            Some(_found) => true,
        }
    }

    /// Notes the name of the model and the version that the head names.
    fn set_head(
        &mut self,
        alloc: Global,
        name: &Text,
        version: Option<u32>,
    ) -> Result<(), LineFault<ModelKind>>
        ensures set { OnOk result (self.new ≡ record self.old { stage = Stage.Rules; name = name.now; version = version_named version }) }
        ensures no_fault { (kind : ModelKind) → result ≡ Err (Bad kind) → ⊥ }
    {
        self.name = copy_text(alloc, name.as_slice())?;
        self.version = version.unwrap_or(1);
        self.stage = Stage::Rules;
        Ok(())
    }

    /// The expression of a definition, whose name is then among the names.
    fn defined(
        &mut self,
        alloc: Global,
        recursive: bool,
        name: &Text,
        value: &[Lexeme],
    ) -> Result<Expr, LineFault<ModelKind>>
        requires { length self.old.names < 256 }
        ensures read { IfOk result (λ e. IsValue (names_for self.old.names recursive name.now) value.now e) }
        ensures named { IfOk result (λ e. self.new ≡ record self.old { names = self.old.names ++ name.now ∷ [] }) }
        ensures fault { (kind : ModelKind) → result ≡ Err (Bad kind) → IsValueFault (names_for self.old.names recursive name.now) value.now kind }
    {
        let own = copy_text(alloc, name.as_slice())?;
        if recursive {
            self.names.push(own)?;
            return value_of(alloc, self.names.as_slice(), value);
        }
        match value_of(alloc, self.names.as_slice(), value) {
            Err(fault) => Err(fault),
            Ok(found) => {
                self.names.push(own)?;
                Ok(found)
            }
        }
    }

    /// Notes a definition.
    fn define(
        &mut self,
        alloc: Global,
        recursive: bool,
        name: &Text,
        value: &[Lexeme],
    ) -> Result<(), LineFault<ModelKind>>
        requires names { length self.old.names < 256 }
        requires keeps { length self.old.keeps ≤ 256 }
        ensures defined { OnOk result ((e : Expr) × IsValue (names_for self.old.names recursive name.now) value.now e
            × (word_of Vocabulary.KnownNames self.old.names name.now ≡ None)
            × (self.new ≡ record self.old {
              names = self.old.names ++ name.now ∷ [];
              lets = self.old.lets ++ record { value = e; before = length self.old.keeps; recursive = recursive } ∷ [];
            })) }
        ensures fault { (kind : ModelKind) → result ≡ Err (Bad kind)
            → IsValueFault (names_for self.old.names recursive name.now) value.now kind
            ⊎ ((kind ≡ ModelKind.NameTaken) × ((e : Expr) × IsValue (names_for self.old.names recursive name.now) value.now e)
            × ((e : Expr) × (word_of Vocabulary.KnownNames self.old.names name.now ≡ Some e))) }
    {
        let taken = self.is_taken(name);
        let value = match self.defined(alloc, recursive, name, value) {
            Err(fault) => return Err(fault),
            Ok(value) => value,
        };
        if taken {
            return Err(LineFault::Bad(ModelKind::NameTaken));
        }
        let before = self.keeps.len() as u32;
        self.lets.push(Definition {
            value,
            before,
            recursive,
        })?;
        Ok(())
    }

    /// Notes a kept expression.
    fn keep(&mut self, alloc: Global, value: &[Lexeme]) -> Result<(), LineFault<ModelKind>>
        requires { length self.old.names ≤ 256 }
        ensures kept { OnOk result ((e : Expr) × IsValue self.old.names value.now e × (self.new ≡ record self.old { keeps = self.old.keeps ++ e ∷ [] })) }
        ensures fault { (kind : ModelKind) → result ≡ Err (Bad kind) → IsValueFault self.old.names value.now kind }
    {
        match value_of(alloc, self.names.as_slice(), value) {
            Err(fault) => Err(fault),
            Ok(found) => {
                self.keeps.push(found)?;
                Ok(())
            }
        }
    }

    /// Notes what a line states that may stand here.
    fn state(&mut self, alloc: Global, said: Said) -> Result<(), LineFault<ModelKind>>
        requires placed { is_barred self.old.stage self.old.version (statement_of said) ≡ false }
        requires room { HasRoom self.old (statement_of said) }
        requires few_names { length self.old.names ≤ 256 }
        requires few_keeps { length self.old.keeps ≤ 256 }
        ensures taken { OnOk result ((line : ℕ) (stated : List (Stated Statement)) → IsDraft stated self.old
            → IsTaken stated line (statement_of said.entry) self.new) }
        ensures fault { (kind : ModelKind) → result ≡ Err (Bad kind) → (stated : List (Stated Statement)) → IsDraft stated self.old
            → IsFirstKind (statements stated) (statement_of said.entry) kind }
    {
        match said {
            Said::Head(name, version) => self.set_head(alloc, name, version),
            Said::Let(recursive, name, value) => self.define(alloc, recursive, name, value),
            Said::Keep(value) => self.keep(alloc, value),
            Said::End => {
                self.stage = Stage::BehindEnd;
                Ok(())
            }
        }
    }

    /// The model that the lines make, if one ends the file.
    pub fn finish(self) -> Option<Model>
        ensures { (stated : List (Stated Statement)) → IsDraft stated self → AreSound model_grammar stated → MatchOption result
            (IsUnended model_grammar stated)
            (λ model. IsModel stated model) }
    {
        let Draft {
            stage,
            name,
            version,
            names: _,
            lets,
            keeps,
        } = self;
        match stage {
            Stage::BehindEnd => Some(Model {
                name,
                lets,
                keeps,
                version,
            }),
            _ => None,
        }
    }
}

impl TakeLine for Draft {
    type Kind = ModelKind;

    ghost statement = { Statement };

    ghost grammar = { model_grammar };

    ghost keeps = { λ d stated. IsDraft stated d };

    fn shared_kind(fault: SharedFault) -> ModelKind {
        match fault {
            SharedFault::BadByte => ModelKind::BadByte,
            SharedFault::BadToken => ModelKind::BadToken,
            SharedFault::EndsEarly => ModelKind::EndsEarly,
            SharedFault::TooLong => ModelKind::TooLong,
        }
    }

    fn take(
        &mut self,
        alloc: Global,
        _line: u32,
        lexemes: &[Lexeme],
    ) -> Result<(), LineFault<ModelKind>> {
        if is_deep(lexemes) {
            return Err(LineFault::Bad(ModelKind::TooDeep));
        }
        if self.is_one_too_many(lexemes) {
            return Err(LineFault::Bad(ModelKind::TooMany));
        }
        let Some(said) = said_by(lexemes) else {
            return Err(LineFault::Bad(ModelKind::BadLine));
        };
        if self.is_barred(&said) {
            return Err(LineFault::Bad(ModelKind::BadLine));
        }
        self.state(alloc, said)
    }
}
