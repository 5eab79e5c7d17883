ghost use Rattle.std.specs.Prelude.{◌≡◌, List, ◌∷◌, codes, IfOk, MatchOption};
ghost use Rattle.litmus_syntax.specs.declared.pred.Pred.{Pred};
ghost use Rattle.litmus_syntax.specs.declared.pred.Pred.TheVariants as pred;
ghost use Rattle.lexeme_reader.specs.declared.reading.Lexeme.{Lexeme};
ghost use Rattle.lexeme_reader.specs.declared.reading.Lexeme.TheVariants as says;
ghost use Rattle.predicate_reader.specs.Counts.{IsShort};
ghost use Rattle.litmus_syntax.specs.declared.pred.Binding.TheVariants.{Disjunction, Conjunction, Operand};
ghost use Rattle.predicate_reader.specs.Predicates.{IsPredicate};
ghost use Rattle.predicate_reader.specs.AtomFronts.{BeginsAtom};
ghost use Rattle.predicate_reader.specs.Fronts.{Begins, Expression};

use crate::atoms::atom_at;
use crate::tokens::behind_sign;
use lexeme_reader::{Lexeme, behind_word};
use litmus_syntax::Pred;
use sqlite_items::Boxed;
use std::alloc::{AllocError, Global};

/// What stands behind a `(` up to its `)`, and the tokens behind that.
#[cycle(expressions)]
fn enclosed_at(
    alloc: Global,
    lexemes: &[Lexeme],
) -> Result<Option<(Boxed<Pred>, &[Lexeme])>, AllocError>
    ensures { IfOk result (λ o. MatchOption o
        ((p : Pred) (rest : List Lexeme) → Begins (Expression Operand) (says.Sign 40 ∷ lexemes.now) p rest → ⊥)
        (λ found. Begins (Expression Operand) (says.Sign 40 ∷ lexemes.now) found.0 found.1.now)) }
{
    let Some((pred, behind)) = disjunction_at(alloc, lexemes)? else {
        return Ok(None);
    };
    match behind_sign(behind, b')') {
        None => Ok(None),
        Some(rest) => Ok(Some((pred, rest))),
    }
}

/// The negation of what stands behind a `not`, and the tokens behind that.
#[cycle(expressions)]
fn negated_at(
    alloc: Global,
    lexemes: &[Lexeme],
) -> Result<Option<(Boxed<Pred>, &[Lexeme])>, AllocError>
    ensures { IfOk result (λ o. MatchOption o
        ((p : Pred) (rest : List Lexeme) → Begins (Expression Operand) (says.Word (codes "not") ∷ lexemes.now) p rest → ⊥)
        (λ found. Begins (Expression Operand) (says.Word (codes "not") ∷ lexemes.now) found.0 found.1.now)) }
{
    let Some((inner, rest)) = operand_at(alloc, lexemes)? else {
        return Ok(None);
    };
    let pred = Boxed::new(alloc, Pred::Not { inner })?;
    Ok(Some((pred, rest)))
}

/// The atom at the front, and the tokens behind it.
fn boxed_atom_at(
    alloc: Global,
    lexemes: &[Lexeme],
) -> Result<Option<(Boxed<Pred>, &[Lexeme])>, AllocError>
    ensures { IfOk result (λ o. MatchOption o
        ((p : Pred) (rest : List Lexeme) → BeginsAtom lexemes.now p rest → ⊥)
        (λ found. BeginsAtom lexemes.now found.0 found.1.now)) }
{
    let Some((pred, rest)) = atom_at(alloc, lexemes)? else {
        return Ok(None);
    };
    let pred = Boxed::new(alloc, pred)?;
    Ok(Some((pred, rest)))
}

/// The negation, the parentheses or the atom at the front, and the tokens behind it.
#[cycle(expressions)]
fn operand_at(
    alloc: Global,
    lexemes: &[Lexeme],
) -> Result<Option<(Boxed<Pred>, &[Lexeme])>, AllocError>
    ensures { IfOk result (λ o. MatchOption o
        ((p : Pred) (rest : List Lexeme) → Begins (Expression Operand) lexemes.now p rest → ⊥)
        (λ found. Begins (Expression Operand) lexemes.now found.0 found.1.now)) }
{
    if let Some(behind) = behind_sign(lexemes, b'(') {
        let found = enclosed_at(alloc, behind)?;
        return Ok(found);
    }
    if let Some(behind) = behind_word(lexemes, b"not") {
        let found = negated_at(alloc, behind)?;
        return Ok(found);
    }
    let found = boxed_atom_at(alloc, lexemes)?;
    Ok(found)
}

/// The predicate that both hold.
fn both(alloc: Global, left: Boxed<Pred>, right: Boxed<Pred>) -> Result<Boxed<Pred>, AllocError>
    ensures { IfOk result (λ p. p ≡ pred.And left right) }
{
    let pred = Boxed::new(alloc, Pred::And { left, right })?;
    Ok(pred)
}

/// All at the front that `and` joins, and the tokens behind it.
#[cycle(expressions)]
fn conjunction_at(
    alloc: Global,
    lexemes: &[Lexeme],
) -> Result<Option<(Boxed<Pred>, &[Lexeme])>, AllocError>
    ensures { IfOk result (λ o. MatchOption o
        ((p : Pred) (rest : List Lexeme) → Begins (Expression Conjunction) lexemes.now p rest → ⊥)
        (λ found. Begins (Expression Conjunction) lexemes.now found.0 found.1.now)) }
{
    let Some((mut left, mut rest)) = operand_at(alloc, lexemes)? else {
        return Ok(None);
    };
    while let Some(behind) = behind_word(rest, b"and") {
        let Some((right, after)) = operand_at(alloc, behind)? else {
            return Ok(None);
        };
        left = both(alloc, left, right)?;
        rest = after;
    }
    Ok(Some((left, rest)))
}

/// The predicate that one of the two holds.
fn either(alloc: Global, left: Boxed<Pred>, right: Boxed<Pred>) -> Result<Boxed<Pred>, AllocError>
    ensures { IfOk result (λ p. p ≡ pred.Or left right) }
{
    let pred = Boxed::new(alloc, Pred::Or { left, right })?;
    Ok(pred)
}

/// All at the front that `and` and `or` join, and the tokens behind it.
#[cycle(expressions)]
fn disjunction_at(
    alloc: Global,
    lexemes: &[Lexeme],
) -> Result<Option<(Boxed<Pred>, &[Lexeme])>, AllocError>
    ensures { IfOk result (λ o. MatchOption o
        ((p : Pred) (rest : List Lexeme) → Begins (Expression Disjunction) lexemes.now p rest → ⊥)
        (λ found. Begins (Expression Disjunction) lexemes.now found.0 found.1.now)) }
{
    let Some((mut left, mut rest)) = conjunction_at(alloc, lexemes)? else {
        return Ok(None);
    };
    while let Some(behind) = behind_word(rest, b"or") {
        let Some((right, after)) = conjunction_at(alloc, behind)? else {
            return Ok(None);
        };
        left = either(alloc, left, right)?;
        rest = after;
    }
    Ok(Some((left, rest)))
}

/// The predicate that the tokens are, and nothing where they are none. Two calls nest for each `not` and four for each
/// parenthesis that is open, of which a question that isn't too long has at most 256 and 64; operands of `and` and `or`
/// are read in loops. So no file makes the stack deep. An error comes only where memory runs out.
pub fn predicate(alloc: Global, lexemes: &[Lexeme]) -> Result<Option<Pred>, AllocError>
    requires { IsShort lexemes.now }
    ensures { IfOk result (λ o. MatchOption o
        ((p : Pred) → IsPredicate lexemes.now p → ⊥)
        (λ p. IsPredicate lexemes.now p)) }
{
    let Some((pred, behind)) = disjunction_at(alloc, lexemes)? else {
        return Ok(None);
    };
    if !behind.is_empty() {
        return Ok(None);
    }
    Ok(Some(pred.into_inner()))
}
