ghost use Rattle.std.specs.Prelude.{◌≡◌, IfOk};
ghost use Rattle.model_reader.specs.declared.operator.Operator.{Operator};
ghost use Rattle.model_reader.specs.Machine.{nothing, joined_left, settled, waits};

use crate::expr::Expr;
use crate::operator::{Operator, joined};
use sqlite_items::Boxed;
use std::alloc::{AllocError, Global};

/// What stands on the left of operators whose right side isn't read yet, in one pair of parentheses.
#[derive(Debug, Drop)]
pub struct Waiting {
    union: Option<Boxed<Expr>>,
    intersection: Option<Boxed<Expr>>,
    sequence: Option<Boxed<Expr>>,
}

/// An operand joined to what waits on its left, if something does.
fn joined_left(
    alloc: Global,
    operator: Operator,
    left: Option<Boxed<Expr>>,
    right: Boxed<Expr>,
) -> Result<Boxed<Expr>, AllocError>
    ensures { IfOk result (λ e. e ≡ joined_left operator left right) }
{
    match left {
        None => Ok(right),
        Some(left) => Ok(joined(alloc, operator, left, right)?),
    }
}

impl Waiting {
    /// Nothing waits.
    pub fn nothing() -> Waiting
        ensures { result ≡ nothing }
    {
        Waiting {
            union: None,
            intersection: None,
            sequence: None,
        }
    }

    /// What waits and binds as tight as a sequence, joined with the operand behind it; what else waits goes on to do so.
    pub fn behind_sequence(self, alloc: Global, right: Boxed<Expr>) -> Result<Waiting, AllocError>
        ensures { IfOk result (λ w. w ≡ waits Operator.Sequence self (settled Operator.Sequence self right)) }
    {
        let Waiting {
            union,
            intersection,
            sequence,
        } = self;
        let left = joined_left(alloc, Operator::Sequence, sequence, right)?;
        Ok(Waiting {
            union,
            intersection,
            sequence: Some(left),
        })
    }

    /// What waits and binds as tight as an intersection, joined with the operand behind it.
    pub fn behind_intersection(
        self,
        alloc: Global,
        right: Boxed<Expr>,
    ) -> Result<Waiting, AllocError>
        ensures { IfOk result (λ w. w ≡ waits Operator.Intersection self (settled Operator.Intersection self right)) }
    {
        let Waiting {
            union,
            intersection,
            sequence,
        } = self;
        let right = joined_left(alloc, Operator::Sequence, sequence, right)?;
        let left = joined_left(alloc, Operator::Intersection, intersection, right)?;
        Ok(Waiting {
            union,
            intersection: Some(left),
            sequence: None,
        })
    }

    /// All that waits, joined with the operand behind it.
    pub fn whole(self, alloc: Global, right: Boxed<Expr>) -> Result<Boxed<Expr>, AllocError>
        ensures { IfOk result (λ e. e ≡ settled Operator.Union self right) }
    {
        let Waiting {
            union,
            intersection,
            sequence,
        } = self;
        let right = joined_left(alloc, Operator::Sequence, sequence, right)?;
        let right = joined_left(alloc, Operator::Intersection, intersection, right)?;
        Ok(joined_left(alloc, Operator::Union, union, right)?)
    }

    /// All that waits, joined with the operand behind it, waits for a union.
    pub fn behind_union(self, alloc: Global, right: Boxed<Expr>) -> Result<Waiting, AllocError>
        ensures { IfOk result (λ w. w ≡ waits Operator.Union self (settled Operator.Union self right)) }
    {
        let left = self.whole(alloc, right)?;
        Ok(Waiting {
            union: Some(left),
            intersection: None,
            sequence: None,
        })
    }
}
