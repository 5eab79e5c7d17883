ghost use Rattle.std.specs.Prelude.{◌≡◌, IfOk};
ghost use Rattle.model_reader.specs.Expressions.{joined};

use crate::expr::Expr;
use sqlite_items::Boxed;
use std::alloc::{AllocError, Global};

/// What joins two expressions, the loosest first.
#[derive(Clone, Copy, Debug)]
pub enum Operator {
    /// `|`
    Union,
    /// `&`
    Intersection,
    /// `;`
    Sequence,
}

/// What the operator makes of what stands on its left and on its right.
pub fn joined(
    alloc: Global,
    operator: Operator,
    left: Boxed<Expr>,
    right: Boxed<Expr>,
) -> Result<Boxed<Expr>, AllocError>
    ensures { IfOk result (λ e. e ≡ joined operator left right) }
{
    match operator {
        Operator::Union => Ok(Boxed::new(alloc, Expr::Or { left, right })?),
        Operator::Intersection => Ok(Boxed::new(alloc, Expr::And { left, right })?),
        Operator::Sequence => Ok(Boxed::new(alloc, Expr::Seq { left, right })?),
    }
}
