use crate::expr::Expr;
use fer_list::Seq;
use litmus_syntax::Text;

/// The definition of a name.
#[derive(Debug, Drop)]
pub struct Definition {
    /// What the name means. It names only definitions before this one, and this one only where it is recursive.
    pub value: Expr,
    /// How many kept expressions stand before it.
    pub before: u32,
    pub recursive: bool,
}

/// Which pairs of events reach the disk in program order: those of each kept expression.
#[derive(Debug, Drop)]
pub struct Model {
    pub name: Text,
    pub lets: Seq<Definition>,
    pub keeps: Seq<Expr>,
    /// Of the grammar, 1 or 2.
    pub version: u32,
}
