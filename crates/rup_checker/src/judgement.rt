//! What a checker says of a log.

ghost use Rattle.std.specs.Prelude.{◌≡◌};
ghost use Rattle.rup_checker.specs.Kinds.{kind_number};

/// Why a log that could be read is refused.
#[derive(Clone, Copy, Debug, PartialEq, Eq)]
pub enum JudgeKind {
    /// The formula has another number of variables or clauses than the log says.
    OtherFormula,
    /// A clause, the empty one that ends the log included, doesn't follow from the formula and the clauses before it by
    /// unit propagation.
    NotRup,
    /// The empty clause doesn't end the log.
    NoEmptyClause,
}

impl JudgeKind {
    /// The number under which the kind is printed, from 5 to 7.
    pub fn number(self) -> u8
        ensures { result ≡ kind_number self }
    {
        match self {
            JudgeKind::OtherFormula => 5,
            JudgeKind::NotRup => 6,
            JudgeKind::NoEmptyClause => 7,
        }
    }
}

/// What a checker says of a log.
#[derive(Clone, Copy, Debug, PartialEq, Eq)]
pub enum Judgement {
    /// No values of the variables make all clauses of the formula true.
    Accepted,
    /// The log is wrong in this line, counted from 1.
    Refused { line: u32, kind: JudgeKind },
}
