ghost use Rattle.std.specs.Prelude.{◌≡◌};
ghost use Rattle.litmus_syntax.specs.Limits.{IsWithinLimits};

use crate::call::{Step, Text};
use crate::pred::Pred;
use fer_list::Seq;
use std::marker::Model;

/// A litmus test: what is set up, the body in which the crash may come, and the question. Each test keeps to the forms
/// and limits of a litmus file, so nothing above asks for them again.
#[derive(Debug, Drop)]
pub struct Litmus {
    name: Text,
    block: u32,
    setup: Seq<Step>,
    body: Seq<Step>,
    want: bool,
    pred: Pred,
    pred_line: u32,
    version: u32,
    sector: u32,
}

impl Model for Litmus {
    ghost use Rattle.litmus_syntax.specs.Test.{Test};
    ghost use Rattle.litmus_syntax.specs.Limits.{IsWithinLimits};
    ghost use Rattle.litmus_syntax.specs.contracts.pred.Pred as whole;
    ghost use Rattle.std.specs.Coded.{codes};

    ghost Value = { Test };

    ghost coded = { Prim.hlevel (codes, whole.the_row.coded) };

    ghost view = { λ l. record { name = l.name; block = l.block; setup = l.setup; body = l.body; want = l.want; pred = l.pred; pred_line = l.pred_line; version = l.version; sector = l.sector } };

    ghost invariant = { λ l. IsWithinLimits (record { name = l.name; block = l.block; setup = l.setup; body = l.body; want = l.want; pred = l.pred; pred_line = l.pred_line; version = l.version; sector = l.sector }) };
}

impl Litmus {
    /// The test of these parts.
    pub fn new(
        name: Text,
        block: u32,
        setup: Seq<Step>,
        body: Seq<Step>,
        want: bool,
        pred: Pred,
        pred_line: u32,
        version: u32,
        sector: u32,
    ) -> Litmus
        requires { IsWithinLimits (record { name = name; block = block; setup = setup; body = body; want = want; pred = pred; pred_line = pred_line; version = version; sector = sector }) }
        ensures { result ≡ record { name = name; block = block; setup = setup; body = body; want = want; pred = pred; pred_line = pred_line; version = version; sector = sector } }
    {
        Litmus {
            name,
            block,
            setup,
            body,
            want,
            pred,
            pred_line,
            version,
            sector,
        }
    }

    /// Makes the test one of the second version. Everything else stays: in the second version too, a test without a
    /// sector of its own has sectors as large as blocks.
    pub fn upgrade(&mut self)
        ensures { self.new ≡ record self.old { version = 2 } }
    {
        self.version = 2;
    }

    /// Each test keeps to the forms and limits of a litmus file: this is known wherever there is a test.
    pub fn keeps_limits(&self)
        ensures { IsWithinLimits self.now }
    {
        let _version = self.version;
    }

    /// The word behind `litmus`.
    pub fn name(&self) -> &Text
        ensures { result.now ≡ self.now.name }
    {
        &self.name
    }

    /// The size of a block, in bytes: writes reach the disk in pieces that end at its multiples.
    pub fn block(&self) -> u32
        ensures { result ≡ self.now.block }
    {
        self.block
    }

    /// The calls before the body, all of which are on the disk when it begins.
    pub fn setup(&self) -> &[Step]
        ensures { result.now ≡ self.now.setup }
    {
        self.setup.as_slice()
    }

    /// The calls in which the crash may come.
    pub fn body(&self) -> &[Step]
        ensures { result.now ≡ self.now.body }
    {
        self.body.as_slice()
    }

    /// Whether a state in which the predicate is true is looked for (`exists:`), or one in which it is false
    /// (`always:`).
    pub fn want(&self) -> bool
        ensures { result ≡ self.now.want }
    {
        self.want
    }

    /// The predicate of the question.
    pub fn pred(&self) -> &Pred
        ensures { result.now ≡ self.now.pred }
    {
        &self.pred
    }

    /// The line of the question, counted from 1.
    pub fn pred_line(&self) -> u32
        ensures { result ≡ self.now.pred_line }
    {
        self.pred_line
    }

    /// The version of the grammar: 1, or 2, in which there are transactions and sectors.
    pub fn version(&self) -> u32
        ensures { result ≡ self.now.version }
    {
        self.version
    }

    /// The size of a sector, in bytes, at most that of a block: writes reach the disk in pieces that end at its
    /// multiples, too.
    pub fn sector(&self) -> u32
        ensures { result ≡ self.now.sector }
    {
        self.sector
    }
}
