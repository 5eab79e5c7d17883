//! What is asked about.

ghost use Rattle.std.specs.Prelude.{◌≡◌, ◌≤◌, length, IfOk, OnOk};
ghost use Rattle.sync_parts.specs.Parts.{crash_without};
ghost use Rattle.sync_parts.specs.Sites.{places_present};
ghost use Rattle.sync_shrink.specs.Sets.{IsPart};
ghost use Rattle.sync_repair.specs.Settings.{IsSetting, AreKeptIn, IsShown};

use crate::pairs::kept_with;
use fer_events::{Crash, Events, Pairs};
use litmus_syntax::{Litmus, Site};
use model_reader::Model;
use std::alloc::{AllocError, Global};
use sync_parts::{carry, leave_out, places, places_are_those_of_events};

/// A test and a model, all sites, and the events of the test with all of them.
#[derive(Drop)]
pub(crate) struct Case<'a> {
    litmus: &'a Litmus,
    model: &'a Model,
    sites: &'a [Site],
    events: &'a Events,
}

impl<'a> std::marker::Model for Case<'a> {
    ghost use Rattle.sync_repair.specs.Settings.{Setting, IsSetting};
    ghost use Rattle.litmus_syntax.specs.contracts.pred.Pred as whole;
    ghost use Rattle.model_reader.specs.contracts.expr.Expr as related;
    ghost use Rattle.std.specs.Coded.{codes};

    ghost Value = { Setting };

    ghost coded = { Prim.hlevel (codes, whole.the_row.coded, related.the_row.coded) };

    ghost view = { λ c. record { litmus = c.litmus.now; model = c.model.now; sites = c.sites.now; all = c.events.now } };

    ghost invariant = { λ c. IsSetting (record { litmus = c.litmus.now; model = c.model.now; sites = c.sites.now; all = c.events.now }) };
}

impl<'a> Case<'a> {
    /// The case of these parts.
    pub(crate) fn new(
        litmus: &'a Litmus,
        model: &'a Model,
        sites: &'a [Site],
        events: &'a Events,
    ) -> Case<'a>
        requires { IsSetting (record { litmus = litmus.now; model = model.now; sites = sites.now; all = events.now }) }
        ensures { result ≡ record { litmus = litmus.now; model = model.now; sites = sites.now; all = events.now } }
    {
        Case {
            litmus,
            model,
            sites,
            events,
        }
    }

    /// The sites are syncs in the order of their calls, and the events are those with all of them.
    pub(crate) fn keeps_rules(&self)
        ensures { IsSetting self.now }
    {
        let _litmus = self.litmus;
    }

    /// The test.
    pub(crate) fn litmus(&self) -> &Litmus
        ensures { result.now ≡ self.now.litmus }
    {
        self.litmus
    }

    /// All sites.
    pub(crate) fn sites(&self) -> &[Site]
        ensures { result.now ≡ self.now.sites }
    {
        self.sites
    }

    /// The events with all sites.
    pub(crate) fn events(&self) -> &Events
        ensures { result.now ≡ self.now.all }
    {
        self.events
    }

    /// The pairs that are kept with the sites of the set.
    pub(crate) fn kept_with(&self, alloc: Global, set: &[bool]) -> Result<Pairs, AllocError>
        ensures { IfOk result (AreKeptIn self.now set.now) }
    {
        let pairs = kept_with(alloc, self.litmus, self.model, self.sites, self.events, set)?;
        Ok(pairs)
    }

    /// Leaves the events of the sites that aren't in the set out of a crash.
    pub(crate) fn leave_out(
        &self,
        alloc: Global,
        set: &[bool],
        crash: &mut Crash,
    ) -> Result<(), AllocError>
        ensures { OnOk result (crash.new ≡ crash_without (places_present self.now.litmus.body self.now.sites set.now self.now.all.events) crash.old) }
    {
        places_are_those_of_events();
        self.keeps_rules();
        self.events.keeps_rules();
        let places = places(alloc, self.litmus.body(), self.sites, set, self.events)?;
        leave_out(crash, places.as_slice());
        Ok(())
    }

    /// How many sites there are.
    pub(crate) fn count(&self) -> u32
        ensures { result ≡ length self.now.sites }
    {
        self.keeps_rules();
        self.events.keeps_rules();
        self.sites.len() as u32
    }

    /// Takes a crash with the sites of `from` to one with the sites of `to`, a part of them.
    pub(crate) fn carry(&self, from: &[bool], to: &[bool], crash: &mut Crash)
        requires shown { IsShown self.now from.now crash.old }
        requires part { IsPart to.now from.now }
        ensures { IsShown self.now to.now crash.new }
    {
        carry(self.litmus, self.sites, self.events, from, to, crash);
    }
}
