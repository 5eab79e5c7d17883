//! Which literal is decided next, where nothing of the branching rule is trusted.

ghost use Rattle.std.specs.Prelude.{◌≡◌, MatchBool, IfSome, IfNone};
ghost use Rattle.clause_store.specs.Clauses.{InVars};
ghost use Rattle.trail_core.specs.Course.{HasNoValue};
ghost use Rattle.cdcl_core.specs.Steps.{HaveValues};

use crate::standing::is_open;
use branch_rules::{Brancher, First};
use clause_store::Lit;
use trail_core::Trail;

// Whether the literal's variable is there and has no value.
fn can_be_decided(trail: &Trail, vars: u32, lit: Lit) -> bool
    requires { trail.now.vars ≡ vars }
    ensures { MatchBool result (InVars trail.now.vars lit × HasNoValue trail.now.entries lit.var) (Unit {0}) }
{
    if lit.var == 0 {
        return false;
    }
    if lit.var > vars {
        return false;
    }
    is_open(trail, lit)
}

// What the branching rule picks, if that can be decided.
fn picked(trail: &Trail, vars: u32, brancher: &mut Option<Box<dyn Brancher>>) -> Option<Lit>
    requires { trail.now.vars ≡ vars }
    ensures { IfSome result (λ l. InVars trail.now.vars l × HasNoValue trail.now.entries l.var) }
{
    if let Some(rule) = brancher {
        if let Some(lit) = rule.pick(trail.values()) {
            if can_be_decided(trail, vars, lit) {
                return Some(lit);
            }
        }
    }
    None
}

// The least variable without a value, made false.
fn first_open(trail: &Trail, _vars: u32) -> Option<Lit>
    requires { trail.now.vars ≡ _vars }
    ensures some { IfSome result (λ l. InVars trail.now.vars l × HasNoValue trail.now.entries l.var) }
    ensures none { IfNone result (HaveValues trail.now) }
{
    let mut rule = First::new();
    rule.pick(trail.values())
}

/// The literal that is decided next, if some variable has no value: what the rule picks, or else the least variable
/// without a value, made false.
pub fn choose(trail: &Trail, vars: u32, brancher: &mut Option<Box<dyn Brancher>>) -> Option<Lit>
    requires { trail.now.vars ≡ vars }
    ensures some { IfSome result (λ l. InVars trail.now.vars l × HasNoValue trail.now.entries l.var) }
    ensures none { IfNone result (HaveValues trail.now) }
{
    if let Some(lit) = picked(trail, vars, brancher) {
        return Some(lit);
    }
    first_open(trail, vars)
}
